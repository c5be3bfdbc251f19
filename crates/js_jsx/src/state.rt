//! What is kept of the tokens so far, and what is chosen by it.

ghost use Rattle.std.specs.Prelude.{◌≡◌, ◌||◌, Some, slice_get, if◌then◌else◌};
ghost use Rattle.js_jsx.specs.Changes.{ends_element, place_behind};
ghost use Rattle.js_jsx.specs.Classes.{class_of};
ghost use Rattle.js_jsx.specs.Choice.{begins_child, begins_expression, begins_value, choice_at_end, choice_behind};
ghost use Rattle.js_jsx.specs.Choice.{ends_substitution, goes_on_as_name, is_dash, is_in_template, is_tag_in_template};
ghost use Rattle.js_jsx.specs.Choice.{reads_behind};
ghost use Rattle.js_jsx.specs.InCode.{choice_in_code, command_at_slash, reads_behind_brace};
ghost use Rattle.js_jsx.specs.Scopes.{is_children, is_code, is_tag, is_types, passes, top};
ghost use Rattle.js_jsx.specs.States.{behind, change_in_tag, change_of, ends, has_brace};
ghost use Rattle.js_jsx.specs.States.{is_right_bracket, keeps_operand, may_open, takes_bang, takes_types};
ghost use Rattle.js_jsx.specs.Steps.{after_step};

use crate::change::{
    Change, TagPlace, change_in_children, change_in_code, change_in_types, change_within_tag,
    ends_tags,
};
use crate::class::{TokenClass, class_of};
use crate::read_scopes::{ReadScopes, are_children_behind, are_code, scopes_change, top};
use crate::scope::Scope;
use crate::step::StateStep;
use js_choose::ends_operand;
use js_grammar::Goal;
use js_kind::{Kind, Token};
use js_session::Command;
use std::marker::Model;

/// What is kept of the tokens so far, as it is asked.
#[derive(Drop)]
pub struct StateView<S: ReadScopes> {
    /// What is open.
    pub scopes: S,
    /// Which of its own tokens comes next in what was opened last, if it is a tag.
    pub place: TagPlace,
    /// Whether an operand has ended though the last token does not tell.
    pub has_ended: bool,
    /// The kind of the last token, and `Kind::Eof` where there is none.
    pub before: Kind,
}

impl<S: ReadScopes> Model for StateView<S> {
    ghost use Rattle.js_jsx.specs.States.{State};

    ghost Value = { State };

    ghost view = { λ s. record { scopes = S.scopes s.scopes; place = s.place; has_ended = s.has_ended; before = s.before } };
}

/// Whether type parameters may stand behind a word of the kind.
#[tactic(auto, unfolding(crate::specs::States::takes_types))]
fn takes_types(kind: Kind) -> bool
    ensures { result ≡ takes_types kind }
{
    matches!(kind, Kind::New | Kind::Class | Kind::Function)
}

/// Whether the kind is that of a `]`.
#[tactic(auto, unfolding(crate::specs::States::is_right_bracket))]
fn is_right_bracket(kind: Kind) -> bool
    ensures { result ≡ is_right_bracket kind }
{
    matches!(kind, Kind::RBrack)
}

/// Whether a `!` on the line of a token of the kind leaves an operand ended that ends with it.
fn takes_bang(kind: Kind) -> bool
    ensures { result ≡ takes_bang kind }
{
    kind.is_identifier_name() || is_right_bracket(kind)
}

/// The byte of the text behind the token, if there is one.
fn byte_behind(text: &str, token: &Token) -> Option<u8>
    ensures { result ≡ slice_get text.now token.now.end }
{
    text.as_bytes().get(token.end() as usize).copied()
}

/// Whether the byte is a `-`.
fn is_dash(byte: Option<u8>) -> bool
    ensures { result ≡ is_dash byte }
{
    match byte {
        Some(byte) => byte == b'-',
        None => false,
    }
}

/// How the next token is read: as a child, or plainly.
fn child_or_next(is_child: bool) -> Command
    ensures { result ≡ (if is_child then Command.JsxChild else Command.Next) }
{
    if is_child {
        Command::JsxChild
    } else {
        Command::Next
    }
}

impl<S: ReadScopes> StateView<S> {
    /// Whether an operand may have ended.
    fn ends(&self) -> bool
        ensures { result ≡ ends self.now }
    {
        self.has_ended || ends_operand(self.before)
    }

    /// Whether a `<` opens a tag.
    fn may_open(&self) -> bool
        ensures { result ≡ may_open self.now }
    {
        !self.ends() && !takes_types(self.before)
    }

    /// Whether a brace is open.
    fn has_brace(&self) -> bool
        ensures { result ≡ has_brace self.now }
    {
        self.scopes.last_brace().is_some()
    }

    /// What a token of the class does in what may be no tag.
    fn change_in_tag(&self, is_closing: bool, class: TokenClass) -> Change
        ensures { result ≡ change_in_tag is_closing self.now class }
    {
        if ends_tags(class) {
            Change::EndsTags
        } else if self.place.tells_no_tag(class) {
            change_in_code(self.may_open(), class).in_place_of_tag()
        } else {
            let before = class_of(self.before);
            change_within_tag(is_closing, self.has_brace(), self.place, before, class)
        }
    }

    /// What a token of the class does to what is open.
    fn change(&self, class: TokenClass) -> Change
        ensures { result ≡ change_of self.now class }
    {
        match top(&self.scopes) {
            None | Some(Scope::Block | Scope::Template | Scope::Container) => {
                change_in_code(self.may_open(), class)
            }
            Some(Scope::OpeningTag) => self.change_in_tag(false, class),
            Some(Scope::ClosingTag) => self.change_in_tag(true, class),
            Some(Scope::TypeArguments) => change_in_types(class),
            Some(Scope::Children) => change_in_children(self.has_brace(), class),
        }
    }

    /// Whether a tag was opened last.
    fn is_in_tag(&self) -> bool
        ensures { result ≡ passes is_tag (top self.now.scopes) }
    {
        match top(&self.scopes) {
            Some(scope) => scope.is_tag(),
            None => false,
        }
    }

    /// Whether type arguments were opened last.
    fn is_in_types(&self) -> bool
        ensures { result ≡ passes is_types (top self.now.scopes) }
    {
        match top(&self.scopes) {
            Some(scope) => scope.is_types(),
            None => false,
        }
    }

    /// Whether children were opened last.
    fn is_in_children(&self) -> bool
        ensures { result ≡ passes is_children (top self.now.scopes) }
    {
        match top(&self.scopes) {
            Some(scope) => scope.is_children(),
            None => false,
        }
    }

    /// Whether a brace was opened last, or nothing is open.
    fn is_in_code(&self) -> bool
        ensures { result ≡ is_code (top self.now.scopes) }
    {
        are_code(&self.scopes)
    }

    /// Whether the token is a `!` that leaves an operand ended.
    fn keeps_operand(&self, token: &Token) -> bool
        ensures { result ≡ keeps_operand self.now token.now }
    {
        class_of(token.kind()).is_bang()
            && !token.is_on_new_line()
            && takes_bang(self.before)
            && self.ends()
    }

    /// Whether an operand has ended behind the token with the change, though it does not tell.
    fn has_ended_behind(&self, token: &Token, change: Change) -> bool
        ensures { result ≡ (ends_element change || keeps_operand self.now token.now) }
    {
        change.ends_element() || self.keeps_operand(token)
    }

    /// Which of its own tokens comes next in what was opened last, if it is a tag, behind one of the class with the
    /// change.
    fn place_behind(&self, class: TokenClass, change: Change) -> TagPlace
        ensures { result ≡ place_behind (passes is_tag (top self.now.scopes)) self.now.place class change }
    {
        self.place.behind(self.is_in_tag(), class, change)
    }

    /// What a token of the class changes.
    #[inline(always)]
    pub(crate) fn step_of(&self, class: TokenClass, token: &Token) -> StateStep
        requires { class_of token.now.kind ≡ class }
        ensures { after_step self.now result token.now.kind ≡ behind self.now token.now }
    {
        let change = self.change(class);
        StateStep {
            has_ended: self.has_ended_behind(token, change),
            place: self.place_behind(class, change),
            scopes: scopes_change(&self.scopes, change, class),
        }
    }

    /// What a token changes of what is kept: carried out, that leaves what is kept behind it.
    pub fn step(&self, token: &Token) -> StateStep
        ensures { after_step self.now result token.now.kind ≡ behind self.now token.now }
    {
        self.step_of(class_of(token.kind()), token)
    }

    /// Whether a `}` ends a substitution in a template.
    fn is_in_template(&self) -> bool
        ensures { result ≡ is_in_template self.now }
    {
        match top(&self.scopes) {
            Some(Scope::Template) => true,
            Some(Scope::OpeningTag | Scope::ClosingTag) => self.is_tag_in_template(),
            _ => false,
        }
    }

    /// Whether the tag that was opened last goes on up to a `}`, and that ends a substitution.
    fn is_tag_in_template(&self) -> bool
        ensures { result ≡ is_tag_in_template self.now }
    {
        if self.place.tells_no_tag(TokenClass::RightCurly) {
            return false;
        }
        match self.scopes.last_brace() {
            Some(scope) => scope.is_template(),
            None => false,
        }
    }

    /// Whether a token of the kind, which is no end, ends a substitution.
    fn ends_substitution(&self, kind: Kind) -> bool
        ensures { result ≡ ends_substitution self.now kind }
    {
        Goal::TemplateTail.reads_again(kind) && self.is_in_template()
    }

    /// Whether the token is the first part of a name in a tag that goes on with a `-`.
    fn goes_on_as_name(&self, text: &str, token: &Token) -> bool
        ensures { result ≡ goes_on_as_name (slice_get text.now token.now.end) self.now token.now.kind }
    {
        token.kind().is_identifier_name() && self.is_in_tag() && is_dash(byte_behind(text, token))
    }

    /// Whether a token of the kind begins a regular expression.
    fn begins_expression(&self, kind: Kind) -> bool
        ensures { result ≡ begins_expression self.now kind }
    {
        Goal::RegularExpression.reads_again(kind) && self.is_in_code() && !self.ends()
    }

    /// Whether the value of an attribute is read behind a token of the class.
    fn begins_value(&self, class: TokenClass) -> bool
        ensures { result ≡ begins_value self.now class }
    {
        class.is_equal() && self.is_in_tag() && self.change(class).stays()
    }

    /// Whether a child is read behind a token of the class.
    fn begins_child(&self, class: TokenClass) -> bool
        ensures { result ≡ begins_child self.now class }
    {
        !self.is_in_types() && are_children_behind(&self.scopes, self.change(class), class)
    }

    /// How the next token is read behind one of the class.
    fn reads_behind(&self, class: TokenClass) -> Command
        ensures { result ≡ reads_behind self.now class }
    {
        if self.begins_value(class) {
            Command::JsxAttr
        } else {
            child_or_next(self.begins_child(class))
        }
    }

    /// The command behind an end.
    fn command_at_end(&self, next: Option<u8>) -> Option<Command>
        ensures { result ≡ choice_at_end next self.now }
    {
        if self.is_in_children() && next.is_some() {
            Some(Command::Next)
        } else {
            None
        }
    }

    /// The command behind a last token of the text, where a tag, type arguments or children were opened last.
    fn command_within(&self, text: &str, last: &Token) -> Option<Command>
        ensures { result ≡ choice_behind (slice_get text.now last.now.end) self.now (Some last.now) }
    {
        let kind = last.kind();
        if kind.is_eof() {
            self.command_at_end(byte_behind(text, last))
        } else if self.ends_substitution(kind) {
            Some(Command::TemplateTail)
        } else if self.goes_on_as_name(text, last) {
            Some(Command::JsxName)
        } else if self.begins_expression(kind) {
            Some(Command::Regex)
        } else {
            Some(self.reads_behind(class_of(kind)))
        }
    }

    /// How the next token is read behind a brace of the class in code.
    fn reads_behind_brace(&self, class: TokenClass) -> Command
        ensures { result ≡ reads_behind_brace self.now class }
    {
        child_or_next(are_children_behind(&self.scopes, Change::Stays, class))
    }

    /// The command behind a `/` or `/=` in code.
    fn command_at_slash(&self) -> Command
        ensures { result ≡ command_at_slash self.now }
    {
        if self.ends() {
            Command::Next
        } else {
            Command::Regex
        }
    }

    /// The command behind a last token of the class in code.
    fn command_in_code(&self, class: TokenClass) -> Option<Command>
        ensures { result ≡ choice_in_code self.now class }
    {
        match class {
            TokenClass::End => None,
            TokenClass::RightCurly if self.is_in_template() => Some(Command::TemplateTail),
            TokenClass::RightCurly | TokenClass::TemplateTail => {
                Some(self.reads_behind_brace(class))
            }
            TokenClass::Slash | TokenClass::SlashEqual => Some(self.command_at_slash()),
            _ => Some(Command::Next),
        }
    }

    /// The command that comes behind a last token of the text, where this is kept of the tokens before it. None: no
    /// command follows.
    #[cold]
    #[inline(never)]
    pub fn command(&self, text: &str, last: Token) -> Option<Command>
        ensures { result ≡ choice_behind (slice_get text.now last.end) self.now (Some last) }
    {
        if self.is_in_code() {
            self.command_in_code(class_of(last.kind()))
        } else {
            self.command_within(text, &last)
        }
    }
}
