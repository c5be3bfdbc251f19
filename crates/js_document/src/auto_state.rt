//! What the chooser of js_auto knows behind a token.

ghost use Rattle.std.specs.Prelude.{◌≡◌, ◌↔◌, true, List, map, IfOk, IsTrue, Some};
ghost use Rattle.js_kind.specs.Kinds.{is_one_of};
ghost use Rattle.js_grammar.specs.ReLexed.{again_kinds};
ghost use Rattle.js_choose.specs.Operands.{ends_operand};
ghost use Rattle.js_auto.specs.Braces.{is_in_substitution, open_behind, without_block};
ghost use Rattle.js_auto.specs.Choice.{begins_expression, choice_behind, ends_substitution};
ghost use Rattle.js_auto.specs.declared.brace.Brace.{Brace};
ghost use Rattle.js_document.specs.States.{brace_scope};
ghost use Rattle.js_document.specs.Trie.{HasMore, IsOpen};

use crate::keep::KeepGoals;
use crate::open::OpenTrie;
use js_choose::ends_operand;
use js_grammar::Goal;
use js_kind::{Kind, Token};
use js_session::Command;
use std::alloc::AllocError;

/// A block, an object or another thing between `{` and `}`.
const BLOCK: u8 = 0;

/// A substitution in a template, between `${` and `}`.
const TEMPLATE: u8 = 1;

/// What the rule of js_auto knows of the tokens before the last one.
#[derive(Clone, Copy, Drop)]
pub struct AutoState {
    /// The braces that are open before the last token.
    link: u32,
    /// The kind of the token before the last one, and `Eof`, with which no operand ends, where there is none.
    before: Kind,
}

/// Whether the brace that was opened last is that of a substitution in a template.
fn is_in_substitution(open: &OpenTrie, link: u32) -> bool
    ensures { (braces : List Brace) → IsOpen open.now link (map brace_scope braces)
        → result ≡ is_in_substitution braces }
{
    match open.last(link) {
        Some(scope) => scope == TEMPLATE,
        None => false,
    }
}

/// The braces that are open without the last one, if it is one of a block.
fn without_block(open: &OpenTrie, link: u32) -> u32
    ensures { (braces : List Brace) → IsOpen open.now link (map brace_scope braces)
        → IsOpen open.now result (map brace_scope (without_block braces)) }
{
    if is_in_substitution(open, link) {
        link
    } else {
        open.close(link)
    }
}

/// The braces that are open behind a token of the kind.
#[tactic(auto, unfolding(js_auto::specs::Braces::effect_of))]
fn open_behind(open: &mut OpenTrie, link: u32, kind: Kind) -> Result<u32, AllocError>
    requires { (braces : List Brace) × IsOpen open.old link (map brace_scope braces) }
    ensures ok { (braces : List Brace) → IsOpen open.old link (map brace_scope braces)
        → IfOk result (λ new. IsOpen open.new new (map brace_scope (open_behind (Some kind) braces))) }
    ensures more { HasMore open.old open.new }
{
    match kind {
        Kind::LCurly => open.open(link, BLOCK),
        Kind::TemplateHead => open.open(link, TEMPLATE),
        Kind::RCurly => Ok(without_block(open, link)),
        Kind::TemplateTail => Ok(open.close(link)),
        _ => Ok(link),
    }
}

impl AutoState {
    /// Whether a token of the kind begins a regular expression.
    fn begins_expression(self, kind: Kind) -> bool
        ensures { result ≡ begins_expression self.before kind }
    {
        Goal::RegularExpression.reads_again(kind) && !ends_operand(self.before)
    }

    /// Whether a token of the kind ends a substitution in a template.
    fn ends_substitution(self, open: &OpenTrie, kind: Kind) -> bool
        ensures { (braces : List Brace) → IsOpen open.now self.link (map brace_scope braces)
            → result ≡ ends_substitution braces kind }
    {
        Goal::TemplateTail.reads_again(kind) && is_in_substitution(open, self.link)
    }

    /// The command behind a last token of the kind. None: no command follows.
    fn command_behind(self, open: &OpenTrie, kind: Kind) -> Option<Command>
        ensures { (braces : List Brace) → IsOpen open.now self.link (map brace_scope braces)
            → result ≡ choice_behind braces self.before (Some kind) }
    {
        if kind.is_eof() {
            None
        } else if self.ends_substitution(open, kind) {
            Some(Command::TemplateTail)
        } else if self.begins_expression(kind) {
            Some(Command::Regex)
        } else {
            Some(Command::Next)
        }
    }

    /// Whether an operand has ended before both or before none, where a token of the kind may begin a regular expression.
    fn ends_alike(self, other: AutoState, kind: Kind) -> bool
        ensures { IsTrue result ↔ (is_one_of (again_kinds Goal.RegularExpression) kind ≡ true
            → ends_operand self.before ≡ ends_operand other.before) }
    {
        if !Goal::RegularExpression.reads_again(kind) {
            return true;
        }
        ends_operand(self.before) == ends_operand(other.before)
    }
}

impl KeepGoals for AutoState {
    ghost use Rattle.js_auto.specs.Choice.{choice_in};
    ghost use Rattle.js_auto.specs.DueLemmas.{each_is_due};
    ghost use Rattle.js_document.specs.AutoLaws.{braces_again, braces_alike, braces_behind, braces_known, braces_stay};
    ghost use Rattle.js_document.specs.AutoLaws.{same_itself};
    ghost use Rattle.js_document.specs.States.{KnowsBraces, SameBraces};

    ghost choice = { choice_in };

    ghost knows = { KnowsBraces };

    ghost alike = { SameBraces };

    ghost is_rule = { each_is_due };

    ghost stays = { braces_stay };

    ghost knows_alike = { braces_known };

    ghost chooses_alike = { braces_alike };

    ghost alike_itself = { same_itself };

    ghost alike_behind = { braces_behind };

    ghost alike_again = { braces_again };

    fn first() -> AutoState {
        AutoState {
            link: 0,
            before: Kind::Eof,
        }
    }

    fn behind(self, open: &mut OpenTrie, last: &Token) -> Result<AutoState, AllocError> {
        let before = last.kind();
        let link = open_behind(open, self.link, before)?;
        Ok(AutoState { link, before })
    }

    fn again(self) -> AutoState {
        self
    }

    fn command(self, open: &OpenTrie, _: &str, last: &Token) -> Option<Command> {
        self.command_behind(open, last.kind())
    }

    fn is_alike(self, other: AutoState, open: &OpenTrie, last: &Token) -> bool {
        if !open.is_same(self.link, other.link) {
            return false;
        }
        self.ends_alike(other, last.kind())
    }
}
