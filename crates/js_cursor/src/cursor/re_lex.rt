//! Reading the current token again, as one of another goal.

ghost use Rattle.std.specs.Prelude.{◌≡◌, ◌&&◌, true, MatchBool, IfOk, OnOk, OnErr};
ghost use Rattle.std.specs.Prelude.{if◌then◌else◌};
ghost use Rattle.std.specs.Option.{is_some};
ghost use Rattle.js_kind.specs.Kinds.{is_identifier_name, is_one_of};
ghost use Rattle.js_grammar.specs.ReLexed.{again_kinds, is_re_lexed};
ghost use Rattle.js_lexer.specs.Lexer.{IsBehindFor};
ghost use Rattle.js_cursor.specs.Onward.{HasNotAdvanced};
ghost use Rattle.js_cursor.specs.Cursor.{IsAsBefore, is_at_token_end};
ghost use Rattle.js_cursor.specs.ReLex.{ReLexes, ReadsExpression, is_angle, is_at_hyphen, is_free, may_re_lex};

use super::Cursor;
use js_grammar::{Goal, spelled_length};
use js_kind::{Kind, LexerConfig};
use js_text::RegExpFlags;
use std::alloc::AllocError;

impl<C: LexerConfig + Drop> Cursor<'_, C> {
    /// Whether no fatal error stands, and the lexer stands where the current token ends.
    fn is_free(&self) -> bool
        ensures { result ≡ is_free self.now }
    {
        if self.has_fatal_error() {
            return false;
        }
        self.is_at_token_end()
    }

    /// Whether the goal may read the current token again, by its kind, and the cursor is free to do it.
    #[tactic(auto, using(js_grammar::proofs::AgainKinds::again_is_re_lexed))]
    fn may_re_lex(&self, goal: Goal) -> bool
        ensures answer { result ≡ may_re_lex goal self.now }
        ensures behind { result ≡ true → IsBehindFor goal self.now.lexer }
        ensures again { result ≡ true → is_re_lexed self.now.token.kind ≡ true }
    {
        if !goal.reads_again(self.token.kind()) {
            return false;
        }
        self.is_free()
    }

    /// Reads the regular expression that begins with the current token, a `/` or a `/=` (ECMA-262 12.9.5). Gives the
    /// offset in bytes where its pattern ends, its flags, and whether these are at fault.
    pub fn read_regex(&mut self) -> Result<(u32, RegExpFlags, bool), AllocError>
        requires kind { is_one_of (again_kinds Goal.RegularExpression) self.old.token.kind ≡ true }
        requires behind { is_at_token_end self.old ≡ true }
        ensures ok { IfOk result (λ found. ReadsExpression self.old found.0 found.1 found.2 self.new) }
        ensures err { OnErr result (IsAsBefore self.old self.new) }
        ensures stays { HasNotAdvanced self.old self.new }
    {
        let found = self.lexer.next_regex(self.token.kind())?;
        self.token = found.token;
        Ok((found.pattern_end, found.flags, found.flags_error))
    }

    /// Reads the next part of a template from the `}` on that is current; else nothing changes.
    pub fn re_lex_template_substitution_tail(&mut self) -> Result<(), AllocError>
        ensures ok { OnOk result (MatchBool (may_re_lex Goal.TemplateTail self.old)
            (ReLexes Goal.TemplateTail self.old self.new) (self.new ≡ self.old)) }
        ensures err { OnErr result (IsAsBefore self.old self.new) }
        ensures stays { HasNotAdvanced self.old self.new }
    {
        if !self.may_re_lex(Goal::TemplateTail) {
            return Ok(());
        }
        self.token = self.lexer.next_template_substitution_tail()?;
        Ok(())
    }

    /// Reads the name that is current on, as a name of JSX, which may have `-`. Tells whether it did; else nothing
    /// changes.
    pub fn continue_lex_jsx_identifier(&mut self) -> bool
        requires { is_identifier_name self.old.token.kind ≡ true }
        ensures changed { MatchBool result (ReLexes Goal.JsxIdentifier self.old self.new) (self.new ≡ self.old) }
        ensures answer { result ≡ (is_free self.old && is_at_hyphen self.old) }
        ensures stays { HasNotAdvanced self.old self.new }
    {
        if !self.is_free() {
            return false;
        }
        match self.lexer.continue_lex_jsx_identifier(self.token.start()) {
            Some(token) => {
                self.token = token;
                true
            }
            None => false,
        }
    }

    /// Reads the longest punctuator that begins with the `>` that is current; else nothing changes.
    fn take_right_angle(&mut self)
        ensures taken { MatchBool (may_re_lex Goal.RightAngle self.old) (ReLexes Goal.RightAngle self.old self.new)
            (self.new ≡ self.old) }
        ensures stays { HasNotAdvanced self.old self.new }
    {
        if !self.may_re_lex(Goal::RightAngle) {
            return;
        }
        self.token = self.lexer.re_lex_right_angle();
    }

    /// Reads the longest punctuator that begins with the `>` that is current; else nothing changes. Gives the kind that
    /// is current then, and `Eof` under a fatal error.
    pub fn re_lex_right_angle(&mut self) -> Kind
        ensures taken { MatchBool (may_re_lex Goal.RightAngle self.old) (ReLexes Goal.RightAngle self.old self.new)
            (self.new ≡ self.old) }
        ensures answer { result ≡ (if is_some self.old.fatal then Kind.Eof else self.new.token.kind) }
        ensures stays { HasNotAdvanced self.old self.new }
    {
        if self.has_fatal_error() {
            return Kind::Eof;
        }
        self.take_right_angle();
        self.cur_kind()
    }

    /// Reads the `<` alone with which the current token begins: a `<<`, a `<=` or a `<<=`; else nothing changes. Tells
    /// whether a `<` is current then, and no fatal error stands.
    pub fn re_lex_ts_l_angle(&mut self) -> bool
        ensures taken { MatchBool (may_re_lex Goal.TypeScriptLeftAngle self.old)
            (ReLexes Goal.TypeScriptLeftAngle self.old self.new) (self.new ≡ self.old) }
        ensures answer { result ≡ is_angle Kind.LAngle Goal.TypeScriptLeftAngle self.old }
        ensures stays { HasNotAdvanced self.old self.new }
    {
        if self.has_fatal_error() {
            return false;
        }
        if !self.may_re_lex(Goal::TypeScriptLeftAngle) {
            return self.at(Kind::LAngle);
        }
        let bytes = spelled_length(self.token.kind());
        self.token = self.lexer.re_lex_as_typescript_l_angle(bytes);
        true
    }

    /// Reads the `>` alone with which the current token begins: a `>>` or a `>>>`; else nothing changes. Tells whether
    /// a `>` is current then, and no fatal error stands.
    pub fn re_lex_ts_r_angle(&mut self) -> bool
        ensures taken { MatchBool (may_re_lex Goal.TypeScriptRightAngle self.old)
            (ReLexes Goal.TypeScriptRightAngle self.old self.new) (self.new ≡ self.old) }
        ensures answer { result ≡ is_angle Kind.RAngle Goal.TypeScriptRightAngle self.old }
        ensures stays { HasNotAdvanced self.old self.new }
    {
        if self.has_fatal_error() {
            return false;
        }
        if !self.may_re_lex(Goal::TypeScriptRightAngle) {
            return self.at(Kind::RAngle);
        }
        let bytes = spelled_length(self.token.kind());
        self.token = self.lexer.re_lex_as_typescript_r_angle(bytes);
        true
    }
}
