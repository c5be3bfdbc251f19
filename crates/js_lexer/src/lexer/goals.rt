//! The calls of a lexer for goals beside the plain one: regular expressions, angles and JSX.

ghost use Rattle.std.specs.Prelude.{◌≡◌, length, IfOk, OnErr};
ghost use Rattle.js_kind.specs.Kinds.{kind_text};
ghost use Rattle.js_reader.specs.Decoded.{Keeps};
ghost use Rattle.js_lexer.specs.Goals.{IsBehindName, ReadsName, ReadsRegex};
ghost use Rattle.js_lexer.specs.Places.{ReadsInPlaces, StaysInPlaces};
ghost use Rattle.js_lexer.specs.Lexer.{IsBehindFor, IsRestored, LexesAgain, ReadsToken, kind_of_last};

use super::{Lexer, start_behind_reports, take_again};
use js_grammar::{Goal, spelled_length};
use js_kind::{Kind, LexerConfig, Token};
use js_reader::RegexToken;
use std::alloc::AllocError;

impl<C: LexerConfig + Drop> Lexer<'_, C> {
    /// Reads the regular expression that begins with the last token, of so many bytes.
    fn read_regex(&mut self, bytes: u32) -> Result<RegexToken, AllocError>
        requires behind { IsBehindFor Goal.RegularExpression self.old }
        requires bytes { bytes ≡ length (kind_text (kind_of_last self.old)) }
        ensures ok { IfOk result (λ found. ReadsRegex self.old found self.new) }
        ensures err { OnErr result (IsRestored self.old self.new) }
        ensures kept { Keeps self.old.decoded self.new.decoded }
        ensures places { StaysInPlaces self.old self.new }
    {
        let position = self.reader.source.position();
        let reported = self.found.errors.len();
        let offset = self.reader.source.offset() - bytes;
        match self.reader.read_expression(offset, &mut self.found.errors) {
            Ok(found) => {
                let collects = self.config.tokens();
                take_again(
                    &mut self.found.trivia,
                    &mut self.tokens,
                    collects,
                    found.token,
                );
                Ok(found)
            }
            Err(error) => {
                let start = start_behind_reports(position, reported, &self.found);
                start.go_back(&mut self.reader.source, &mut self.found);
                Err(error)
            }
        }
    }

    /// Reads the regular expression that begins with the last token, a `/` or a `/=` of this kind (ECMA-262 12.9.5),
    /// good or at fault. Its token stands in the place of that one.
    pub fn next_regex(&mut self, kind: Kind) -> Result<RegexToken, AllocError>
        requires behind { IsBehindFor Goal.RegularExpression self.old }
        requires kind { kind ≡ kind_of_last self.old }
        ensures ok { IfOk result (λ found. ReadsRegex self.old found self.new) }
        ensures err { OnErr result (IsRestored self.old self.new) }
        ensures kept { Keeps self.old.decoded self.new.decoded }
        ensures places { StaysInPlaces self.old self.new }
    {
        self.read_regex(spelled_length(kind))
    }

    /// Reads the longest punctuator that begins with the last token, a `>`: this, `>=`, `>>`, `>>=`, `>>>` or `>>>=`.
    /// Its token stands in the place of that one.
    pub fn re_lex_right_angle(&mut self) -> Token
        requires { IsBehindFor Goal.RightAngle self.old }
        ensures token { LexesAgain Goal.RightAngle self.old result self.new }
        ensures places { StaysInPlaces self.old self.new }
    {
        let start = self.reader.source.offset() - 1;
        let token = self.reader.read_longest_right_angle(start);
        let collects = self.config.tokens();
        take_again(&mut self.found.trivia, &mut self.tokens, collects, token);
        token
    }

    /// Reads the `<` alone with which the last token begins: a `<<` or a `<=`, of 2 bytes, or a `<<=`, of 3. Its token
    /// stands in the place of that one, and the lexer stands behind it.
    pub fn re_lex_as_typescript_l_angle(&mut self, offset: u32) -> Token
        requires behind { IsBehindFor Goal.TypeScriptLeftAngle self.old }
        requires bytes { offset ≡ length (kind_text (kind_of_last self.old)) }
        ensures token { LexesAgain Goal.TypeScriptLeftAngle self.old result self.new }
        ensures places { StaysInPlaces self.old self.new }
    {
        let start = self.reader.source.offset() - offset;
        let token = self.reader.read_left_angle(start);
        let collects = self.config.tokens();
        take_again(&mut self.found.trivia, &mut self.tokens, collects, token);
        token
    }

    /// Reads the `>` alone with which the last token begins: a `>>`, of 2 bytes, or a `>>>`, of 3. Its token stands in
    /// the place of that one, and the lexer stands behind it.
    pub fn re_lex_as_typescript_r_angle(&mut self, offset: u32) -> Token
        requires behind { IsBehindFor Goal.TypeScriptRightAngle self.old }
        requires bytes { offset ≡ length (kind_text (kind_of_last self.old)) }
        ensures token { LexesAgain Goal.TypeScriptRightAngle self.old result self.new }
        ensures places { StaysInPlaces self.old self.new }
    {
        let start = self.reader.source.offset() - offset;
        let token = self.reader.read_right_angle(start);
        let collects = self.config.tokens();
        take_again(&mut self.found.trivia, &mut self.tokens, collects, token);
        token
    }

    /// Reads on the last token, a name that begins at the offset, as a name of JSX, which may have `-`. The token of
    /// the
    /// whole stands in the place of that one. None: no `-` is next, and nothing has changed.
    pub fn continue_lex_jsx_identifier(&mut self, start: u32) -> Option<Token>
        requires { IsBehindName start self.old }
        ensures token { ReadsName self.old result self.new }
        ensures places { StaysInPlaces self.old self.new }
    {
        let token = self.reader.read_jsx_name(start)?;
        let collects = self.config.tokens();
        take_again(&mut self.found.trivia, &mut self.tokens, collects, token);
        Some(token)
    }

    /// Reads what stands between two tags of JSX: a `<`, a `{`, or the text up to one of them, white space and all.
    pub fn next_jsx_child(&mut self) -> Result<Token, AllocError>
        ensures ok { IfOk result (λ token. ReadsToken Goal.JsxChild self.old token self.new) }
        ensures err { OnErr result (IsRestored self.old self.new) }
        ensures kept { Keeps self.old.decoded self.new.decoded }
        ensures places { ReadsInPlaces self.old self.new }
    {
        self.read(Goal::JsxChild)
    }

    /// Reads the value of an attribute of JSX behind a gap: a string, up to the next quote like its first, since it has
    /// no escapes; or else the next token of the plain goal.
    pub fn next_jsx_attribute_value(&mut self) -> Result<Token, AllocError>
        ensures ok { IfOk result (λ token. ReadsToken Goal.JsxAttributeValue self.old token self.new) }
        ensures err { OnErr result (IsRestored self.old self.new) }
        ensures kept { Keeps self.old.decoded self.new.decoded }
        ensures places { ReadsInPlaces self.old self.new }
    {
        self.read(Goal::JsxAttributeValue)
    }
}
