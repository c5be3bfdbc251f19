//! Readings of the first and the plain goal.

ghost use Rattle.std.specs.Prelude.{◌≡◌, ◌≢◌, ◌<◌, ◌==◌, true, false, [], List, Option, None, IfOk, IfSome, IfNone};
ghost use Rattle.std.specs.Prelude.{OnOk};
ghost use Rattle.std.specs.Prelude.{OnErr};
ghost use Rattle.js_text.specs.Ascii.{number_sign, grave_accent};
ghost use Rattle.js_text.specs.Characters.{begins, is_identifier_start};
ghost use Rattle.js_text.specs.declared.diagnostic.Diagnostic.{Diagnostic};
ghost use Rattle.js_grammar.specs.Gap.{whole_gap_piece};
ghost use Rattle.js_grammar.specs.Goals.{line_has_ended_behind};
ghost use Rattle.js_grammar.specs.Name.{begins_name};
ghost use Rattle.js_grammar.specs.Number.{begins_number};
ghost use Rattle.js_grammar.specs.Punctuators.{NoPunctuator};
ghost use Rattle.js_grammar.specs.Reads.{is_onward};
ghost use Rattle.js_grammar.specs.StringItems.{is_quote};
ghost use Rattle.js_kind.specs.TokenParts.{TokenParts, default_parts};
ghost use Rattle.js_source.specs.Runs.{TellsClass};
ghost use Rattle.js_source.specs.Source.{rest, BeginsWith};
ghost use Rattle.js_reader.specs.Decoded.{HasValue, HasValueHere, KeepsValues, KeepsSpelt, KeepsPart};
ghost use Rattle.js_reader.specs.Found.{Grows};
ghost use Rattle.js_reader.specs.Reader.{ReadsTokenHere, ReadsLexeme, ReadsBehind, ReadsWithGap, ReadsHashbang};
ghost use Rattle.js_reader.specs.Reader.{NothingHere, MovesOn, ReadsInPart};
ghost use Rattle.js_reader.specs.Tables.{is_name_start};

use crate::decoded::DecodedValues;
use crate::findings_builder::FindingsBuilder;
use crate::lexeme::Lexeme;
use crate::reader::Reader;
use crate::simple::read_simple_spelling;
use js_grammar::Goal;
use js_kind::{Kind, Token};
use js_spell::{
    Spelt, SpeltValue, advance_if_sequence, read_name, read_number, read_private_name,
    read_punctuator, read_string, read_template_part, recover, skip_line,
};
use js_text::{DiagnosticList, Span, is_identifier_start};
use std::alloc::AllocError;

/// Whether a name begins with the ASCII character.
#[inline(always)]
pub fn begins_ascii_name(table: &[bool; 256], b: u8) -> bool
    requires table { TellsClass is_identifier_start table.now }
    requires ascii { b < 128 }
    ensures { result ≡ is_identifier_start b }
{
    table[b as usize]
}

/// Whether a name begins with the character, or with an escape.
fn begins_name(c: char) -> bool
    ensures { result ≡ is_name_start c }
{
    if c == '\\' {
        return true;
    }
    is_identifier_start(c)
}

/// Keeps the value of the token that starts at the offset, where it was decoded.
fn keep_value(decoded: &mut DecodedValues, start: u32, value: SpeltValue) -> Result<(), AllocError>
    ensures ok { OnOk result (KeepsSpelt start value decoded.old decoded.new) }
    ensures err { OnErr result (decoded.new ≡ decoded.old) }
{
    match value {
        SpeltValue::Plain | SpeltValue::Bad => Ok(()),
        SpeltValue::Decoded(units) => decoded.insert(start, units),
    }
}

/// Keeps the value of the part of a template that starts at the offset, where it is no stretch of the source.
pub fn keep_part(
    decoded: &mut DecodedValues,
    start: u32,
    value: SpeltValue,
) -> Result<(), AllocError>
    ensures ok { OnOk result (KeepsPart start value decoded.old decoded.new) }
    ensures err { OnErr result (decoded.new ≡ decoded.old) }
{
    match value {
        SpeltValue::Plain => Ok(()),
        SpeltValue::Decoded(units) => decoded.insert_template(start, Some(units)),
        SpeltValue::Bad => decoded.insert_template(start, None),
    }
}

impl Reader<'_> {
    /// What was read without a fault and without a flag.
    #[inline(always)]
    fn lexeme(&self, kind: Kind) -> Lexeme
        ensures { result ≡ record {
          kind = kind;
          is_on_new_line = self.now.line_has_ended;
          escaped = false;
          has_separator = false;
        } }
    {
        Lexeme {
            kind,
            is_on_new_line: self.line_has_ended,
            escaped: false,
            has_separator: false,
        }
    }

    /// A token that starts here, of which no more is known.
    #[inline(always)]
    fn token_here(&self) -> Token
        ensures { result ≡ record default_parts { start = self.now.source.place } }
    {
        let mut token = Token::default();
        token.set_start(self.source.offset());
        token
    }

    /// What was read, with the flags that the reading has set in the token.
    #[inline(always)]
    fn lexeme_of(&self, kind: Kind, token: &Token) -> Lexeme
        ensures { result ≡ record {
          kind = kind;
          is_on_new_line = self.now.line_has_ended;
          escaped = token.now.escaped;
          has_separator = token.now.has_separator;
        } }
    {
        Lexeme {
            kind,
            is_on_new_line: self.line_has_ended,
            escaped: token.escaped(),
            has_separator: token.has_separator(),
        }
    }

    /// Reads on where nothing is spelled, and reports it.
    #[inline(never)]
    fn recover(&mut self, errors: &mut DiagnosticList) -> Result<Lexeme, AllocError>
        requires gap { whole_gap_piece self.old.source_type self.old.line_has_ended (rest self.old.source) ≡ None }
        requires nothing { NothingHere self.old.source_type self.old.line_has_ended (rest self.old.source) }
        ensures ok { IfOk result (λ lexeme. ReadsLexeme self.old errors.old lexeme self.new errors.new) }
        ensures unescaped { IfOk result (λ lexeme. lexeme.escaped ≡ false) }
        ensures err { OnErr result (ReadsInPart self.old errors.old self.new errors.new) }
    {
        let recovered = recover(&mut self.source, self.line_has_ended);
        errors.push(recovered.diagnostic)?;
        Ok(Lexeme {
            kind: recovered.kind,
            is_on_new_line: recovered.is_on_new_line,
            escaped: false,
            has_separator: false,
        })
    }

    /// Whether a number begins here, where no punctuator does: a digit follows a `.` that is none.
    #[inline(always)]
    fn begins_number(&self) -> bool
        requires { NoPunctuator self.now.source_type self.now.line_has_ended (rest self.now.source) }
        ensures { result ≡ begins_number (rest self.now.source) }
    {
        match self.source.peek_byte() {
            Some(b) => b == b'.' || b.is_ascii_digit(),
            None => false,
        }
    }

    /// Reads the number that begins here, good or at fault.
    #[inline(always)]
    fn read_number(&mut self, errors: &mut DiagnosticList) -> Result<Lexeme, AllocError>
        requires { begins_number (rest self.old.source) ≡ true }
        ensures ok { IfOk result (λ lexeme. ReadsLexeme self.old errors.old lexeme self.new errors.new) }
        ensures unescaped { IfOk result (λ lexeme. lexeme.escaped ≡ false) }
        ensures err { OnErr result (ReadsInPart self.old errors.old self.new errors.new) }
    {
        let mut token = self.token_here();
        let spelt = read_number(self.alloc, &mut self.source, errors, &mut token)?;
        Ok(self.lexeme_of(spelt.kind, &token))
    }

    /// Whether a `#` is next.
    #[inline(always)]
    fn begins_private_name(&self) -> bool
        ensures { result ≡ begins (λ c. c == number_sign) (rest self.now.source) }
    {
        match self.source.peek_byte() {
            Some(b) => b == b'#',
            None => false,
        }
    }

    /// Whether a quote is next.
    #[inline(always)]
    fn begins_string(&self) -> bool
        ensures { result ≡ begins is_quote (rest self.now.source) }
    {
        match self.source.peek_byte() {
            Some(b) => b == b'"' || b == b'\'',
            None => false,
        }
    }

    /// Reads the string that begins here, good or at fault, and keeps its value where it has an escape.
    #[inline(always)]
    fn read_string(
        &mut self,
        errors: &mut DiagnosticList,
        decoded: &mut DecodedValues,
    ) -> Result<Lexeme, AllocError>
        requires { begins is_quote (rest self.old.source) ≡ true }
        ensures ok { IfOk result (λ lexeme. ReadsLexeme self.old errors.old lexeme self.new errors.new) }
        ensures value { IfOk result (λ lexeme. HasValueHere self.old.source decoded.new lexeme.kind lexeme.escaped) }
        ensures kept { KeepsValues self.old.source.text decoded.old decoded.new }
        ensures err { OnErr result (ReadsInPart self.old errors.old self.new errors.new) }
    {
        let mut token = self.token_here();
        let start = token.start();
        let Spelt { kind, value } = read_string(self.alloc, &mut self.source, errors, &mut token)?;
        keep_value(decoded, start, value)?;
        Ok(self.lexeme_of(kind, &token))
    }

    /// Whether a backquote is next.
    #[inline(always)]
    fn begins_template(&self) -> bool
        ensures { result ≡ begins (λ c. c == grave_accent) (rest self.now.source) }
    {
        match self.source.peek_byte() {
            Some(b) => b == b'`',
            None => false,
        }
    }

    /// Reads the template that begins here, or its first part, good or at fault, and keeps its value where something in
    /// it is escaped.
    #[inline(always)]
    fn read_template(
        &mut self,
        errors: &mut DiagnosticList,
        decoded: &mut DecodedValues,
    ) -> Result<Lexeme, AllocError>
        requires { begins (λ c. c == grave_accent) (rest self.old.source) ≡ true }
        ensures ok { IfOk result (λ lexeme. ReadsLexeme self.old errors.old lexeme self.new errors.new) }
        ensures value { IfOk result (λ lexeme. HasValueHere self.old.source decoded.new lexeme.kind lexeme.escaped) }
        ensures kept { KeepsValues self.old.source.text decoded.old decoded.new }
        ensures err { OnErr result (ReadsInPart self.old errors.old self.new errors.new) }
    {
        let mut token = self.token_here();
        let start = token.start();
        self.source.next_char();
        let Spelt { kind, value } = read_template_part(
            self.alloc,
            &mut self.source,
            errors,
            &mut token,
            Kind::TemplateHead,
            Kind::NoSubstitutionTemplate,
        )?;
        keep_part(decoded, start, value)?;
        Ok(self.lexeme_of(kind, &token))
    }

    /// Reads the number that begins here, or reads on where nothing is spelled.
    #[inline(always)]
    fn read_other(&mut self, errors: &mut DiagnosticList) -> Result<Lexeme, AllocError>
        requires gap { whole_gap_piece self.old.source_type self.old.line_has_ended (rest self.old.source) ≡ None }
        requires some { rest self.old.source ≢ [] }
        requires no_name { begins_name (rest self.old.source) ≡ false }
        requires no_private_name { begins (λ c. c == number_sign) (rest self.old.source) ≡ false }
        requires no_string { begins is_quote (rest self.old.source) ≡ false }
        requires no_template { begins (λ c. c == grave_accent) (rest self.old.source) ≡ false }
        requires no_punctuator { NoPunctuator self.old.source_type self.old.line_has_ended (rest self.old.source) }
        ensures ok { IfOk result (λ lexeme. ReadsLexeme self.old errors.old lexeme self.new errors.new) }
        ensures unescaped { IfOk result (λ lexeme. lexeme.escaped ≡ false) }
        ensures err { OnErr result (ReadsInPart self.old errors.old self.new errors.new) }
    {
        if self.begins_number() {
            return self.read_number(errors);
        }
        self.recover(errors)
    }

    /// Reads a punctuator or a number, or reads on where nothing is spelled.
    #[inline(always)]
    fn read_symbol(&mut self, errors: &mut DiagnosticList) -> Result<Lexeme, AllocError>
        requires gap { whole_gap_piece self.old.source_type self.old.line_has_ended (rest self.old.source) ≡ None }
        requires some { rest self.old.source ≢ [] }
        requires no_name { begins_name (rest self.old.source) ≡ false }
        requires no_private_name { begins (λ c. c == number_sign) (rest self.old.source) ≡ false }
        requires no_string { begins is_quote (rest self.old.source) ≡ false }
        requires no_template { begins (λ c. c == grave_accent) (rest self.old.source) ≡ false }
        ensures ok { IfOk result (λ lexeme. ReadsLexeme self.old errors.old lexeme self.new errors.new) }
        ensures unescaped { IfOk result (λ lexeme. lexeme.escaped ≡ false) }
        ensures err { OnErr result (ReadsInPart self.old errors.old self.new errors.new) }
    {
        match read_punctuator(&mut self.source) {
            Some(kind) => Ok(self.lexeme(kind)),
            None => self.read_other(errors),
        }
    }

    /// Reads what stands behind a gap, where no name begins.
    #[inline(always)]
    fn read_mark(
        &mut self,
        errors: &mut DiagnosticList,
        decoded: &mut DecodedValues,
    ) -> Result<Lexeme, AllocError>
        requires gap { whole_gap_piece self.old.source_type self.old.line_has_ended (rest self.old.source) ≡ None }
        requires some { rest self.old.source ≢ [] }
        requires no_name { begins_name (rest self.old.source) ≡ false }
        ensures ok { IfOk result (λ lexeme. ReadsLexeme self.old errors.old lexeme self.new errors.new) }
        ensures value { IfOk result (λ lexeme. HasValueHere self.old.source decoded.new lexeme.kind lexeme.escaped) }
        ensures kept { KeepsValues self.old.source.text decoded.old decoded.new }
        ensures err { OnErr result (ReadsInPart self.old errors.old self.new errors.new) }
    {
        if self.begins_string() {
            return self.read_string(errors, decoded);
        }
        if self.begins_template() {
            return self.read_template(errors, decoded);
        }
        if self.begins_private_name() {
            return self.read_private_name(errors, decoded);
        }
        self.read_symbol(errors)
    }

    /// Reads the name that begins here, good or at fault, and keeps its value where it has an escape.
    #[inline(always)]
    fn read_name(
        &mut self,
        errors: &mut DiagnosticList,
        decoded: &mut DecodedValues,
    ) -> Result<Lexeme, AllocError>
        requires { begins_name (rest self.old.source) ≡ true }
        ensures ok { IfOk result (λ lexeme. ReadsLexeme self.old errors.old lexeme self.new errors.new) }
        ensures value { IfOk result (λ lexeme. HasValueHere self.old.source decoded.new lexeme.kind lexeme.escaped) }
        ensures kept { KeepsValues self.old.source.text decoded.old decoded.new }
        ensures err { OnErr result (ReadsInPart self.old errors.old self.new errors.new) }
    {
        let mut token = self.token_here();
        let start = token.start();
        let Spelt { kind, value } = read_name(self.alloc, &mut self.source, errors, &mut token)?;
        keep_value(decoded, start, value)?;
        Ok(self.lexeme_of(kind, &token))
    }

    /// Reads the private name that begins here, good or at fault, and keeps its value where it has an escape.
    #[inline(never)]
    fn read_private_name(
        &mut self,
        errors: &mut DiagnosticList,
        decoded: &mut DecodedValues,
    ) -> Result<Lexeme, AllocError>
        requires { BeginsWith number_sign (rest self.old.source) }
        ensures ok { IfOk result (λ lexeme. ReadsLexeme self.old errors.old lexeme self.new errors.new) }
        ensures value { IfOk result (λ lexeme. HasValueHere self.old.source decoded.new lexeme.kind lexeme.escaped) }
        ensures kept { KeepsValues self.old.source.text decoded.old decoded.new }
        ensures err { OnErr result (ReadsInPart self.old errors.old self.new errors.new) }
    {
        let mut token = self.token_here();
        let start = token.start();
        self.source.next_char();
        let Spelt { kind, value } = read_private_name(
            self.alloc,
            &mut self.source,
            errors,
            &mut token,
        )?;
        keep_value(decoded, start, value)?;
        Ok(self.lexeme_of(kind, &token))
    }

    /// Reads what stands behind a gap, whatever it begins with.
    #[inline(never)]
    fn read_any(
        &mut self,
        errors: &mut DiagnosticList,
        decoded: &mut DecodedValues,
    ) -> Result<Lexeme, AllocError>
        requires { whole_gap_piece self.old.source_type self.old.line_has_ended (rest self.old.source) ≡ None }
        ensures ok { IfOk result (λ lexeme. ReadsLexeme self.old errors.old lexeme self.new errors.new) }
        ensures value { IfOk result (λ lexeme. HasValueHere self.old.source decoded.new lexeme.kind lexeme.escaped) }
        ensures kept { KeepsValues self.old.source.text decoded.old decoded.new }
        ensures err { OnErr result (ReadsInPart self.old errors.old self.new errors.new) }
    {
        match self.source.peek_char() {
            None => Ok(self.lexeme(Kind::Eof)),
            Some(c) if begins_name(c) => self.read_name(errors, decoded),
            Some(_) => self.read_mark(errors, decoded),
        }
    }

    /// Reads what stands behind a gap: the longest spelling, or what is read to recover.
    #[inline(always)]
    fn read_lexeme(
        &mut self,
        errors: &mut DiagnosticList,
        decoded: &mut DecodedValues,
    ) -> Result<Lexeme, AllocError>
        requires { whole_gap_piece self.old.source_type self.old.line_has_ended (rest self.old.source) ≡ None }
        ensures ok { IfOk result (λ lexeme. ReadsLexeme self.old errors.old lexeme self.new errors.new) }
        ensures value { IfOk result (λ lexeme. HasValueHere self.old.source decoded.new lexeme.kind lexeme.escaped) }
        ensures kept { KeepsValues self.old.source.text decoded.old decoded.new }
        ensures err { OnErr result (ReadsInPart self.old errors.old self.new errors.new) }
    {
        let b = match self.source.peek_byte() {
            Some(b) => b,
            None => return Ok(self.lexeme(Kind::Eof)),
        };
        if b >= 128 || b == b'\\' {
            return self.read_any(errors, decoded);
        }
        if begins_ascii_name(&self.tables.starts, b) {
            return self.read_name(errors, decoded);
        }
        self.read_mark(errors, decoded)
    }

    /// Reads the token that stands here, where no gap does.
    #[inline(always)]
    pub fn read_here(
        &mut self,
        errors: &mut DiagnosticList,
        decoded: &mut DecodedValues,
    ) -> Result<Token, AllocError>
        requires { whole_gap_piece self.old.source_type self.old.line_has_ended (rest self.old.source) ≡ None }
        ensures ok { IfOk result (λ token. ReadsTokenHere self.old errors.old token self.new errors.new) }
        ensures value { IfOk result (λ token. HasValue self.old.source.text decoded.new token) }
        ensures kept { KeepsValues self.old.source.text decoded.old decoded.new }
        ensures err { OnErr result (ReadsInPart self.old errors.old self.new errors.new) }
    {
        let start = self.source.offset();
        let lexeme = self.read_lexeme(errors, decoded)?;
        let span = Span::new(start, self.source.offset());
        Ok(lexeme.token(span))
    }

    /// Reads the token that stands here, where no gap does, if it is one that needs the source alone, and that was not
    /// tried before.
    #[inline(always)]
    fn read_simple(&mut self, was_tried: bool) -> Option<Token>
        requires { whole_gap_piece self.old.source_type self.old.line_has_ended (rest self.old.source) ≡ None }
        ensures some { (errors : List Diagnostic)
            → IfSome result (λ token. ReadsTokenHere self.old errors token self.new errors) }
        ensures escaped { IfSome result (λ token. token.escaped ≡ false) }
        ensures none { IfNone result (self.new ≡ self.old) }
    {
        if was_tried {
            return None;
        }
        let start = self.source.offset();
        let b = self.source.peek_byte()?;
        if b >= 128 {
            return None;
        }
        let mut source = self.source.here();
        let kind = read_simple_spelling(&mut source, &self.tables, b)?;
        let span = Span::new(start, source.offset());
        self.source = source;
        Some(Token::new(kind, span, self.line_has_ended))
    }

    /// Reads a token behind a whole gap.
    #[inline(always)]
    fn read_behind_gap(
        &mut self,
        found: &mut FindingsBuilder,
        decoded: &mut DecodedValues,
    ) -> Result<Token, AllocError>
        ensures ok { IfOk result (λ token. (previous : Option TokenParts)
            → line_has_ended_behind previous ≡ self.old.line_has_ended
            → ReadsBehind previous self.old found.old token self.new found.new) }
        ensures grown { Grows found.old found.new }
        ensures value { IfOk result (λ token. HasValue self.old.source.text decoded.new token) }
        ensures kept { KeepsValues self.old.source.text decoded.old decoded.new }
        ensures err { OnErr result (MovesOn self.old self.new) }
    {
        self.skip_whole_gap(found)?;
        // Behind a gap with nothing to tell of, `next_token` of a lexer has tried that.
        match self.read_simple(found.trivia.is_settled()) {
            Some(token) => Ok(token),
            None => self.read_here(&mut found.errors, decoded),
        }
    }

    /// Reads a hashbang comment, where one stands at the start of the text (ECMA-262 12.5).
    fn read_hashbang(&mut self) -> Option<Token>
        ensures { ReadsHashbang self.old result self.new }
    {
        if self.source.offset() != 0 {
            return None;
        }
        if !advance_if_sequence(&mut self.source, b"#!") {
            return None;
        }
        skip_line(&mut self.source);
        let span = Span::new(0, self.source.offset());
        Some(Token::new(Kind::HashbangComment, span, self.line_has_ended))
    }

    /// Reads a token of a goal that goes on from here, and keeps its value where it has an escape.
    #[inline(always)]
    pub fn read_goal(
        &mut self,
        goal: Goal,
        found: &mut FindingsBuilder,
        decoded: &mut DecodedValues,
    ) -> Result<Token, AllocError>
        requires { is_onward goal ≡ true }
        ensures ok { IfOk result (λ token. (previous : Option TokenParts)
            → line_has_ended_behind previous ≡ self.old.line_has_ended
            → ReadsWithGap goal previous self.old found.old token self.new found.new) }
        ensures grown { Grows found.old found.new }
        ensures value { IfOk result (λ token. HasValue self.old.source.text decoded.new token) }
        ensures kept { KeepsValues self.old.source.text decoded.old decoded.new }
        ensures err { OnErr result (MovesOn self.old self.new) }
    {
        match goal {
            Goal::First => match self.read_hashbang() {
                Some(token) => Ok(token),
                None => self.read_behind_gap(found, decoded),
            },
            Goal::Next => self.read_behind_gap(found, decoded),
            Goal::JsxChild => self.read_child(found),
            Goal::JsxAttributeValue => self.read_attribute_value(found, decoded),
            _ => unreachable!(),
        }
    }
}
