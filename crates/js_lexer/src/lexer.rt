//! The lexer: a source, the last token, and the lists that its readings fill.

ghost use Rattle.std.specs.Prelude.{◌≡◌, ◌≤◌, ◌^◌, ◌↔◌, true, false, List, [], length, drop, Option, None, IsTrue, IfOk};
ghost use Rattle.std.specs.Prelude.{OnOk, OnErr, if◌then◌else◌, ◌<◌};
ghost use Rattle.std.specs.List.{last_or};
ghost use Rattle.std.specs.Str.{IsCharBoundary, IsUtf8};
ghost use Rattle.js_text.specs.declared.comment.Comment.{Comment};
ghost use Rattle.js_text.specs.declared.diagnostic.Diagnostic.{Diagnostic};
ghost use Rattle.js_grammar.specs.Goals.{line_has_ended_behind};
ghost use Rattle.js_grammar.specs.Outcome.{AreWithin, found_since, lengths_of};
ghost use Rattle.js_grammar.specs.TokenText.{text_start, text_end};
ghost use Rattle.js_grammar.specs.Reads.{is_onward};
ghost use Rattle.js_kind.specs.TokenParts.{TokenParts};
ghost use Rattle.js_trivia.specs.Trivia.{handle_token, AreRangesUpTo};
ghost use Rattle.js_reader.specs.Decoded.{Keeps, KeepsValues, HasValue, value_of, GivesDecoded, GivesPart, GivesText};
ghost use Rattle.js_reader.specs.Decoded.{GivesTemplate, GivesStretch};
ghost use Rattle.js_reader.specs.Found.{Grows, found_lengths};
ghost use Rattle.js_lexer.specs.Lexer.{LexerState, fresh, token_or_default, ReadsToken, IsRestored, IsOnPlaces, Peeks};
ghost use Rattle.js_lexer.specs.Lexer.{checkpoint_of, CanRewind, rewound, GoesOnFrom, is_hashbang, with_token};
ghost use Rattle.js_lexer.specs.Lexer.{with_token_again};
ghost use Rattle.js_lexer.specs.Lexer.{IsBehindFor, LexesAgain, checkpoint_with_errors_of, trivia_before};
ghost use Rattle.js_lexer.specs.Places.{IsSparse, IsSparseCheckpoint, ReadsInPlaces, StaysInPlaces};
ghost use Rattle.js_grammar.specs.ReLexed.{HasSpelling};
ghost use Rattle.js_lexer.specs.Lexer.{reserved_places, resumed, with_comments, with_diagnostics};
ghost use Rattle.js_reader.specs.Reader.{ReadsWithGap, MovesOn};

mod annotations;
mod goals;
mod lists;
mod next;

use crate::checkpoint::{
    LexerCheckpoint, has_spelling_if_some, is_on_places_if_some, is_place, put_back,
    put_errors_back,
};
use crate::token_text::{is_template, text_span};
use js_grammar::Goal;
use js_kind::{Kind, LexerConfig, Token, TokenList};
use js_places::ReservedList;
use js_reader::{ByteTables, DecodedValues, Findings, FindingsBuilder, Reader, ReadingStart};
use js_source::{Source, SourcePosition};
use js_text::{
    Comment, Diagnostic, DiagnosticList, JsText, SourceType, Span, SpanList, TemplateValue,
};
use js_trivia::TriviaBuilder;
use std::alloc::{AllocError, Global};
use std::marker::Model;

/// Whether the kind is that of hashbang comments.
fn is_hashbang(kind: Kind) -> bool
    ensures { result ≡ is_hashbang kind }
{
    kind.number() == Kind::HashbangComment.number()
}

/// A list for the tokens of a text of so many bytes, with a place for each of them where tokens are collected: each but
/// the one at the end has a byte.
fn places_for_tokens(
    alloc: Global,
    collects: bool,
    bytes: usize,
) -> Result<ReservedList<Token>, AllocError>
    requires { bytes < 2 ^ 32 }
    ensures items { IfOk result (λ tokens. tokens.items ≡ []) }
    ensures free { IfOk result (λ tokens. tokens.free ≡ reserved_places collects bytes) }
{
    if !collects {
        return Ok(ReservedList::new_in(alloc));
    }
    ReservedList::with_free(alloc, bytes + 1)
}

/// Collects the token, which is no hashbang comment, where tokens are collected. While a place is free it takes no
/// memory.
#[inline(always)]
fn collect_other(
    tokens: &mut ReservedList<Token>,
    collects: bool,
    token: Token,
) -> Result<(), AllocError>
    requires { is_hashbang token.kind ≡ false }
    ensures ok { OnOk result (tokens.new ≡ with_token collects token tokens.old) }
    ensures err { OnErr result (tokens.new ≡ tokens.old) }
    ensures full { OnErr result (tokens.old.free ≡ 0) }
{
    if collects { tokens.push(token) } else { Ok(()) }
}

/// Collects the token, where tokens are collected and it is no hashbang comment.
fn collect(
    tokens: &mut ReservedList<Token>,
    collects: bool,
    token: &Token,
) -> Result<(), AllocError>
    ensures ok { OnOk result (tokens.new ≡ with_token collects token.now tokens.old) }
    ensures err { OnErr result (tokens.new ≡ tokens.old) }
    ensures full { OnErr result (tokens.old.free ≡ 0) }
{
    if is_hashbang(token.kind()) {
        return Ok(());
    }
    collect_other(tokens, collects, *token)
}

/// Takes the token that was read as the last one.
#[inline(always)]
fn take_token(trivia: &mut TriviaBuilder, has_read: &mut bool, token: Token)
    ensures last { trivia.new ≡ handle_token token trivia.old }
    ensures read { has_read.new ≡ true }
{
    trivia.handle_token(token);
    *has_read = true;
}

/// Takes a token in the place of the last one, and of the last collected one, where tokens are collected.
#[inline(always)]
fn take_again(
    trivia: &mut TriviaBuilder,
    tokens: &mut ReservedList<Token>,
    collects: bool,
    token: Token,
)
    ensures last { trivia.new ≡ handle_token token trivia.old }
    ensures collected { tokens.new ≡ with_token_again collects token tokens.old }
{
    if collects {
        tokens.replace_last(token);
    }
    trivia.handle_token(token);
}

/// Where a reading began that has reported, and found nothing else: from its place, and how much was reported before.
/// Such a reading keeps these two alone.
fn start_behind_reports(
    position: SourcePosition,
    reported: usize,
    found: &FindingsBuilder,
) -> ReadingStart
    requires { found.now.trivia.attachment.pending ≡ [] }
    ensures start { result ≡ record {
      position = position;
      found = record (found_lengths found.now) { errors = reported };
    } }
    ensures ranges { AreRangesUpTo result.found.trivia.comments result.found.trivia.pure_range
        result.found.trivia.no_side_effects }
{
    let mut lengths = found.lengths();
    lengths.errors = reported;
    ReadingStart {
        position,
        found: lengths,
    }
}

/// Forgets the annotations of the gap before, as a reading begins that has a gap of its own: all but that of a child of
/// JSX.
#[inline(always)]
fn begin_reading(trivia: &mut TriviaBuilder, goal: Goal)
    ensures { trivia.new ≡ trivia_before goal trivia.old }
{
    match goal {
        Goal::JsxChild => {}
        _ => {
            trivia.clear_pure_comments();
            trivia.clear_no_side_effects_comments();
        }
    }
}

/// Reads a token of a goal that goes on, and collects it. Where it cannot allocate, the reader may have moved
/// on and reported, and more may have been found.
#[inline(always)]
fn read_and_collect(
    reader: &mut Reader<'_>,
    goal: Goal,
    found: &mut FindingsBuilder,
    decoded: &mut DecodedValues,
    tokens: &mut ReservedList<Token>,
    collects: bool,
) -> Result<Token, AllocError>
    requires onward { is_onward goal ≡ true }
    ensures ok { IfOk result (λ token. (previous : Option TokenParts)
        → line_has_ended_behind previous ≡ reader.old.line_has_ended
        → ReadsWithGap goal previous reader.old found.old token reader.new found.new) }
    ensures tokens { IfOk result (λ token. tokens.new ≡ with_token collects token tokens.old) }
    ensures value { IfOk result (λ token. HasValue reader.old.source.text decoded.new token) }
    ensures kept { KeepsValues reader.old.source.text decoded.old decoded.new }
    ensures grown { Grows found.old found.new }
    ensures err { OnErr result (MovesOn reader.old reader.new) }
    ensures same { OnErr result (tokens.new ≡ tokens.old) }
{
    let token = reader.read_goal(goal, found, decoded)?;
    collect(tokens, collects, &token)?;
    Ok(token)
}

/// The last token of a list.
fn last_of(tokens: &[Token]) -> Option<Token>
    ensures { result ≡ last_or None tokens.now }
{
    tokens.last().copied()
}

/// Why there is no lexer for a text.
#[derive(Clone, Copy, PartialEq, Eq, Debug)]
pub enum NewFault {
    /// The text has more than `u32::MAX` bytes.
    Overlong,
    Memory,
}

/// A lexer over a source text, with the last token that it gave, the tokens that it collected where its configuration
/// says so, what its readings reported, and the values of tokens that have escapes.
#[derive(Drop)]
pub struct Lexer<'a, C: LexerConfig + Drop> {
    reader: Reader<'a>,
    found: FindingsBuilder,
    config: C,
    /// Whether a token was read. The builder of trivia has the last one.
    has_read: bool,
    tokens: ReservedList<Token>,
    decoded: DecodedValues,
}

impl<'a, C: LexerConfig + Drop> Model for Lexer<'a, C> {
    ghost use Rattle.js_lexer.specs.Lexer.{LexerState, IsSound, last_read, lexer_of};

    ghost Value = { LexerState };

    ghost view = { λ l. lexer_of (C.collects l.config) l.reader l.found l.has_read l.tokens l.decoded };

    ghost invariant = { λ l. IsSound l.reader.source (last_read l.has_read l.found.trivia.attachment.previous)
        l.found.trivia l.decoded };
}

impl<'a, C: LexerConfig + Drop> Lexer<'a, C> {
    /// A lexer at the start of the text. Its first reading counts as standing on a new line. Where tokens are
    /// collected, it takes places for all that there may be: one more than the text has bytes.
    pub fn new(
        alloc: Global,
        source_text: &'a str,
        source_type: SourceType,
        config: C,
    ) -> Result<Lexer<'a, C>, NewFault>
        ensures ok { IfOk result (λ l. l ≡ fresh source_text.now source_type (C.collects config)) }
        ensures sparse { IfOk result IsSparse }
        ensures overlong { (result ≡ Err NewFault.Overlong) ↔ (2 ^ 32 ≤ length source_text.now) }
    {
        if source_text.len() > u32::MAX as usize {
            return Err(NewFault::Overlong);
        }
        let tokens = match places_for_tokens(alloc, config.tokens(), source_text.len()) {
            Ok(tokens) => tokens,
            Err(_) => return Err(NewFault::Memory),
        };
        Ok(Lexer {
            reader: Reader {
                source: Source::new(source_text),
                source_type,
                tables: ByteTables::new(),
                line_has_ended: true,
                alloc,
            },
            found: FindingsBuilder::new_in(alloc),
            config,
            has_read: false,
            tokens,
            decoded: DecodedValues::new_in(alloc),
        })
    }

    /// A lexer behind a token of the text, which it has read last: its place is the token's end, the token is collected
    /// where tokens are and it is no hashbang comment, and nothing was found. As many places are reserved as for a
    /// lexer at the start.
    pub fn resume(
        alloc: Global,
        source_text: &'a str,
        source_type: SourceType,
        config: C,
        token: Token,
    ) -> Result<Lexer<'a, C>, NewFault>
        requires places { IsOnPlaces source_text.now token }
        requires spelling { HasSpelling source_text.now token }
        ensures ok { IfOk result (λ l. l ≡ resumed source_text.now source_type (C.collects config) token) }
        ensures overlong { (result ≡ Err NewFault.Overlong) ↔ (2 ^ 32 ≤ length source_text.now) }
    {
        let mut lexer = match Lexer::new(alloc, source_text, source_type, config) {
            Ok(lexer) => lexer,
            Err(fault) => return Err(fault),
        };
        match lexer.take_behind(token) {
            Ok(()) => Ok(lexer),
            Err(_) => Err(NewFault::Memory),
        }
    }

    /// Goes behind a token of the text, as the last one, where nothing was read yet.
    fn take_behind(&mut self, token: Token) -> Result<(), AllocError>
        requires fresh { self.old ≡ fresh self.old.text self.old.source_type self.old.collects }
        requires places { IsOnPlaces self.old.text token }
        requires spelling { HasSpelling self.old.text token }
        ensures { OnOk result (self.new ≡ resumed self.old.text self.old.source_type self.old.collects token) }
    {
        collect(&mut self.tokens, self.config.tokens(), &token)?;
        if let Some(end) = self.reader.source.position_at(token.end()) {
            self.reader.source.set_position(end);
        }
        self.found.trivia.handle_token(token);
        self.has_read = true;
        Ok(())
    }

    /// Reads the first token, a hashbang comment among them (ECMA-262 12.5), which is not collected.
    pub fn first_token(&mut self) -> Result<Token, AllocError>
        requires { self.old.last ≡ None }
        ensures ok { IfOk result (λ token. ReadsToken Goal.First self.old token self.new) }
        ensures err { OnErr result (IsRestored self.old self.new) }
        ensures kept { Keeps self.old.decoded self.new.decoded }
        ensures places { ReadsInPlaces self.old self.new }
    {
        self.read(Goal::First)
    }

    /// Reads a token of a goal that goes on, or leaves the lexer as it was.
    #[inline(always)]
    fn read(&mut self, goal: Goal) -> Result<Token, AllocError>
        requires { is_onward goal ≡ true }
        ensures ok { IfOk result (λ token. ReadsToken goal self.old token self.new) }
        ensures err { OnErr result (IsRestored self.old self.new) }
        ensures kept { Keeps self.old.decoded self.new.decoded }
        ensures places { ReadsInPlaces self.old self.new }
    {
        let start = ReadingStart::of(&self.reader.source, &self.found);
        begin_reading(&mut self.found.trivia, goal);
        self.reader.line_has_ended = !self.has_read;
        let read = read_and_collect(
            &mut self.reader,
            goal,
            &mut self.found,
            &mut self.decoded,
            &mut self.tokens,
            self.config.tokens(),
        );
        match read {
            Ok(token) => {
                take_token(&mut self.found.trivia, &mut self.has_read, token);
                Ok(token)
            }
            Err(error) => {
                start.go_back(&mut self.reader.source, &mut self.found);
                Err(error)
            }
        }
    }

    /// Reads on a template behind the `}` that was the last token and that ends a substitution (ECMA-262 12.9.6). The
    /// token that is read begins with this `}`, and stands in its place.
    pub fn next_template_substitution_tail(&mut self) -> Result<Token, AllocError>
        requires { IsBehindFor Goal.TemplateTail self.old }
        ensures ok { IfOk result (λ token. LexesAgain Goal.TemplateTail self.old token self.new) }
        ensures err { OnErr result (IsRestored self.old self.new) }
        ensures kept { Keeps self.old.decoded self.new.decoded }
        ensures places { StaysInPlaces self.old self.new }
    {
        let offset = self.last_token().start();
        let position = self.reader.source.position();
        let reported = self.found.errors.len();
        let read = self
            .reader
            .read_next_part(offset, &mut self.found.errors, &mut self.decoded);
        match read {
            Ok(token) => {
                let collects = self.config.tokens();
                take_again(&mut self.found.trivia, &mut self.tokens, collects, token);
                Ok(token)
            }
            Err(error) => {
                let start = start_behind_reports(position, reported, &self.found);
                start.go_back(&mut self.reader.source, &mut self.found);
                Err(error)
            }
        }
    }

    /// Tells what `next_token` gives next, and leaves the lexer as it was.
    pub fn peek_token(&mut self) -> Result<Token, AllocError>
        ensures ok { IfOk result (λ token. Peeks self.old token self.new) }
        ensures err { OnErr result (IsRestored self.old self.new) }
        ensures kept { Keeps self.old.decoded self.new.decoded }
        ensures places { StaysInPlaces self.old self.new }
    {
        let checkpoint = self.checkpoint();
        let token = self.next_token()?;
        self.rewind(checkpoint);
        Ok(token)
    }

    /// The last token, if one was read.
    fn last(&self) -> Option<Token>
        ensures { result ≡ self.now.last }
    {
        if self.has_read {
            Some(self.found.trivia.previous_token())
        } else {
            None
        }
    }

    /// The last token that was read; a default token before the first.
    pub fn last_token(&self) -> Token
        ensures token { result ≡ token_or_default self.now.last }
        ensures places { IsOnPlaces self.now.text result }
    {
        // The text is UTF-8, so the default token lies on it too.
        let _place = self.reader.source.position();
        self.last().unwrap_or(Token::default())
    }

    /// The text of a token of this source. Of one with an escape it is the value of the name or the string that was
    /// decoded where it was read, and none where no such token was read; of any other its stretch of the source, and
    /// none where there is no such stretch. A private name's `#` is left out, and so are the quotes of a string. A part
    /// of a template has its marks: what is between them is told by `get_template_string`.
    pub fn get_string(&self, token: Token) -> Option<JsText<'_>>
        ensures { GivesText self.now.text self.now.decoded token result }
    {
        if token.escaped() {
            return self.decoded_text(token.start());
        }
        if is_template(token.kind()) {
            return self.stretch(token.start(), token.end());
        }
        self.source_text(&token)
    }

    /// The value of a part of a template of this source; none for a token of another kind. Of one in which something is
    /// escaped it is the value that was decoded where it was read, and none where no such part was read; of any other
    /// its stretch of the source without its marks, and none where there is no such stretch.
    pub fn get_template_string(&self, token: Token) -> Option<TemplateValue<'_>>
        ensures { GivesTemplate self.now.text self.now.decoded token result }
    {
        if !is_template(token.kind()) {
            return None;
        }
        if token.escaped() {
            return self.decoded_part(token.start());
        }
        let text = self.source_text(&token)?;
        Some(TemplateValue::Text(text))
    }

    /// The text of a token, as `get_string` gives it.
    pub fn get_js_string(&self, token: Token) -> Option<JsText<'_>>
        ensures { GivesText self.now.text self.now.decoded token result }
    {
        self.get_string(token)
    }

    /// The decoded value of the part of a template that starts at the offset.
    fn decoded_part(&self, start: u32) -> Option<TemplateValue<'_>>
        ensures { GivesPart (value_of self.now.decoded.templates start) result }
    {
        match self.decoded.get_template(start) {
            Some(Some(text)) => Some(TemplateValue::Text(JsText::Decoded(text))),
            Some(None) => Some(TemplateValue::Bad),
            None => None,
        }
    }

    /// The decoded value of the name or the string that starts at the offset.
    fn decoded_text(&self, start: u32) -> Option<JsText<'_>>
        ensures { GivesDecoded (value_of self.now.decoded.strings start) result }
    {
        match self.decoded.get(start) {
            Some(text) => Some(JsText::Decoded(text)),
            None => None,
        }
    }

    /// The stretch of the source that a token's text is.
    fn source_text(&self, token: &Token) -> Option<JsText<'_>>
        ensures { GivesStretch self.now.text (text_start token.now.kind token.now.start)
            (text_end token.now.kind token.now.end) result }
    {
        let span = text_span(token)?;
        self.stretch(span.start, span.end)
    }

    /// The stretch of the source from an offset to another.
    fn stretch(&self, start: u32, end: u32) -> Option<JsText<'_>>
        ensures { GivesStretch self.now.text start end result }
    {
        if start > end {
            return None;
        }
        let source = &self.reader.source;
        let from = source.position_at(start)?;
        let to = source.position_at(end)?;
        Some(JsText::Source(source.str_between(from, to)))
    }

    /// The place of the lexer, as an offset in bytes.
    pub fn offset(&self) -> u32
        ensures place { result ≡ self.now.place }
        ensures boundary { IsCharBoundary self.now.text result }
        ensures utf8 { IsUtf8 self.now.text }
    {
        self.reader.source.offset()
    }

    /// The text from the lexer's place on.
    pub fn remaining(&self) -> &'a str
        ensures { result.now ≡ drop self.now.place self.now.text }
    {
        self.reader.source.remaining()
    }

    /// Goes to the end of the text.
    pub fn advance_to_end(&mut self)
        ensures { self.new ≡ record self.old { place = length self.old.text } }
    {
        self.reader.source.advance_to_end();
    }

    /// What was reported, in the order in which it was met.
    pub fn errors(&self) -> &[Diagnostic]
        ensures { result.now ≡ self.now.findings.diagnostics }
    {
        self.found.errors.as_slice()
    }

    /// What was reported for the case that the source is a module, where this is not settled: HTML-like comments
    /// (ECMA-262 B.1.1).
    pub fn deferred_module_errors(&self) -> &[Diagnostic]
        ensures { result.now ≡ self.now.findings.deferred }
    {
        self.found.deferred.as_slice()
    }

    /// The comments that were read, in the order of the text, each with the token that it belongs to.
    pub fn comments(&self) -> &[Comment]
        ensures { result.now ≡ self.now.findings.comments }
    {
        self.found.trivia.comments()
    }

    /// The irregular white space that was read, in the order of the text. U+2028 and U+2029 count as such, but not
    /// where they end a line comment.
    pub fn irregular_whitespaces(&self) -> &[Span]
        ensures { result.now ≡ self.now.findings.irregular }
    {
        self.found.trivia.irregular_whitespaces()
    }

    /// What was warned of, in the order in which it was met: each `>` in the text of a child of JSX, over its byte.
    pub fn warnings(&self) -> &[Span]
        ensures { result.now ≡ self.now.findings.warnings }
    {
        self.found.warnings.as_slice()
    }

    /// Hands out what was reported, and leaves nothing.
    pub fn take_errors(&mut self) -> DiagnosticList
        ensures errors { result ≡ self.old.findings.diagnostics }
        ensures after { self.new ≡ record self.old { findings = record self.old.findings { diagnostics = [] } } }
    {
        let alloc = self.reader.alloc;
        std::mem::replace(&mut self.found.errors, DiagnosticList::new_in(alloc))
    }

    /// Hands out what was reported for the case that the source is a module, and leaves nothing.
    pub fn take_deferred_module_errors(&mut self) -> DiagnosticList
        ensures errors { result ≡ self.old.findings.deferred }
        ensures after { self.new ≡ record self.old { findings = record self.old.findings { deferred = [] } } }
    {
        let alloc = self.reader.alloc;
        std::mem::replace(&mut self.found.deferred, DiagnosticList::new_in(alloc))
    }

    /// Hands out the comments that were read, and leaves none, and no range of them.
    pub fn take_comments(&mut self) -> Vec<Comment>
        ensures comments { result.items ≡ self.old.findings.comments }
        ensures after { self.new ≡ record self.old {
          findings = record self.old.findings { comments = [] };
          pure_comments = None;
          no_side_effects_comments = None;
        } }
    {
        self.found.trivia.take_comments()
    }

    /// Hands out the irregular white space that was read, and leaves none.
    pub fn take_irregular_whitespaces(&mut self) -> Vec<Span>
        ensures spans { result.items ≡ self.old.findings.irregular }
        ensures after { self.new ≡ record self.old { findings = record self.old.findings { irregular = [] } } }
    {
        self.found.trivia.take_irregular_whitespaces()
    }

    /// Hands out what was warned of, and leaves nothing.
    pub fn take_warnings(&mut self) -> SpanList
        ensures spans { result ≡ self.old.findings.warnings }
        ensures after { self.new ≡ record self.old { findings = record self.old.findings { warnings = [] } } }
    {
        let alloc = self.reader.alloc;
        std::mem::replace(&mut self.found.warnings, SpanList::new_in(alloc))
    }

    /// The tokens that were collected.
    pub fn tokens(&self) -> &[Token]
        ensures { result.now ≡ self.now.tokens }
    {
        self.tokens.as_slice()
    }

    /// Hands out the collected tokens, and leaves none, and no place for more.
    pub fn take_tokens(&mut self) -> TokenList
        ensures tokens { result ≡ self.old.tokens }
        ensures after { self.new ≡ record self.old { tokens = []; free = 0 } }
    {
        let alloc = self.reader.alloc;
        TokenList::from_places(std::mem::replace(&mut self.tokens, ReservedList::new_in(alloc)))
    }

    /// What `rewind` goes back to: places and lengths alone, so it succeeds without memory.
    pub fn checkpoint(&self) -> LexerCheckpoint
        ensures state { result ≡ checkpoint_of self.now }
        ensures open { CanRewind self.now result }
        ensures sparse { IsSparse self.now → IsSparseCheckpoint self.now.collects result }
    {
        LexerCheckpoint {
            start: ReadingStart::of(&self.reader.source, &self.found),
            last: self.last(),
            last_collected: last_of(self.tokens.as_slice()),
            tokens: self.tokens.len(),
            errors_copy: None,
        }
    }

    /// What `rewind` goes back to, with a copy of what was reported: diagnostics that a parser takes back after this
    /// come back with a rewind.
    pub fn checkpoint_with_error_recovery(&self) -> Result<LexerCheckpoint, AllocError>
        ensures state { IfOk result (λ c. c ≡ checkpoint_with_errors_of self.now) }
        ensures open { IfOk result (CanRewind self.now) }
        ensures sparse { IfOk result (λ c. IsSparse self.now → IsSparseCheckpoint self.now.collects c) }
    {
        let errors = self.found.errors.copy(self.reader.alloc)?;
        let mut checkpoint = self.checkpoint();
        checkpoint.errors_copy = Some(errors);
        Ok(checkpoint)
    }

    /// Whether nothing was found since the checkpoint.
    #[inline(always)]
    pub fn has_found_nothing_since(&self, checkpoint: &LexerCheckpoint) -> bool
        ensures { IsTrue result ↔ (checkpoint.now.lengths ≡ lengths_of self.now.findings) }
    {
        self.found.has_found_nothing_since(&checkpoint.start.found)
    }

    /// Copies of what was found since the checkpoint.
    pub fn findings_since(&self, checkpoint: &LexerCheckpoint) -> Result<Findings, AllocError>
        requires { AreWithin checkpoint.now.lengths self.now.findings }
        ensures { IfOk result (λ found. found ≡ found_since checkpoint.now.lengths self.now.findings) }
    {
        self.found.since(self.reader.alloc, &checkpoint.start.found)
    }

    /// Whether the lexer may go back to the checkpoint: its places are places of this text, in order, its last token
    /// has the spelling of its kind if it may be read again, no list is shorter than it was, copied diagnostics left
    /// out, and the comments and the irregular white space that stay start before that token.
    pub fn can_rewind(&self, checkpoint: &LexerCheckpoint) -> bool
        ensures { IsTrue result ↔ CanRewind self.now checkpoint.now }
    {
        if checkpoint.tokens > self.tokens.len() {
            return false;
        }
        if checkpoint.asked_errors() > self.found.errors.len() {
            return false;
        }
        if !self.found.can_cut_back(&checkpoint.start.found) {
            return false;
        }
        let source = &self.reader.source;
        if !is_place(source, source.offset_of(checkpoint.start.position)) {
            return false;
        }
        if !is_on_places_if_some(source, &checkpoint.last) {
            return false;
        }
        has_spelling_if_some(source, &checkpoint.last)
    }

    /// Goes back to the checkpoint: the lists are cut back to the lengths that they had, the last collected token is
    /// put back, and so are diagnostics that were copied. Where the lists begin as they did at the checkpoint, the
    /// lexer is then as it was there; copied diagnostics may be others by now. Comments that were there stay marked.
    pub fn rewind(&mut self, checkpoint: LexerCheckpoint)
        requires { CanRewind self.old checkpoint }
        ensures state { self.new ≡ rewound self.old checkpoint }
        ensures sparse { IsSparseCheckpoint self.old.collects checkpoint → IsSparse self.new }
        ensures restores { (earlier : LexerState) → checkpoint ≡ checkpoint_of earlier → GoesOnFrom earlier self.old
            → IsRestored earlier self.new }
        ensures recovers { (earlier : LexerState) (left : List Diagnostic)
            → checkpoint ≡ checkpoint_with_errors_of earlier
            → GoesOnFrom (with_diagnostics left earlier) self.old → IsRestored earlier self.new }
        ensures keeps_marks { (earlier : LexerState) (marked : List Comment) → checkpoint ≡ checkpoint_of earlier
            → length marked ≡ length earlier.findings.comments → GoesOnFrom (with_comments marked earlier) self.old
            → IsRestored (with_comments marked earlier) self.new }
    {
        let LexerCheckpoint {
            start,
            last,
            last_collected,
            tokens,
            errors_copy,
        } = checkpoint;
        self.has_read = last.is_some();
        self.tokens.truncate(tokens);
        put_back(&mut self.tokens, last_collected);
        start.go_back(&mut self.reader.source, &mut self.found);
        put_errors_back(&mut self.found.errors, errors_copy);
    }
}
