//! The pieces of gaps, and what is told of each.

ghost use Rattle.std.specs.Prelude.{◌≡◌, ◌<◌, ◌++◌, true, false, Some, None, IfOk, OnOk, OnErr};
ghost use Rattle.std.specs.Prelude.{if◌then◌else◌};
ghost use Rattle.js_text.specs.Ascii.{slash, less_than_sign, hyphen_minus, line_feed};
ghost use Rattle.js_text.specs.Characters.{begins, is_white_space, is_line_terminator, is_irregular_whitespace};
ghost use Rattle.js_text.specs.Comment.{is_line_kind, opening_length};
ghost use Rattle.js_grammar.specs.Gap.{is_prefix};
ghost use Rattle.js_grammar.specs.Outcome.{html_deferred};
ghost use Rattle.js_grammar.specs.PieceItems.{is_separator, listed_if};
ghost use Rattle.js_source.specs.Source.{rest, BeginsWith, HasFirstByte};
ghost use Rattle.js_trivia.specs.Trivia.{calls};
ghost use Rattle.js_reader.specs.Found.{Grows};
ghost use Rattle.js_reader.specs.Gaps.{opening_sequence, is_html, IsAtLineEnd};
ghost use Rattle.js_reader.specs.Reader.{SkipsPiece, SkipsSome, SkipsOpenedLine, SkipsEndOfLine, MovesOn, IsOnlyPiece};

use crate::findings_builder::FindingsBuilder;
use crate::reader::Reader;
use js_spell::{advance_if_sequence, skip_block, skip_line};
use js_text::{
    CommentKind, Diagnostic, DiagnosticList, SourceType, Span, either, is_irregular_whitespace,
};
use js_trivia::TriviaBuilder;
use std::alloc::AllocError;

/// The mark that a line comment of the kind begins with.
#[inline(always)]
fn opening_sequence(kind: CommentKind) -> &'static [u8]
    ensures { result.now ≡ opening_sequence kind }
{
    match kind {
        CommentKind::Line => b"//",
        CommentKind::SingleLineBlock | CommentKind::MultiLineBlock => b"/*",
        CommentKind::HtmlOpen => b"<!--",
        CommentKind::HtmlClose => b"-->",
    }
}

/// The kind of a comment `/* .. */`, by whether a line end is inside.
fn block_kind(has_line_end: bool) -> CommentKind
    ensures { result ≡ (if has_line_end then CommentKind.MultiLineBlock else CommentKind.SingleLineBlock) }
{
    if has_line_end {
        CommentKind::MultiLineBlock
    } else {
        CommentKind::SingleLineBlock
    }
}

/// Whether the character is U+2028 or U+2029.
#[tactic(auto, unfolding(js_grammar::specs::PieceItems::is_separator))]
fn is_separator(c: char) -> bool
    ensures { result ≡ is_separator c }
{
    c == '\u{2028}' || c == '\u{2029}'
}

/// Lists irregular white space, where it is such.
fn list_if(trivia: &mut TriviaBuilder, is_listed: bool, span: Span) -> Result<(), AllocError>
    requires { span.start < span.end }
    ensures ok { OnOk result (trivia.new ≡ calls (listed_if is_listed span) trivia.old) }
    ensures err { OnErr result (trivia.new ≡ trivia.old) }
{
    if is_listed {
        trivia.add_irregular_whitespace(span.start, span.end)
    } else {
        Ok(())
    }
}

/// Reports an HTML-like comment with its mark over the span, for the case that the source is a module.
fn defer_html(
    deferred: &mut DiagnosticList,
    source_type: SourceType,
    span: Span,
) -> Result<(), AllocError>
    ensures ok { OnOk result (deferred.new ≡ deferred.old ++ html_deferred source_type span) }
    ensures err { OnErr result (deferred.new ≡ deferred.old) }
{
    if source_type.is_unambiguous() {
        deferred.push(Diagnostic::HtmlCommentInModule { span })
    } else {
        Ok(())
    }
}

impl Reader<'_> {
    /// Reads a comment that begins with the mark of its kind, up to the end of its line, and tells whether one stands
    /// here.
    #[inline(always)]
    pub fn skip_opened_line(
        &mut self,
        found: &mut FindingsBuilder,
        kind: CommentKind,
    ) -> Result<bool, AllocError>
        requires { is_line_kind kind ≡ true }
        ensures ok { IfOk result (λ skipped. SkipsOpenedLine kind self.old found.old skipped self.new found.new) }
        ensures grown { Grows found.old found.new }
        ensures err { OnErr result (MovesOn self.old self.new) }
    {
        let start = self.source.offset();
        if !advance_if_sequence(&mut self.source, opening_sequence(kind)) {
            return Ok(false);
        }
        let is_plain = skip_line(&mut self.source);
        let end = self.source.offset();
        let text = self.source.whole();
        found
            .trivia
            .add_searched_comment(start, end, kind, text, !is_plain)?;
        Ok(true)
    }

    /// Goes past the line end behind a line comment, which is not listed.
    #[inline(always)]
    pub fn skip_end_of_line(&mut self, found: &mut FindingsBuilder)
        requires { IsAtLineEnd (rest self.old.source) }
        ensures ends { SkipsEndOfLine self.old found.old self.new found.new }
        ensures grown { Grows found.old found.new }
    {
        if let Some(_) = self.source.next_char() {
            self.line_has_ended = true;
            found.trivia.handle_newline();
        }
    }

    /// Reads the LF that is next.
    #[inline(always)]
    pub fn skip_line_feed(&mut self, found: &mut FindingsBuilder)
        requires { HasFirstByte line_feed (rest self.old.source) }
        ensures skips { SkipsSome self.old found.old self.new found.new }
        ensures grown { Grows found.old found.new }
    {
        self.source.next_ascii(b'\n');
        self.line_has_ended = true;
        found.trivia.handle_newline();
    }

    /// Reads the character of white space that is next.
    pub fn skip_white_space(
        &mut self,
        found: &mut FindingsBuilder,
        c: char,
    ) -> Result<bool, AllocError>
        requires next { BeginsWith c (rest self.old.source) }
        requires white { is_white_space c ≡ true }
        ensures ok { IfOk result (λ skipped. SkipsPiece self.old found.old skipped self.new found.new) }
        ensures grown { Grows found.old found.new }
        ensures err { OnErr result (MovesOn self.old self.new) }
    {
        let start = self.source.offset();
        self.source.next_char();
        let span = Span::new(start, self.source.offset());
        list_if(&mut found.trivia, is_irregular_whitespace(c), span)?;
        Ok(true)
    }

    /// Reads the line terminator that is next.
    pub fn skip_line_terminator(
        &mut self,
        found: &mut FindingsBuilder,
        c: char,
    ) -> Result<bool, AllocError>
        requires next { BeginsWith c (rest self.old.source) }
        requires dark { is_white_space c ≡ false }
        requires ends { is_line_terminator c ≡ true }
        ensures ok { IfOk result (λ skipped. SkipsPiece self.old found.old skipped self.new found.new) }
        ensures grown { Grows found.old found.new }
        ensures err { OnErr result (MovesOn self.old self.new) }
    {
        let start = self.source.offset();
        self.source.next_char();
        let span = Span::new(start, self.source.offset());
        list_if(&mut found.trivia, is_separator(c), span)?;
        self.line_has_ended = true;
        found.trivia.handle_newline();
        Ok(true)
    }

    /// Reads a comment that begins with `/*`, where one stands here and ends.
    #[inline(always)]
    fn skip_block_comment(&mut self, found: &mut FindingsBuilder) -> Result<bool, AllocError>
        requires next { BeginsWith slash (rest self.old.source) }
        requires no_line { is_prefix (opening_sequence CommentKind.Line) (rest self.old.source) ≡ false }
        ensures ok { IfOk result (λ skipped. SkipsPiece self.old found.old skipped self.new found.new) }
        ensures grown { Grows found.old found.new }
        ensures err { OnErr result (MovesOn self.old self.new) }
    {
        let position = self.source.position();
        let start = self.source.offset();
        if !advance_if_sequence(&mut self.source, b"/*") {
            return Ok(false);
        }
        match skip_block(&mut self.source) {
            Some(block) => {
                let end = self.source.offset();
                let kind = block_kind(block.line_has_ended);
                let text = self.source.whole();
                found
                    .trivia
                    .add_searched_comment(start, end, kind, text, !block.is_plain)?;
                self.line_has_ended = either(self.line_has_ended, block.line_has_ended);
                Ok(true)
            }
            None => {
                self.source.set_position(position);
                Ok(false)
            }
        }
    }

    /// Reads a comment, where one begins with the `/` that is next.
    #[inline(always)]
    pub fn skip_comment(&mut self, found: &mut FindingsBuilder) -> Result<bool, AllocError>
        requires { BeginsWith slash (rest self.old.source) }
        ensures ok { IfOk result (λ skipped. SkipsPiece self.old found.old skipped self.new found.new) }
        ensures grown { Grows found.old found.new }
        ensures err { OnErr result (MovesOn self.old self.new) }
    {
        if self.skip_opened_line(found, CommentKind::Line)? {
            self.skip_end_of_line(found);
            return Ok(true);
        }
        self.skip_block_comment(found)
    }

    /// Reads an HTML-like comment of the kind, where one stands here in a source that may have it.
    fn skip_html_comment(
        &mut self,
        found: &mut FindingsBuilder,
        kind: CommentKind,
    ) -> Result<bool, AllocError>
        requires kind { is_html kind ≡ true }
        requires is { IsOnlyPiece kind self.old }
        ensures ok { IfOk result (λ skipped. SkipsPiece self.old found.old skipped self.new found.new) }
        ensures grown { Grows found.old found.new }
        ensures err { OnErr result (MovesOn self.old self.new) }
    {
        let start = self.source.offset();
        if !self.skip_opened_line(found, kind)? {
            return Ok(false);
        }
        let span = Span::sized(start, kind.opening_length());
        defer_html(&mut found.deferred, self.source_type, span)?;
        self.skip_end_of_line(found);
        Ok(true)
    }

    /// Reads a comment that begins with `<!--`, in a source that may have it.
    pub fn skip_html_open(&mut self, found: &mut FindingsBuilder) -> Result<bool, AllocError>
        requires { BeginsWith less_than_sign (rest self.old.source) }
        ensures ok { IfOk result (λ skipped. SkipsPiece self.old found.old skipped self.new found.new) }
        ensures grown { Grows found.old found.new }
        ensures err { OnErr result (MovesOn self.old self.new) }
    {
        if self.source_type.is_module() {
            return Ok(false);
        }
        self.skip_html_comment(found, CommentKind::HtmlOpen)
    }

    /// Reads a comment that begins with `-->`, where a line has ended in a source that may have it.
    pub fn skip_html_close(&mut self, found: &mut FindingsBuilder) -> Result<bool, AllocError>
        requires { BeginsWith hyphen_minus (rest self.old.source) }
        ensures ok { IfOk result (λ skipped. SkipsPiece self.old found.old skipped self.new found.new) }
        ensures grown { Grows found.old found.new }
        ensures err { OnErr result (MovesOn self.old self.new) }
    {
        if self.source_type.is_module() {
            return Ok(false);
        }
        if !self.line_has_ended {
            return Ok(false);
        }
        self.skip_html_comment(found, CommentKind::HtmlClose)
    }
}
