//! Gaps between tokens: white space, line terminators and comments (ECMA-262 12.2 to 12.4, B.1.1).

ghost use Rattle.std.specs.Prelude.{◌≡◌, ◌<◌, ◌≤◌, length, true, false, Some, None, IfOk, OnOk};
ghost use Rattle.std.specs.Prelude.{OnErr, MatchBool};
ghost use Rattle.js_text.specs.Ascii.{slash, less_than_sign, hyphen_minus};
ghost use Rattle.js_text.specs.Characters.{is_white_space, is_line_terminator};
ghost use Rattle.js_text.specs.declared.source_type.SourceType.{SourceType};
ghost use Rattle.js_grammar.specs.Gap.{piece, is_reported};
ghost use Rattle.js_source.specs.Source.{rest, BeginsWith};
ghost use Rattle.js_source.specs.Runs.{PassesRun, TellsClass};
ghost use Rattle.js_reader.specs.Found.{Grows};
ghost use Rattle.js_reader.specs.Gaps.{BeginsNoPiece};
ghost use Rattle.js_reader.specs.Reader.{SkipsPiece, SkipsGap, SkipsWholeGap, SkipsReported, MovesOn};
ghost use Rattle.js_reader.specs.Tables.{is_blank, is_symbol};

use crate::findings_builder::FindingsBuilder;
use crate::reader::Reader;
use js_source::Source;
use js_text::{CommentKind, Diagnostic, Span, is_line_terminator, is_white_space};
use std::alloc::AllocError;

/// Whether the byte is a character that begins no piece; false where one may begin.
#[inline(always)]
pub fn begins_no_piece(symbols: &[bool; 256], b: u8) -> bool
    requires { TellsClass is_symbol symbols.now }
    ensures { MatchBool result (BeginsNoPiece b) (Unit {0}) }
{
    symbols[b as usize]
}

/// Skips TABs and SPs.
#[inline(always)]
pub fn skip_blanks(source: &mut Source<'_>, table: &[bool; 256])
    requires { TellsClass is_blank table.now }
    ensures text { source.new.text ≡ source.old.text }
    ensures run { PassesRun table.now source.old.text source.old.place source.new.place }
    ensures fewer { length (rest source.new) ≤ length (rest source.old) }
{
    source.pass_ascii(table);
}

/// Whether the next byte alone shows that no reported comment stands here.
#[inline(always)]
fn is_none_reported(source: &Source<'_>, line_has_ended: bool) -> bool
    ensures { MatchBool result ((t : SourceType) → is_reported t line_has_ended (rest source.now) ≡ false) (Unit {0}) }
{
    if !line_has_ended {
        return true;
    }
    match source.peek_byte() {
        Some(b) => b != b'<',
        None => true,
    }
}

impl Reader<'_> {
    /// Reads a character of white space or a line terminator.
    fn skip_character(&mut self, found: &mut FindingsBuilder, c: char) -> Result<bool, AllocError>
        requires next { BeginsWith c (rest self.old.source) }
        requires slash { c ≡ slash → ⊥ }
        requires angle { c ≡ less_than_sign → ⊥ }
        requires minus { c ≡ hyphen_minus → ⊥ }
        ensures ok { IfOk result (λ skipped. SkipsPiece self.old found.old skipped self.new found.new) }
        ensures grown { Grows found.old found.new }
        ensures err { OnErr result (MovesOn self.old self.new) }
    {
        if is_white_space(c) {
            return self.skip_white_space(found, c);
        }
        if is_line_terminator(c) {
            return self.skip_line_terminator(found, c);
        }
        Ok(false)
    }

    /// Reads a piece of any form; `skip_piece` has the common forms first.
    #[inline(never)]
    fn skip_any_piece(&mut self, found: &mut FindingsBuilder) -> Result<bool, AllocError>
        ensures ok { IfOk result (λ skipped. SkipsPiece self.old found.old skipped self.new found.new) }
        ensures grown { Grows found.old found.new }
        ensures err { OnErr result (MovesOn self.old self.new) }
    {
        match self.source.peek_char() {
            None => Ok(false),
            Some('/') => self.skip_comment(found),
            Some('<') => self.skip_html_open(found),
            Some('-') => self.skip_html_close(found),
            Some(c) => self.skip_character(found, c),
        }
    }

    /// Skips the piece of a gap that begins here, and tells whether one does.
    #[inline(always)]
    fn skip_piece(&mut self, found: &mut FindingsBuilder) -> Result<bool, AllocError>
        ensures ok { IfOk result (λ skipped. SkipsPiece self.old found.old skipped self.new found.new) }
        ensures grown { Grows found.old found.new }
        ensures err { OnErr result (MovesOn self.old self.new) }
    {
        match self.source.peek_byte() {
            None => Ok(false),
            Some(b) if begins_no_piece(&self.tables.symbols, b) => Ok(false),
            Some(b'\n') => {
                self.skip_line_feed(found);
                Ok(true)
            }
            Some(b'/') => self.skip_comment(found),
            Some(_) => self.skip_any_piece(found),
        }
    }

    /// Skips the longest gap.
    #[inline(always)]
    fn skip_gap(&mut self, found: &mut FindingsBuilder) -> Result<(), AllocError>
        ensures ok { OnOk result (SkipsGap false self.old found.old self.new found.new) }
        ensures grown { Grows found.old found.new }
        ensures err { OnErr result (MovesOn self.old self.new) }
    {
        skip_blanks(&mut self.source, &self.tables.blanks);
        while self.skip_piece(found)? {
            skip_blanks(&mut self.source, &self.tables.blanks);
        }
        Ok(())
    }

    /// Reads and reports a comment that a module may not have, with the gap behind it, and tells whether there is one.
    #[inline(never)]
    fn skip_reported(&mut self, found: &mut FindingsBuilder) -> Result<bool, AllocError>
        ensures ok { IfOk result (λ skipped. SkipsReported self.old found.old skipped self.new found.new) }
        ensures grown { Grows found.old found.new }
        ensures err { OnErr result (MovesOn self.old self.new) }
    {
        if !self.source_type.is_module() {
            return Ok(false);
        }
        if !self.line_has_ended {
            return Ok(false);
        }
        let start = self.source.offset();
        if !self.skip_opened_line(found, CommentKind::HtmlOpen)? {
            return Ok(false);
        }
        let span = Span::sized(start, CommentKind::HtmlOpen.opening_length());
        found.errors.push(Diagnostic::HtmlCommentInModule { span })?;
        self.skip_end_of_line(found);
        self.skip_gap(found)?;
        Ok(true)
    }

    /// Goes on with a whole gap, where a longest gap without reported comments has ended.
    #[inline(never)]
    fn skip_all_reported(&mut self, found: &mut FindingsBuilder) -> Result<(), AllocError>
        requires { piece self.old.source_type self.old.line_has_ended (rest self.old.source) ≡ None }
        ensures ok { OnOk result (SkipsWholeGap self.old found.old self.new found.new) }
        ensures grown { Grows found.old found.new }
        ensures err { OnErr result (MovesOn self.old self.new) }
    {
        while self.skip_reported(found)? {}
        Ok(())
    }

    /// Skips a whole gap, and reports the comments in it that a module may not have. Most gaps have none.
    #[inline(always)]
    pub fn skip_whole_gap(&mut self, found: &mut FindingsBuilder) -> Result<(), AllocError>
        ensures ok { OnOk result (SkipsWholeGap self.old found.old self.new found.new) }
        ensures grown { Grows found.old found.new }
        ensures err { OnErr result (MovesOn self.old self.new) }
    {
        self.skip_gap(found)?;
        if is_none_reported(&self.source, self.line_has_ended) {
            return Ok(());
        }
        match self.skip_all_reported(found) {
            Ok(()) => Ok(()),
            Err(error) => Err(error),
        }
    }
}
