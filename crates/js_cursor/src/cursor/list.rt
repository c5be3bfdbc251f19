//! Lists, and their steps.

ghost use Rattle.std.specs.Prelude.{◌≡◌, ◌≢◌, ◌≤◌, ◌<◌, not, [], ◌∷◌, ◌++◌, true, false, IfOk, IfErr, OnOk, OnErr};
ghost use Rattle.js_text.specs.declared.span.Span.{Span};
ghost use Rattle.js_kind.specs.Kinds.{is_one_of};
ghost use Rattle.js_cursor.specs.Cursor.{Advances, IsAsBefore, is_at};
ghost use Rattle.js_cursor.specs.Failing.{Fails, FailsDelimitedList, FailsInElements, FailsNormalList, FailsSeparated};
ghost use Rattle.js_cursor.specs.Failing.{LacksSeparator};
ghost use Rattle.js_cursor.specs.Lists.{Given, GoesOn, Present, ReadsDelimitedList, ReadsElements, ReadsNormalList};
ghost use Rattle.js_cursor.specs.Lists.{ReadsWhileSome, ends_at, is_stuck_at, neither_closed_nor_separated};
ghost use Rattle.js_cursor.specs.ListSteps.{GoesBehind, ReadsMore};
ghost use Rattle.js_cursor.specs.Onward.{GoesOnIf, HasNotGoneBack};

use super::Cursor;
use crate::diagnostic::CursorDiagnostic;
use crate::element::FallibleElement;
use crate::fault::ListFault;
use crate::list_step::ListStep;
use js_kind::{Kind, LexerConfig};
use js_text::Span;
use std::alloc::{AllocError, Global};

/// Adds an element at the end.
pub(super) fn push_last<T: Drop>(elements: &mut Vec<T>, element: T) -> Result<(), AllocError>
    ensures { OnOk result (elements.new.items ≡ elements.old.items ++ element ∷ []) }
{
    elements.push(element)?;
    Ok(())
}

impl<C: LexerConfig + Drop> Cursor<'_, C> {
    /// Whether a list ends here: it is closed, or a fatal error stands.
    pub(super) fn is_at_end_of_list(&self, close: Kind) -> bool
        ensures { result ≡ ends_at close self.now }
    {
        if self.at(close) {
            return true;
        }
        self.has_fatal_error()
    }

    /// Whether an element of a list without separators stands here: the list is not closed, and no fatal error stands.
    pub fn normal_list_goes_on(&self, close: Kind) -> bool
        ensures { result ≡ not (ends_at close self.now) }
    {
        !self.is_at_end_of_list(close)
    }

    /// Whether a list with separators has a first element here: it is not closed, and no fatal error stands.
    pub fn delimited_list_begins(&self, close: Kind) -> bool
        ensures { result ≡ not (ends_at close self.now) }
    {
        !self.is_at_end_of_list(close)
    }

    /// Whether the source ends here, or is at fault.
    pub(super) fn is_cut_off(&self) -> bool
        ensures { result ≡ is_one_of (Kind.Eof ∷ Kind.Undetermined ∷ []) self.now.token.kind }
    {
        matches!(self.cur_kind(), Kind::Eof | Kind::Undetermined)
    }

    /// Whether a round of a list that began at the offset, where a token was current, has not led on: no fatal error
    /// stands, and the current token starts no later. A list with such a round would have no end.
    pub fn is_stuck_at(&self, start: u32) -> bool
        ensures { result ≡ is_stuck_at start self.now }
    {
        if self.has_fatal_error() {
            return false;
        }
        self.cur_start() <= start
    }

    /// Reads elements up to the end of the list.
    fn read_elements<T: Drop, Fault, F: FallibleElement<C, T, Fault>>(
        &mut self,
        alloc: Global,
        close: Kind,
        f: &mut F,
    ) -> Result<Vec<T>, ListFault<Fault>>
        ensures ok { IfOk result (λ xs. ReadsElements (Given F.reads) close f.old self.old xs.items f.new self.new) }
        ensures err { IfErr result (λ fault.
            FailsInElements F.reads (Given F.reads) close f.old self.old fault f.new self.new) }
        ensures goes_on { GoesOnIf (GoesOn F.reads) self.old self.new }
    {
        let mut elements = Vec::new(alloc);
        while !self.is_at_end_of_list(close) {
            let start = self.cur_start();
            let element = match f.try_read(self) {
                Ok(element) => element,
                Err(fault) => return Err(ListFault::Element(fault)),
            };
            if self.is_stuck_at(start) {
                return Err(ListFault::Stuck {
                    at: self.cur_start(),
                });
            }
            push_last(&mut elements, element)?;
        }
        Ok(elements)
    }

    /// Reads a list: `opening`, elements up to `close` or a fatal error, and `close`. An element that fails ends it,
    /// with its fault.
    pub fn try_parse_normal_list<T: Drop, Fault, F: FallibleElement<C, T, Fault> + Drop>(
        &mut self,
        alloc: Global,
        opening: Kind,
        close: Kind,
        f: F,
    ) -> Result<Vec<T>, ListFault<Fault>>
        ensures ok { IfOk result (λ xs. ReadsNormalList (ReadsElements (Given F.reads) close) opening close f self.old
            xs.items self.new) }
        ensures err { IfErr result (λ fault. FailsNormalList (FailsInElements F.reads (Given F.reads) close)
            (ReadsElements (Given F.reads) close) opening close f self.old fault self.new) }
        ensures goes_on { GoesOnIf (GoesOn F.reads) self.old self.new }
    {
        let mut f = f;
        let opening_span = self.cur_span();
        self.expect(opening)?;
        let read = self.read_elements(alloc, close, &mut f);
        let elements = match read {
            Ok(elements) => elements,
            Err(fault) => return Err(fault),
        };
        self.expect_closing(close, opening_span)?;
        Ok(elements)
    }

    /// Reads elements up to the end of the list, or up to one that is none.
    fn read_elements_while_some<T: Drop, Fault, F: FallibleElement<C, Option<T>, Fault>>(
        &mut self,
        alloc: Global,
        close: Kind,
        f: &mut F,
    ) -> Result<Vec<T>, ListFault<Fault>>
        ensures ok { IfOk result (λ xs. ReadsWhileSome (Given F.reads) close f.old self.old xs.items f.new self.new) }
        ensures err { IfErr result (λ fault.
            FailsInElements F.reads (Present (Given F.reads)) close f.old self.old fault f.new self.new) }
        ensures goes_on { GoesOnIf (GoesOn F.reads) self.old self.new }
    {
        let mut elements = Vec::new(alloc);
        while !self.is_at_end_of_list(close) {
            let start = self.cur_start();
            let read = match f.try_read(self) {
                Ok(read) => read,
                Err(fault) => return Err(ListFault::Element(fault)),
            };
            match read {
                Some(element) => {
                    if self.is_stuck_at(start) {
                        return Err(ListFault::Stuck {
                            at: self.cur_start(),
                        });
                    }
                    push_last(&mut elements, element)?;
                }
                None => return Ok(elements),
            }
        }
        Ok(elements)
    }

    /// Reads a list: `opening`, elements up to `close` or a fatal error, or up to one that is none, and `close`. An
    /// element that fails ends it, with its fault.
    pub fn try_parse_normal_list_breakable<T: Drop, Fault, F>(
        &mut self,
        alloc: Global,
        opening: Kind,
        close: Kind,
        f: F,
    ) -> Result<Vec<T>, ListFault<Fault>>
    where
        F: FallibleElement<C, Option<T>, Fault> + Drop,
        ensures ok { IfOk result (λ xs. ReadsNormalList (ReadsWhileSome (Given F.reads) close) opening close f self.old
            xs.items self.new) }
        ensures err { IfErr result (λ fault. FailsNormalList (FailsInElements F.reads (Present (Given F.reads)) close)
            (ReadsWhileSome (Given F.reads) close) opening close f self.old fault self.new) }
        ensures goes_on { GoesOnIf (GoesOn F.reads) self.old self.new }
    {
        let mut f = f;
        let opening_span = self.cur_span();
        self.expect(opening)?;
        let read = self.read_elements_while_some(alloc, close, &mut f);
        let elements = match read {
            Ok(elements) => elements,
            Err(fault) => return Err(fault),
        };
        self.expect_closing(close, opening_span)?;
        Ok(elements)
    }

    /// Goes past a separator, which has a byte.
    pub(super) fn go_past(&mut self, separator: Kind) -> Result<(), AllocError>
        requires some { separator ≢ Kind.Eof }
        requires at { is_at separator self.old ≡ true }
        ensures ok { OnOk result (Advances separator self.old self.new) }
        ensures some_text { OnOk result (1 ≤ self.new.previous_end) }
        ensures err { OnErr result (IsAsBefore self.old self.new) }
        ensures starts { OnOk result (self.old.token.start < self.new.token.start) }
        ensures onward { HasNotGoneBack self.old self.new }
    {
        let _token = &self.token;
        self.advance(separator)?;
        Ok(())
    }

    /// Stops the parser where a list is neither closed nor goes on.
    pub(super) fn stop_list(&mut self, close: Kind, separator: Kind, opening_span: Span)
        ensures { self.new ≡ neither_closed_nor_separated close separator opening_span self.old }
    {
        let (found, span) = (self.cur_kind(), self.cur_span());
        self.set_fatal_error(CursorDiagnostic::ExpectClosingOrSeparator {
            close,
            separator,
            found,
            span,
            opening: opening_span,
        });
    }

    /// Goes past a separator, and tells whether an element or the end of the list is behind it.
    fn go_past_separator(&mut self, close: Kind, separator: Kind) -> Result<ListStep, AllocError>
        requires some { separator ≢ Kind.Eof }
        requires open { ends_at close self.old ≡ false }
        requires at { is_at separator self.old ≡ true }
        ensures step { IfOk result (λ step. (opening : Span)
            → GoesBehind close separator opening self.old step self.new) }
        ensures err { OnErr result (LacksSeparator close separator self.old self.new) }
        ensures starts { IfOk result (λ step. step ≡ ListStep.Element
            → self.old.token.start < self.new.token.start) }
        ensures onward { HasNotGoneBack self.old self.new }
    {
        self.go_past(separator)?;
        if self.at(close) {
            return Ok(ListStep::End(Some(self.previous_end - 1)));
        }
        if self.is_cut_off() {
            return Ok(ListStep::End(None));
        }
        Ok(ListStep::Element)
    }

    /// Tells what stands behind an element of a list with separators, and goes past a separator. One that is neither
    /// closed nor goes on stops the parser.
    pub fn delimited_list_goes_on(
        &mut self,
        close: Kind,
        separator: Kind,
        opening_span: Span,
    ) -> Result<ListStep, AllocError>
        requires { separator ≢ Kind.Eof }
        ensures step { IfOk result (λ step. GoesBehind close separator opening_span self.old step self.new) }
        ensures err { OnErr result (LacksSeparator close separator self.old self.new) }
        ensures starts { IfOk result (λ step. step ≡ ListStep.Element
            → self.old.token.start < self.new.token.start) }
        ensures onward { HasNotGoneBack self.old self.new }
    {
        if self.is_at_end_of_list(close) {
            return Ok(ListStep::End(None));
        }
        if !self.at(separator) {
            self.stop_list(close, separator, opening_span);
            return Ok(ListStep::End(None));
        }
        self.go_past_separator(close, separator)
    }

    /// Reads separators with elements behind them up to the end of the list.
    fn read_separated<T: Drop, Fault, F: FallibleElement<C, T, Fault>>(
        &mut self,
        close: Kind,
        separator: Kind,
        opening_span: Span,
        f: &mut F,
        elements: &mut Vec<T>,
    ) -> Result<Option<u32>, ListFault<Fault>>
        requires { separator ≢ Kind.Eof }
        ensures ok { IfOk result (λ trailing. ReadsMore (Given F.reads) close separator opening_span f.old self.old
            elements.old.items elements.new.items trailing f.new self.new) }
        ensures err { IfErr result (λ fault.
            FailsSeparated (Fails F.reads) (Given F.reads) close separator (LacksSeparator close separator) f.old
            self.old fault f.new self.new) }
        ensures goes_on { GoesOnIf (GoesOn F.reads) self.old self.new }
    {
        'elements: loop {
            let start = self.cur_start();
            match self.delimited_list_goes_on(close, separator, opening_span)? {
                ListStep::Element => {}
                ListStep::End(trailing) => return Ok(trailing),
            }
            let element = match f.try_read(self) {
                Ok(element) => element,
                Err(fault) => return Err(ListFault::Element(fault)),
            };
            if self.is_stuck_at(start) {
                return Err(ListFault::Stuck {
                    at: self.cur_start(),
                });
            }
            push_last(elements, element)?;
        }
    }

    /// Reads a list up to `close`, with separators between its elements. It gives the elements, and the offset of the
    /// last byte of a separator that stands before `close`, if one does. The caller has gone past what opens the list,
    /// and goes past `close`. An element that fails ends the list, with its fault.
    pub fn try_parse_delimited_list<T: Drop, Fault, F: FallibleElement<C, T, Fault> + Drop>(
        &mut self,
        alloc: Global,
        close: Kind,
        separator: Kind,
        opening_span: Span,
        f: F,
    ) -> Result<(Vec<T>, Option<u32>), ListFault<Fault>>
        requires { separator ≢ Kind.Eof }
        ensures ok { IfOk result (λ read. ReadsDelimitedList (Given F.reads) close separator opening_span f self.old
            read.0.items read.1 self.new) }
        ensures err { IfErr result (λ fault.
            FailsDelimitedList (Fails F.reads) (Given F.reads) close separator (LacksSeparator close separator) f
            self.old fault self.new) }
        ensures goes_on { GoesOnIf (GoesOn F.reads) self.old self.new }
    {
        let mut f = f;
        let mut elements = Vec::new(alloc);
        if self.is_at_end_of_list(close) {
            return Ok((elements, None));
        }
        let first = match f.try_read(self) {
            Ok(first) => first,
            Err(fault) => return Err(ListFault::Element(fault)),
        };
        push_last(&mut elements, first)?;
        let read = self.read_separated(close, separator, opening_span, &mut f, &mut elements);
        let trailing = match read {
            Ok(trailing) => trailing,
            Err(fault) => return Err(fault),
        };
        Ok((elements, trailing))
    }
}
