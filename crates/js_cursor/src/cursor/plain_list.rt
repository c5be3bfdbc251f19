//! Lists whose elements have no fault but that they find no memory.

ghost use Rattle.std.specs.Prelude.{◌≢◌, IfOk, IfErr};
ghost use Rattle.std.specs.Fn.{FnReturnsAt};
ghost use Rattle.js_text.specs.declared.span.Span.{Span};
ghost use Rattle.js_cursor.specs.Failing.{Fails, FailsDelimitedList, FailsInElements, FailsItem, FailsItself};
ghost use Rattle.js_cursor.specs.Failing.{FailsNormalList, LacksComma, LacksSeparator};
ghost use Rattle.js_cursor.specs.Faults.{IsFaultOf};
ghost use Rattle.js_cursor.specs.Lists.{Given, GoesOn, Present, ReadsDelimitedList, ReadsElements, ReadsNormalList};
ghost use Rattle.js_cursor.specs.Lists.{ReadsWhileSome};
ghost use Rattle.js_cursor.specs.Onward.{GoesOnIf};
ghost use Rattle.js_cursor.specs.Rests.{ReadsItem, ReadsListWithRest, no_rest_yet};

use super::Cursor;
use crate::diagnostic::CursorDiagnostic;
use crate::element::Element;
use crate::fault::CursorFault;
use js_kind::{Kind, LexerConfig};
use js_text::Span;
use std::alloc::{AllocError, Global};

impl<C: LexerConfig + Drop> Cursor<'_, C> {
    /// Reads a list: `opening`, elements up to `close` or a fatal error, and `close`.
    pub fn parse_normal_list<T: Drop, F: Element<C, T> + Drop>(
        &mut self,
        alloc: Global,
        opening: Kind,
        close: Kind,
        f: F,
    ) -> Result<Vec<T>, CursorFault>
        ensures ok { IfOk result (λ xs. ReadsNormalList (ReadsElements (Given F.reads) close) opening close f self.old
            xs.items self.new) }
        ensures err { IfErr result (IsFaultOf (λ fault. FailsNormalList (FailsInElements F.reads (Given F.reads) close)
            (ReadsElements (Given F.reads) close) opening close f self.old fault self.new)) }
        ensures goes_on { GoesOnIf (GoesOn F.reads) self.old self.new }
    {
        match self.try_parse_normal_list::<T, AllocError, F>(alloc, opening, close, f) {
            Ok(elements) => Ok(elements),
            Err(fault) => Err(CursorFault::from(fault)),
        }
    }

    /// Reads a list: `opening`, elements up to `close` or a fatal error, or up to one that is none, and `close`.
    pub fn parse_normal_list_breakable<T: Drop, F: Element<C, Option<T>> + Drop>(
        &mut self,
        alloc: Global,
        opening: Kind,
        close: Kind,
        f: F,
    ) -> Result<Vec<T>, CursorFault>
        ensures ok { IfOk result (λ xs. ReadsNormalList (ReadsWhileSome (Given F.reads) close) opening close f self.old
            xs.items self.new) }
        ensures err { IfErr result (IsFaultOf (λ fault.
            FailsNormalList (FailsInElements F.reads (Present (Given F.reads)) close)
            (ReadsWhileSome (Given F.reads) close) opening close f self.old fault self.new)) }
        ensures goes_on { GoesOnIf (GoesOn F.reads) self.old self.new }
    {
        match self.try_parse_normal_list_breakable::<T, AllocError, F>(alloc, opening, close, f) {
            Ok(elements) => Ok(elements),
            Err(fault) => Err(CursorFault::from(fault)),
        }
    }

    /// Reads a list up to `close`, with separators between its elements. It gives the elements, and the offset of the
    /// last byte of a separator that stands before `close`, if one does. The caller has gone past what opens the list,
    /// and goes past `close`.
    pub fn parse_delimited_list<T: Drop, F: Element<C, T> + Drop>(
        &mut self,
        alloc: Global,
        close: Kind,
        separator: Kind,
        opening_span: Span,
        f: F,
    ) -> Result<(Vec<T>, Option<u32>), CursorFault>
        requires { separator ≢ Kind.Eof }
        ensures ok { IfOk result (λ read. ReadsDelimitedList (Given F.reads) close separator opening_span f self.old
            read.0.items read.1 self.new) }
        ensures err { IfErr result (IsFaultOf (λ fault.
            FailsDelimitedList (Fails F.reads) (Given F.reads) close separator (LacksSeparator close separator) f
            self.old fault self.new)) }
        ensures goes_on { GoesOnIf (GoesOn F.reads) self.old self.new }
    {
        match self.try_parse_delimited_list::<T, AllocError, F>(
            alloc,
            close,
            separator,
            opening_span,
            f,
        ) {
            Ok(read) => Ok(read),
            Err(fault) => Err(CursorFault::from(fault)),
        }
    }

    /// Reads a list up to `close`, with commas between its items: elements, and at the end a rest, which begins with
    /// `...`. It gives the elements, and the rest, if there is one. An item behind a rest stops the parser, with what
    /// `rest_last_diagnostic` gives for the span that `rest_span` tells; a comma between a rest and `close` is an
    /// error, but in an ambient context. The caller has gone past what opens the list, and goes past `close`.
    pub fn parse_delimited_list_with_rest<A, R, E, P, S, D>(
        &mut self,
        alloc: Global,
        close: Kind,
        opening_span: Span,
        parse_element: E,
        parse_rest: P,
        rest_span: S,
        rest_last_diagnostic: D,
    ) -> Result<(Vec<A>, Option<R>), CursorFault>
    where
        A: Drop,
        R: Drop,
        E: Element<C, A> + Drop,
        P: Element<C, R> + Drop,
        S: Fn(&R) -> Span + Drop,
        D: Fn(Span) -> CursorDiagnostic + Drop,
        requires span { S.IsAlwaysCallable rest_span }
        requires diagnostic { D.IsAlwaysCallable rest_last_diagnostic }
        ensures ok { IfOk result (λ read. ReadsListWithRest (Given E.reads) (Given P.reads)
            (λ r error. (span : Span) × FnReturnsAt S.Fn rest_span r span × D.post rest_last_diagnostic span error)
            close opening_span parse_element parse_rest self.old read.0.items read.1 self.new) }
        ensures err { IfErr result (IsFaultOf (λ fault.
            FailsDelimitedList (FailsItem (Fails E.reads) (FailsItself P.reads))
            (ReadsItem (Given E.reads) (Given P.reads)) close Kind.Comma (LacksComma close)
            (no_rest_yet parse_element parse_rest) self.old fault self.new)) }
        ensures goes_on { GoesOnIf (GoesOn E.reads × GoesOn P.reads) self.old self.new }
    {
        match self.try_parse_delimited_list_with_rest::<A, R, AllocError, E, P, S, D>(
            alloc,
            close,
            opening_span,
            parse_element,
            parse_rest,
            rest_span,
            rest_last_diagnostic,
        ) {
            Ok(read) => Ok(read),
            Err(fault) => Err(CursorFault::from(fault)),
        }
    }
}
