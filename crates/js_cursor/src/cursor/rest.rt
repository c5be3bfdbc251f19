//! Lists that a rest may end.

ghost use Rattle.std.specs.Prelude.{◌≡◌, true, false, None, IfOk, IfErr, OnOk, OnErr};
ghost use Rattle.std.specs.Fn.{FnReturnsAt};
ghost use Rattle.js_text.specs.declared.span.Span.{Span};
ghost use Rattle.js_cursor.specs.Cursor.{is_at};
ghost use Rattle.js_cursor.specs.Failing.{Fails, FailsDelimitedList, FailsItem, FailsItself, FailsSeparated};
ghost use Rattle.js_cursor.specs.Failing.{LacksComma};
ghost use Rattle.js_cursor.specs.Lists.{Given, GoesOn, ends_at};
ghost use Rattle.js_cursor.specs.Onward.{GoesOnIf, HasNotAdvanced, HasNotGoneBack};
ghost use Rattle.js_cursor.specs.Rests.{ReadsItem, ReadsListWithRest, no_rest_yet, noting_trailing_comma};
ghost use Rattle.js_cursor.specs.RestSteps.{GoesBehindItem, ReadsItems, ReadsOneItem, readers_of};

use super::Cursor;
use super::list::push_last;
use crate::diagnostic::CursorDiagnostic;
use crate::element::FallibleElement;
use crate::fault::ListFault;
use js_kind::{Kind, LexerConfig};
use js_text::Span;
use std::alloc::{AllocError, Global};

/// What reads the elements and the rest of a list, and what of them was read.
#[derive(Drop)]
pub(crate) struct ItemReader<E, P, A, R> {
    element: E,
    rest: P,
    elements: Vec<A>,
    found: Option<R>,
}

/// Reads a rest.
fn read_rest<C, A, R, Fault, E, P>(
    cursor: &mut Cursor<'_, C>,
    items: &mut ItemReader<E, P, A, R>,
) -> Result<(), ListFault<Fault>>
where
    C: LexerConfig + Drop,
    A: Drop,
    R: Drop,
    E: FallibleElement<C, A, Fault>,
    P: FallibleElement<C, R, Fault>,
    requires first { items.old.found ≡ None }
    requires at { is_at Kind.Dot3 cursor.old ≡ true }
    ensures item { OnOk result (ReadsOneItem (Given E.reads) (Given P.reads) items.old cursor.old items.new
        cursor.new) }
    ensures err { IfErr result (λ fault. FailsItem (Fails E.reads) (FailsItself P.reads) (readers_of items.old)
        cursor.old fault (readers_of items.new) cursor.new) }
    ensures goes_on { GoesOnIf (GoesOn E.reads × GoesOn P.reads) cursor.old cursor.new }
{
    let rest = match items.rest.try_read(cursor) {
        Ok(rest) => rest,
        Err(fault) => return Err(ListFault::Element(fault)),
    };
    items.found = Some(rest);
    Ok(())
}

/// Reads an element.
fn read_element<C, A, R, Fault, E, P>(
    cursor: &mut Cursor<'_, C>,
    items: &mut ItemReader<E, P, A, R>,
) -> Result<(), ListFault<Fault>>
where
    C: LexerConfig + Drop,
    A: Drop,
    R: Drop,
    E: FallibleElement<C, A, Fault>,
    P: FallibleElement<C, R, Fault>,
    requires first { items.old.found ≡ None }
    requires at { is_at Kind.Dot3 cursor.old ≡ false }
    ensures item { OnOk result (ReadsOneItem (Given E.reads) (Given P.reads) items.old cursor.old items.new
        cursor.new) }
    ensures err { IfErr result (λ fault. FailsItem (Fails E.reads) (FailsItself P.reads) (readers_of items.old)
        cursor.old fault (readers_of items.new) cursor.new) }
    ensures goes_on { GoesOnIf (GoesOn E.reads × GoesOn P.reads) cursor.old cursor.new }
{
    let element = match items.element.try_read(cursor) {
        Ok(element) => element,
        Err(fault) => return Err(ListFault::Element(fault)),
    };
    push_last(&mut items.elements, element)?;
    Ok(())
}

/// Reads an item: a rest where it begins with `...`, and else an element.
fn read_item<C, A, R, Fault, E, P>(
    cursor: &mut Cursor<'_, C>,
    items: &mut ItemReader<E, P, A, R>,
) -> Result<(), ListFault<Fault>>
where
    C: LexerConfig + Drop,
    A: Drop,
    R: Drop,
    E: FallibleElement<C, A, Fault>,
    P: FallibleElement<C, R, Fault>,
    requires { items.old.found ≡ None }
    ensures item { OnOk result (ReadsOneItem (Given E.reads) (Given P.reads) items.old cursor.old items.new
        cursor.new) }
    ensures err { IfErr result (λ fault. FailsItem (Fails E.reads) (FailsItself P.reads) (readers_of items.old)
        cursor.old fault (readers_of items.new) cursor.new) }
    ensures goes_on { GoesOnIf (GoesOn E.reads × GoesOn P.reads) cursor.old cursor.new }
{
    if cursor.at(Kind::Dot3) {
        return read_rest(cursor, items);
    }
    read_element(cursor, items)
}

impl<C: LexerConfig + Drop> Cursor<'_, C> {
    /// Reports a comma at the span that stands between a rest and the end of its list.
    fn note_trailing_comma(&mut self, has_rest: bool, span: Span) -> Result<(), AllocError>
        ensures noted { OnOk result (self.new ≡ noting_trailing_comma has_rest span self.old) }
        ensures err { OnErr result (self.new ≡ self.old) }
        ensures stays { HasNotAdvanced self.old self.new }
    {
        if !has_rest {
            return Ok(());
        }
        if self.ambient {
            return Ok(());
        }
        self.error(CursorDiagnostic::RestElementTrailingComma { span })
    }

    /// Goes past a comma, and tells whether an item is behind it; else the list ends there.
    fn go_past_comma(&mut self, close: Kind, has_rest: bool) -> Result<bool, AllocError>
        requires open { ends_at close self.old ≡ false }
        requires at { is_at Kind.Comma self.old ≡ true }
        ensures behind { IfOk result (λ goes_on. (opening : Span)
            → GoesBehindItem close opening has_rest self.old goes_on self.new) }
        ensures err { OnErr result (LacksComma close self.old self.new) }
        ensures onward { HasNotGoneBack self.old self.new }
    {
        let span = self.cur_span();
        self.go_past(Kind::Comma)?;
        if self.at(close) {
            self.note_trailing_comma(has_rest, span)?;
            return Ok(false);
        }
        if self.is_cut_off() {
            return Ok(false);
        }
        Ok(true)
    }

    /// Tells whether an item stands behind an item, and goes past a comma; else the list ends there.
    fn behind_item(
        &mut self,
        close: Kind,
        opening_span: Span,
        has_rest: bool,
    ) -> Result<bool, AllocError>
        ensures behind { IfOk result (λ goes_on. GoesBehindItem close opening_span has_rest self.old goes_on self.new) }
        ensures err { OnErr result (LacksComma close self.old self.new) }
        ensures onward { HasNotGoneBack self.old self.new }
    {
        if self.is_at_end_of_list(close) {
            return Ok(false);
        }
        if !self.at(Kind::Comma) {
            self.stop_list(close, Kind::Comma, opening_span);
            return Ok(false);
        }
        self.go_past_comma(close, has_rest)
    }

    /// Reads commas with items behind them up to the end of the list.
    fn read_items<A, R, Fault, E, P, S, D>(
        &mut self,
        close: Kind,
        opening_span: Span,
        items: &mut ItemReader<E, P, A, R>,
        rest_span: S,
        rest_last_diagnostic: D,
    ) -> Result<(), ListFault<Fault>>
    where
        A: Drop,
        R: Drop,
        E: FallibleElement<C, A, Fault>,
        P: FallibleElement<C, R, Fault>,
        S: Fn(&R) -> Span + Drop,
        D: Fn(Span) -> CursorDiagnostic + Drop,
        requires span { S.IsAlwaysCallable rest_span }
        requires diagnostic { D.IsAlwaysCallable rest_last_diagnostic }
        ensures ok { OnOk result (ReadsItems (Given E.reads) (Given P.reads)
            (λ r error. (span : Span) × FnReturnsAt S.Fn rest_span r span × D.post rest_last_diagnostic span error)
            close opening_span items.old self.old items.new self.new) }
        ensures err { IfErr result (λ fault.
            FailsSeparated (FailsItem (Fails E.reads) (FailsItself P.reads))
            (ReadsItem (Given E.reads) (Given P.reads)) close Kind.Comma (LacksComma close) (readers_of items.old)
            self.old fault (readers_of items.new) self.new) }
        ensures goes_on { GoesOnIf (GoesOn E.reads × GoesOn P.reads) self.old self.new }
    {
        'items: loop {
            let start = self.cur_start();
            let has_rest = items.found.is_some();
            let goes_on = self.behind_item(close, opening_span, has_rest)?;
            if !goes_on {
                return Ok(());
            }
            if let Some(rest) = &items.found {
                self.set_fatal_error(rest_last_diagnostic(rest_span(rest)));
                return Ok(());
            }
            match read_item(self, items) {
                Ok(()) => {}
                Err(fault) => return Err(fault),
            }
            if self.is_stuck_at(start) {
                return Err(ListFault::Stuck {
                    at: self.cur_start(),
                });
            }
        }
    }

    /// Reads a list up to `close`, with commas between its items: elements, and at the end a rest, which begins with
    /// `...`. It gives the elements, and the rest, if there is one. An item behind a rest stops the parser, with what
    /// `rest_last_diagnostic` gives for the span that `rest_span` tells; a comma between a rest and `close` is an
    /// error, but in an ambient context. The caller has gone past what opens the list, and goes past `close`. An
    /// element or a rest that fails ends the list, with its fault.
    pub fn try_parse_delimited_list_with_rest<A, R, Fault, E, P, S, D>(
        &mut self,
        alloc: Global,
        close: Kind,
        opening_span: Span,
        parse_element: E,
        parse_rest: P,
        rest_span: S,
        rest_last_diagnostic: D,
    ) -> Result<(Vec<A>, Option<R>), ListFault<Fault>>
    where
        A: Drop,
        R: Drop,
        E: FallibleElement<C, A, Fault> + Drop,
        P: FallibleElement<C, R, Fault> + Drop,
        S: Fn(&R) -> Span + Drop,
        D: Fn(Span) -> CursorDiagnostic + Drop,
        requires span { S.IsAlwaysCallable rest_span }
        requires diagnostic { D.IsAlwaysCallable rest_last_diagnostic }
        ensures ok { IfOk result (λ read. ReadsListWithRest (Given E.reads) (Given P.reads)
            (λ r error. (span : Span) × FnReturnsAt S.Fn rest_span r span × D.post rest_last_diagnostic span error)
            close opening_span parse_element parse_rest self.old read.0.items read.1 self.new) }
        ensures err { IfErr result (λ fault.
            FailsDelimitedList (FailsItem (Fails E.reads) (FailsItself P.reads))
            (ReadsItem (Given E.reads) (Given P.reads)) close Kind.Comma (LacksComma close)
            (no_rest_yet parse_element parse_rest) self.old fault self.new) }
        ensures goes_on { GoesOnIf (GoesOn E.reads × GoesOn P.reads) self.old self.new }
    {
        if self.is_at_end_of_list(close) {
            return Ok((Vec::new(alloc), None));
        }
        let mut items = ItemReader {
            element: parse_element,
            rest: parse_rest,
            elements: Vec::new(alloc),
            found: None,
        };
        match read_item(self, &mut items) {
            Ok(()) => {}
            Err(fault) => return Err(fault),
        }
        let read = self.read_items(
            close,
            opening_span,
            &mut items,
            rest_span,
            rest_last_diagnostic,
        );
        match read {
            Ok(()) => {}
            Err(fault) => return Err(fault),
        }
        let ItemReader {
            element: _,
            rest: _,
            elements,
            found,
        } = items;
        Ok((elements, found))
    }
}
