//! The lists and the counts of a caller.

ghost use Rattle.std.specs.Prelude.{◌≡◌};
ghost use Rattle.js_lex_c.specs.Held.{PutsToken, PutsUnits, StayInPlace, held, with_findings};
ghost use Rattle.js_lex_c.specs.Lists.{fault_counts};

use crate::fault::Fault;
use crate::put::{put, put_all};
use crate::record::{
    JsComment, JsDiagnostic, JsSpan, JsToken, fill_comments, fill_diagnostics, fill_spans,
};
use js_lexer::Findings;

/// The lists of a caller, each with its room. A call fills them as far as there is room.
#[repr(C)]
#[derive(Drop)]
pub struct JsLists<'a> {
    /// The live tokens.
    pub tokens: &'a mut [JsToken],
    /// The pool: the UTF-16 units of decoded values.
    pub units: &'a mut [u16],
    pub diagnostics: &'a mut [JsDiagnostic],
    /// What is a diagnostic if the source is a module.
    pub deferred: &'a mut [JsDiagnostic],
    pub comments: &'a mut [JsComment],
    /// White space other than TAB and SP.
    pub irregular: &'a mut [JsSpan],
    /// Each `>` in the text of a child of JSX.
    pub warnings: &'a mut [JsSpan],
}

/// How many items there are of each list, however much room there was.
#[repr(C)]
#[derive(Clone, Copy)]
pub struct JsCounts {
    pub tokens: usize,
    pub units: usize,
    pub diagnostics: usize,
    pub deferred: usize,
    pub comments: usize,
    pub irregular: usize,
    pub warnings: usize,
    /// Of a fault the offset of its byte or the index of its command, else 0.
    pub place: usize,
}

impl JsLists<'_> {
    /// Puts a token at its place, if there is room.
    #[inline(always)]
    pub(crate) fn put_token(&mut self, place: usize, token: JsToken)
        ensures { PutsToken place token self.old self.new }
    {
        put(self.tokens, place, token);
    }

    /// Puts units of the pool from their place on, as far as there is room.
    pub(crate) fn put_units(&mut self, place: usize, units: &[u16])
        ensures { PutsUnits place units.now self.old self.new }
    {
        put_all(self.units, place, units);
    }

    /// Fills the lists of all that was found beside the tokens.
    pub(crate) fn fill_findings(&mut self, found: &Findings)
        ensures filled { held self.new ≡ with_findings found.now (held self.old) }
        ensures places { StayInPlace self.old self.new }
    {
        fill_diagnostics(self.diagnostics, found.diagnostics.as_slice());
        fill_diagnostics(self.deferred, found.deferred.as_slice());
        fill_comments(self.comments, found.comments.as_slice());
        fill_spans(self.irregular, found.irregular.as_slice());
        fill_spans(self.warnings, found.warnings.as_slice());
    }
}

impl JsCounts {
    /// No items, and no place.
    pub(crate) const NONE: JsCounts = JsCounts {
        tokens: 0,
        units: 0,
        diagnostics: 0,
        deferred: 0,
        comments: 0,
        irregular: 0,
        warnings: 0,
        place: 0,
    };

    /// Where a fault is.
    pub(crate) fn of_fault(fault: Fault) -> JsCounts
        ensures { result ≡ fault_counts fault }
    {
        JsCounts {
            place: fault.place(),
            ..JsCounts::NONE
        }
    }
}
