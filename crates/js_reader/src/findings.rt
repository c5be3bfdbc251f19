//! What readings find.

ghost use Rattle.std.specs.Prelude.{◌≡◌, ◌≤◌, length, drop, IfOk};
ghost use Rattle.js_grammar.specs.Outcome.{no_findings};

use js_text::{CommentList, DiagnosticList, ItemList, SpanList};
use std::alloc::{AllocError, Global};
use std::marker::Model;

/// What readings find beside their tokens, each list in the order of the text.
#[derive(Drop)]
pub struct Findings {
    /// What was reported.
    pub diagnostics: DiagnosticList,
    /// What was reported for the case that the source is a module.
    pub deferred: DiagnosticList,
    pub comments: CommentList,
    /// Irregular white space.
    pub irregular: SpanList,
    /// What was warned of: each `>` in the text of JSX.
    pub warnings: SpanList,
}

impl Model for Findings {
    ghost use Rattle.js_grammar.specs.Outcome.{Findings};

    ghost Value = { Findings };

    ghost view = { λ f. record {
      diagnostics = f.diagnostics;
      deferred = f.deferred;
      comments = f.comments;
      irregular = f.irregular;
      warnings = f.warnings;
    } };
}

impl Findings {
    /// Nothing is found. It needs no memory.
    pub fn new_in(alloc: Global) -> Findings
        ensures { result ≡ no_findings }
    {
        Findings {
            diagnostics: DiagnosticList::new_in(alloc),
            deferred: DiagnosticList::new_in(alloc),
            comments: CommentList::new_in(alloc),
            irregular: SpanList::new_in(alloc),
            warnings: SpanList::new_in(alloc),
        }
    }
}

/// Copies of the items from an index on.
pub fn items_from<T: Copy + Drop>(
    alloc: Global,
    items: &[T],
    from: usize,
) -> Result<ItemList<T>, AllocError>
    requires { from ≤ length items.now }
    ensures { IfOk result (λ list. list ≡ drop from items.now) }
{
    ItemList::from_slice(alloc, &items[from..])
}
