//! What the parts of the parser share: the cursor, and the nodes of single tokens.

ghost use Rattle.std.specs.Prelude.{◌≡◌, ◌≤◌, ◌<◌, ◌^◌, true, OnOk};
ghost use Rattle.std.specs.Option.{is_some};
ghost use Rattle.js_cursor.specs.Cursor.{StartsLater};

use crate::node::NodeKind;
use crate::tree::Trees;
use js_cursor::{Cursor, CursorDiagnostic};
use js_kind::RuntimeLexerConfig;
use js_text::Span;
use std::alloc::AllocError;

/// A cursor over what this program parses.
pub(crate) type Tokens<'a> = Cursor<'a, RuntimeLexerConfig>;

/// The number of the error that what stands before an `=` cannot be assigned to.
pub(crate) const BAD_TARGET: u32 = 1;

/// The number of the error that no expression stands where one is wanted.
pub(crate) const NO_EXPRESSION: u32 = 2;

/// The number of the error that a token was left out of the trees.
pub(crate) const LEFT_OUT: u32 = 3;

/// Adds a root that ends where the token before the current one did.
pub(crate) fn close(
    cursor: &Tokens<'_>,
    trees: &mut Trees<'_>,
    mark: usize,
    kind: NodeKind,
    start: u32,
) -> Result<(), AllocError>
    ensures { trees.new.text ≡ trees.old.text }
{
    trees.close(
        mark,
        kind,
        Span {
            start,
            end: cursor.previous_end(),
        },
    )
}

/// Takes the current token as a name.
pub(crate) fn name(cursor: &mut Tokens<'_>, trees: &mut Trees<'_>) -> Result<(), AllocError>
    ensures onward { cursor.old.token.start ≤ cursor.new.token.start }
    ensures starts { OnOk result (StartsLater cursor.old cursor.new) }
    ensures short { cursor.old.token.start < 2 ^ 32 }
    ensures text { trees.new.text ≡ trees.old.text }
{
    let start = cursor.cur_start();
    cursor.bump_any()?;
    close(cursor, trees, trees.mark(), NodeKind::Name, start)
}

/// Stops the parser at the current token, by the error of the number, unless an error did so before.
#[tactic(auto, using(crate::proofs::Stops::is_stopped))]
pub(crate) fn stop(cursor: &mut Tokens<'_>, code: u32)
    ensures onward { cursor.old.token.start ≤ cursor.new.token.start }
    ensures stopped { is_some cursor.new.fatal ≡ true }
{
    let span = cursor.cur_span();
    cursor.set_fatal_error(CursorDiagnostic::Parser { code, span });
}
