//! A loop of a parser's own, which ends by a law of the cursor.

use crate::script::TestCursor;
use js_cursor::laws::what_leads_on_leaves_less;
use js_kind::Kind;
use std::alloc::AllocError;

/// How many names stand before a `}`, and whether that is all: a round that passes none is stuck.
pub(crate) fn normal_steps(cursor: &mut TestCursor<'_>) -> Result<(usize, bool), AllocError> {
    what_leads_on_leaves_less();
    let mut count = 0usize;
    'elements: while cursor.normal_list_goes_on(Kind::RCurly) {
        let start = cursor.cur_start();
        cursor.bump(Kind::Ident)?;
        if cursor.is_stuck_at(start) {
            return Ok((count, false));
        }
        count = count.saturating_add(1);
    }
    Ok((count, true))
}
