//! What the numbers that C passes of a document stand for.

ghost use Rattle.std.specs.Prelude.{◌≡◌, ◌≤◌, MatchOption};
ghost use Rattle.js_lex_c.specs.DocumentNumbers.{column_unit_count, column_unit_number, goals_count, goals_number};
ghost use Rattle.js_lex_c.specs.DocumentNumbers.{line_ends_count, line_ends_number};

use js_document_c::Goals;
use js_lines::{ColumnUnit, LineEnds};

/// The rule that chooses goals, of a number.
pub(crate) fn goals_of(number: u32) -> Option<Goals>
    ensures { MatchOption result (goals_count ≤ number) (λ goals. number ≡ goals_number goals) }
{
    match number {
        0 => Some(Goals::Auto),
        1 => Some(Goals::Jsx),
        _ => None,
    }
}

/// The line ends of a number.
pub(crate) fn line_ends_of(number: u32) -> Option<LineEnds>
    ensures { MatchOption result (line_ends_count ≤ number) (λ ends. number ≡ line_ends_number ends) }
{
    match number {
        0 => Some(LineEnds::EcmaScript),
        1 => Some(LineEnds::LineFeeds),
        2 => Some(LineEnds::LanguageServer),
        _ => None,
    }
}

/// The unit of columns of a number.
pub(crate) fn column_unit_of(number: u32) -> Option<ColumnUnit>
    ensures { MatchOption result (column_unit_count ≤ number) (λ unit. number ≡ column_unit_number unit) }
{
    match number {
        0 => Some(ColumnUnit::Bytes),
        1 => Some(ColumnUnit::Characters),
        2 => Some(ColumnUnit::Utf16Units),
        _ => None,
    }
}
