//! The lines of a text: where each begins and ends, and places of the text by line and column.
#![tactic(auto)]

mod columns;
mod cursor;
mod line_ends;
mod table;

pub use columns::{ColumnUnit, Position};
pub use cursor::LineCursor;
pub use line_ends::LineEnds;
pub use table::{LineTable, Located};
