//! The token cursor: what a parser holds of its source. It has the current token, the place where the token before it
//! ended, the parser's own errors, and a fatal error that stops everything; it speculates without a trace, and reads
//! lists.
#![tactic(auto)]

mod ahead;
mod checkpoint;
mod cursor;
mod diagnostic;
mod element;
mod fault;
pub mod laws;
mod list_step;
mod predicate;

pub use ahead::{AreNext, IsNext, IsNextOnSameLine};
pub use checkpoint::ParserCheckpoint;
pub use cursor::Cursor;
pub use diagnostic::{CursorDiagnostic, FatalError};
pub use element::{Element, FallibleElement};
pub use fault::{CursorFault, ListFault};
pub use list_step::ListStep;
pub use predicate::Predicate;
