//! Pages of HTML that show a source: how its tokens, comments and faults are written, and what a reader of HTML sees.
#![tactic(auto)]

mod character;
mod class;
mod lines;
mod plain;
mod title;
mod whole;
mod writing;

pub use class::Class;
pub use whole::{PAGE_END, STYLE, page_head};
pub use writing::{Fault, with_fragment};
