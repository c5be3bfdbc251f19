//! The lines of a text that is edited again and again, kept up to date by each edit at the cost of its own size.
#![tactic(auto)]

mod content;
mod edited;
mod starts;

pub use edited::EditedLines;
