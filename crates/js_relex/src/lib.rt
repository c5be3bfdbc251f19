//! Documents that are edited: a text with the report of a list of commands over it, which is kept up to date.
#![tactic(auto)]

mod commands;
mod document;
mod drive;
mod edit;
mod fault;
mod gather;
mod join;
mod kept;
mod live;
mod outline;
mod outlined;
mod patch;

pub use document::{LexDoc, NotRelexed, relex, shift_of};
pub use edit::Edit;
pub use fault::RelexFault;
pub use gather::report_of_rows;
