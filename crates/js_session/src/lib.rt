//! Sessions: a lexer, driven by a list of commands, with a row for each step.
#![tactic(auto)]

mod command;
mod fault;
pub mod laws;
mod lex;
mod mark;
mod mark_list;
mod re_lex;
mod read;
mod report;
mod rooms;
mod row;
mod row_list;
mod session;
mod shift;
mod shift_fits;
mod shift_in_place;
mod steps;
mod whole_source;

pub use command::{Command, CommandList, Effect};
pub use fault::{LexFault, checked_text, utf8_text};
pub use js_lexer::NewFault;
pub use js_text::{RegexInfo, RowValue};
pub use lex::lex_session;
pub use re_lex::{LastRead, read_again};
pub use report::Report;
pub use row::Row;
pub use row_list::RowList;
pub use session::Session;
pub use shift::Shift;
pub use steps::Steps;
pub use whole_source::lex_all;
