//! The program `totsenak` as a library: its words, the files that they name, and its statuses.
#![tactic(auto)]

mod collecting;
mod fault;
mod importing;
mod output;
mod program;
mod reading;
mod replacing;
mod rewriting;
mod showing;
mod telling;
mod words;

pub use program::{totsenak_main, totsenak_run};
