//! The lexical grammar of JavaScript: its definitions, the laws that hold of them alone, and the goals of reading.
#![tactic(auto)]

mod goal;
pub mod laws;

pub use goal::{Goal, is_re_lexed, spelled_length};
