//! The program `js_parse_example` as a library: a parser of a small part of JavaScript, which stands on a cursor, and
//! what is printed of its trees.
#![tactic(auto)]

mod arrow;
mod brackets;
mod cover;
mod draw;
mod expression;
mod fault;
mod node;
mod operand;
mod operator;
mod parse;
mod program;
mod show;
mod statement;
mod step;
mod tokens;
mod tree;

pub use program::parse_program;
