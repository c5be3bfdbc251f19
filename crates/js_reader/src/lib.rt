//! What a lexer reads at a place: gaps, and the token of each goal (ECMA-262 12, B.1.1, JSX).
#![tactic(auto)]

mod angle;
mod decoded;
mod findings;
mod findings_builder;
mod gap;
mod jsx;
mod lexeme;
mod pieces;
mod re_lex;
mod reader;
mod reading;
mod reading_start;
mod regex;
mod restart;
mod simple;
mod tables;

pub use decoded::DecodedValues;
pub use findings::Findings;
pub use findings_builder::{FindingsBuilder, FindingsLengths};
pub use reader::Reader;
pub use reading_start::ReadingStart;
pub use regex::RegexToken;
pub use simple::{GapEnd, pass_simple_gap, read_simple_name, read_simple_symbol};
pub use tables::ByteTables;
