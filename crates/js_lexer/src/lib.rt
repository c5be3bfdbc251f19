//! The lexer: readings of each goal, tokens that are read again, peeks and checkpoints (ECMA-262 12, B.1.1, JSX).
#![tactic(auto)]

mod checkpoint;
pub mod laws;
mod lexer;
mod token_text;

pub use checkpoint::LexerCheckpoint;
pub use js_reader::{Findings, RegexToken};
pub use lexer::{Lexer, NewFault};
pub use token_text::{is_template, is_valued, text_span};
