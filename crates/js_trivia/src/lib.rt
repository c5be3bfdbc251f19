//! Comments and irregular white space between tokens, and the tokens that comments belong to.
#![tactic(auto)]

mod attaching;
mod classes;
mod kinds;
pub mod laws;
mod lengths;
mod marks;
mod order;
mod trivia_builder;

pub use classes::classify;
pub use kinds::can_end_expression;
pub use lengths::TriviaLengths;
pub use trivia_builder::TriviaBuilder;
