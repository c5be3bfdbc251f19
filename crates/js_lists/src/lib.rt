//! What is live of a source, each token once, in order: where its goals are chosen, and of a list of commands, which may
//! strike some out again. Tokens are handed over as they are read, at the lexer's own speed, and no rows are made of them.
#![tactic(auto)]

mod chosen;
mod config;
mod follow;
mod hand;
mod lists;
mod names;
mod pending;
mod step;
mod steps;
mod take;
mod value;

pub use chosen::read_chosen;
pub use lists::{LiveLists, chosen_lists, session_lists};
pub use steps::read_steps;
pub use take::{TakeTokens, TokenValue};
