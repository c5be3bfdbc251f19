//! What all have in common that choose goals by the tokens that were read: choosers, and sessions with them.
#![tactic(auto)]

mod choose;
mod fault;
pub mod laws;
mod operand;
mod session;

pub use choose::ChooseGoals;
pub use fault::ChoiceFault;
pub use operand::ends_operand;
pub use session::{Chosen, choose_session};
