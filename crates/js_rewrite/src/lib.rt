//! What all have in common that write a source anew: with which commands they do, and why they do not.
#![tactic(auto)]

mod commands;
mod diagnosed;
mod fault;
mod sources;

pub use commands::first_bad;
pub use diagnosed::first_diagnosed;
pub use fault::RewriteFault;
pub use sources::{check, clean_report, report_anew};
