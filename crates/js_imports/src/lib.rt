//! What a module imports and exports, by its tokens alone.
#![tactic(auto)]

mod class;
mod found;
mod imports;
mod moves;
mod opened;
mod scan;

pub use found::{Found, Role};
pub use imports::imports_of_source;
