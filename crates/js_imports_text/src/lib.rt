//! What a module imports and exports as text: a line for each, for people or as JSON.
#![tactic(auto)]

mod json;
mod lines;
mod place;
mod told;
mod value;

pub use json::imports_json;
pub use lines::imports_lines;
pub use told::{tell_imports, tell_imports_by};
