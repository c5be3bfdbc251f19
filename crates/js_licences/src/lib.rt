//! The licences of sources: each comment that tells of one, once, with the places where it stands.
#![tactic(auto)]

mod classes;
pub mod laws;
mod licences;
mod sources;
mod told;

pub use classes::holds_licence;
pub use licences::{Licence, Licences, Place};
pub use told::{licences_json, licences_text};
