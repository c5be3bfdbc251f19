//! A boxed value, or none, in the room of one pointer.
#![tactic(auto)]

mod loose;
mod optional_box;

pub use loose::Loose;
pub use optional_box::OptionalBox;
