//! Lists whose places are reserved beforehand, in memory of their own.
#![tactic(auto)]

mod block;
mod raw;
mod reserved_list;

#[doc(hidden)]
pub use block::Block;
#[doc(hidden)]
pub use raw::{Base, Deed};
pub use reserved_list::ReservedList;
