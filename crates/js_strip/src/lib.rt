//! Sources without their comments, whose tokens are the same.
#![tactic(auto)]

mod stripping;
mod without_comments;

pub use js_rewrite::RewriteFault as StripFault;
pub use stripping::{Stripped, strip};
