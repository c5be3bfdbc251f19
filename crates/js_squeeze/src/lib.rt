//! Sources without comments, and with no more white space than their tokens need; the tokens are the same.
#![tactic(auto)]

mod separator;
mod space;
mod squeezed_text;
mod squeezing;

pub use js_rewrite::RewriteFault as SqueezeFault;
pub use squeezing::{Squeezed, squeeze};
