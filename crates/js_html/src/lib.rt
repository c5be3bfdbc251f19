//! Sources as pages of HTML: each token and each comment of their reports in an element of its own.
#![tactic(auto)]

mod faults;
mod source;

pub use source::{Form, html_of_source};
