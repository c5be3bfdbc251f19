//! Sessions whose goals are chosen by the tokens that were read, for who has a source and no parser.
#![tactic(auto)]

mod auto;
mod brace;
mod chooser;
pub mod laws;
mod notable;

pub use auto::auto_session;
pub use chooser::GoalChooser;
pub use js_choose::{ChoiceFault as AutoFault, Chosen as Auto};
