//! The choice of goals where there is JSX, by the tokens that were read: a chooser, and sessions with it.
#![tactic(auto)]

mod change;
mod chooser;
mod class;
mod idle;
mod jsx;
mod kept;
pub mod laws;
mod open_scopes;
mod read_scopes;
mod scope;
mod stack;
mod state;
mod step;

pub use change::TagPlace;
pub use chooser::JsxChooser;
pub use js_choose::{ChoiceFault as JsxFault, Chosen as Jsx};
pub use jsx::jsx_session;
pub use read_scopes::ReadScopes;
pub use scope::Scope;
pub use state::StateView;
pub use step::{ScopesChange, StateStep};
