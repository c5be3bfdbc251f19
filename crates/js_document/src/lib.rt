//! Documents that choose their goals, for editors: a text with its tokens, which edits keep up to date.
#![tactic(auto)]

mod auto_state;
mod blocks;
mod change;
mod counts;
mod document;
mod edit;
mod edited;
mod fault;
mod found;
mod gap;
mod gather;
mod join;
mod jsx_state;
mod keep;
mod linked_scopes;
mod open;
mod placed;
mod read;
mod tokens;
mod values;

pub use auto_state::AutoState;
pub use change::{Change, ChangedRange};
pub use document::Document;
pub use fault::{DocumentFault, EditsFault};
pub use found::{Comments, Deferred, Diagnostics, Found, FoundList, Irregular, Warnings};
pub use js_relex::Edit;
pub use jsx_state::JsxState;
pub use keep::KeepGoals;
pub use open::OpenTrie;
pub use placed::Placed;
pub use tokens::Tokens;
pub use values::Values;
