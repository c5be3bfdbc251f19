//! Documents with their lines, as programs in C hold them: the crate js_lex_c has the calls.
#![tactic(auto)]

mod chosen;
mod handle;
mod held;

pub use chosen::{ChosenDocument, Goals};
pub use handle::JsDocument;
pub use held::HeldDocument;
