//! What the program `totsenak` does with the sources of JavaScript that it is given.
#![tactic(auto)]

mod check;
mod command;
mod escaped;
mod excerpt;
mod found;
mod index;
mod item_json;
mod item_lines;
mod items;
mod json;
pub mod laws;
mod members;
mod message;
mod place_json;
mod regex_json;
mod rewritten;
mod run;
mod shown;
mod shown_lines;
mod source_type;
mod stretch;
mod syntax;
mod tokens;
mod value_json;
mod values;

pub use check::{Told, check_source, check_text};
pub use command::{Command, Format, tell};
pub use found::findings_of_source;
pub use item_lines::{items_of_source, items_text};
pub use json::{push_json_string, push_json_text};
pub use message::{fault_in_words, push_message};
pub use rewritten::{Rewriting, Rewritten, rewrite_source};
pub use run::{CLEAN, FAULTY, NO_MEMORY, RunFault, UNTOLD, UNWRITABLE, status_of, tell_of_input};
pub use shown_lines::push_shown_lines;
pub use source_type::source_type_of;
pub use syntax::{Syntax, syntax_of};
pub use tokens::{tokens_of_source, tokens_text};
pub use value_json::push_value_json;
pub use values::{values_of_source, values_text};
