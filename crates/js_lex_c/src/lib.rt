//! The lexer for programs in other languages: a static library, whose calls C can make.
//!
//! A call fills lists of its caller, and keeps nothing. `include/js_lex.h` tells C the same.
#![tactic(auto)]

mod calls;
mod document_fill;
mod document_number;
mod document_record;
mod documents;
mod fault;
mod fill;
mod filler;
mod from_document;
mod held_document;
mod lex;
mod names;
mod number;
mod put;
mod record;
mod refusal;
mod token;

pub use calls::{js_lex_auto, js_lex_count, js_lex_steps};
pub use document_record::{JsChange, JsLiveToken, JsLiveValue, JsPosition, JsRange};
pub use documents::{
    js_document_changed, js_document_comments, js_document_diagnostics, js_document_edit,
    js_document_free, js_document_lines, js_document_new, js_document_offset, js_document_position,
    js_document_token_at, js_document_tokens, js_document_value_at, js_document_values,
};
pub use fill::{JsCounts, JsLists};
pub use names::{js_lex_content_name, js_lex_diagnostic_name, js_lex_kind_name};
pub use record::{JsComment, JsDiagnostic, JsSpan, JsToken};
