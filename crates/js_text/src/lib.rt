//! What every layer speaks of: spans, source types, diagnostics, comments, lists and characters.
#![tactic(auto)]

mod boolean;
mod characters;
mod comment;
mod comment_newlines;
mod diagnostic;
mod js_str;
mod js_text;
mod list;
mod reg_exp_flags;
mod source_text;
mod source_type;
mod span;
mod value;

pub use boolean::either;
pub use characters::{
    is_identifier_part, is_identifier_start, is_irregular_whitespace, is_line_terminator,
    is_white_space,
};
pub use comment::{Comment, CommentContent, CommentKind, CommentPosition, CommentRange};
pub use comment_newlines::CommentNewlines;
pub use diagnostic::Diagnostic;
pub use js_str::{JSStr, JSStrBuilder};
pub use js_text::{JsText, TemplateValue};
pub use list::{ByteList, CommentList, DiagnosticList, ItemList, SpanList};
pub use reg_exp_flags::{RegExpFlags, RegexInfo};
pub use source_text::SourceText;
pub use source_type::SourceType;
pub use span::Span;
pub use value::RowValue;
