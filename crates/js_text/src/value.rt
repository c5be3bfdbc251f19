//! The values of tokens.

ghost use Rattle.std.specs.Prelude.{◌≡◌, IfOk};

use crate::js_str::JSStr;
use crate::span::Span;
use std::alloc::{AllocError, Global};

/// The value of a token.
#[derive(PartialEq, Eq, Debug, Drop)]
pub enum RowValue {
    /// A token of a kind that has no value.
    Nothing,
    /// This stretch of the source, in bytes.
    Slice(Span),
    /// These UTF-16 units, since the spelling has escapes, or a CR in a template.
    Units(JSStr),
    /// A part of a template with an escape that stands for nothing.
    Bad,
}

impl RowValue {
    /// An equal value.
    pub fn copy(&self, alloc: Global) -> Result<RowValue, AllocError>
        ensures { IfOk result (λ value. value ≡ self.now) }
    {
        match self {
            RowValue::Nothing => Ok(RowValue::Nothing),
            RowValue::Slice(span) => Ok(RowValue::Slice(*span)),
            RowValue::Units(text) => Ok(RowValue::Units(text.copy(alloc)?)),
            RowValue::Bad => Ok(RowValue::Bad),
        }
    }
}
