//! Texts of tokens: as the source spells them, or decoded.

use crate::js_str::JSStr;

/// A text that stands in the source as it is, or one that was decoded. Contracts see the units of either.
#[derive(Clone, Copy, Drop)]
pub enum JsText<'t> {
    /// This stretch of the source.
    Source(&'t str),
    /// A text whose spelling has escapes.
    Decoded(&'t JSStr),
}

/// The value of a part of a template.
#[derive(Clone, Copy, Drop)]
pub enum TemplateValue<'t> {
    /// What its characters and escapes stand for.
    Text(JsText<'t>),
    /// None: it has an escape that stands for nothing.
    Bad,
}
