//! What the steps of a reading work on.

use crate::tables::ByteTables;
use js_source::Source;
use js_text::SourceType;
use std::alloc::Global;

/// The source and its type, and whether a line has ended before the place where it stands.
#[derive(Drop)]
pub struct Reader<'a> {
    pub source: Source<'a>,
    pub source_type: SourceType,
    pub tables: ByteTables,
    pub line_has_ended: bool,
    pub alloc: Global,
}
