//! Why there is no document.

/// Why there is no document of a text, or of an edit; the first cause is told.
#[derive(Clone, Copy, PartialEq, Eq, Debug)]
pub enum DocumentFault {
    /// The edit starts behind its end, or one of them is no place of the old text.
    BadEdit,
    /// The new text has more than `u32::MAX` bytes.
    Overlong,
    Memory,
}

/// Why one of several edits was not made.
#[derive(Clone, Copy, PartialEq, Eq, Debug)]
pub struct EditsFault {
    /// How many edits were made before it.
    pub made: usize,
    pub fault: DocumentFault,
}
