//! Why there is no document.

/// Why there is no document of a text, or of an edit; the first cause is told.
#[derive(Clone, Copy, PartialEq, Eq, Debug)]
pub enum RelexFault {
    /// The edit starts behind its end, or one of them is no place of the old text.
    BadEdit,
    /// The new text has more than `u32::MAX` bytes.
    Overlong,
    /// This command, from 0 on, is the first that only a session may be given: a peek, or one of marks.
    BadCommand(usize),
    Memory,
}
