//! What comes next in a list.

/// What stands behind an element of a list with separators.
#[derive(Clone, Copy, PartialEq, Eq, Debug)]
pub enum ListStep {
    /// The next element: a separator was passed.
    Element,
    /// The end of the list, with the offset, in bytes, of the last byte of a separator that stands before it.
    End(Option<u32>),
}
