//! What is told of the cases of an input.

use js_document::{Change, ChangedRange};
use std::alloc::{AllocError, Global};
use std::fmt::Write;

/// What is told of cases: a line for each change and for each thing that is wrong, and one of how much was done. Cases,
/// and the edits of each, are counted from 0.
#[derive(Drop)]
pub struct Told {
    text: String,
    is_right: bool,
    /// The case that is replayed.
    case: u64,
    /// How many rows the edits read.
    rows: u64,
}

impl Told {
    /// Nothing is told yet.
    pub fn new(alloc: Global) -> Told {
        Told {
            text: String::new(alloc),
            is_right: true,
            case: 0,
            rows: 0,
        }
    }

    /// The lines.
    pub fn text(&self) -> &str {
        self.text.as_str()
    }

    /// Whether nothing is wrong.
    pub fn is_right(&self) -> bool {
        self.is_right
    }

    /// The case with this number is replayed from now on.
    pub fn begin_case(&mut self, case: u64) {
        self.case = case;
    }

    /// Tells which items of a list went, and which came.
    fn add_range(&mut self, list: &str, range: &ChangedRange) -> Result<(), AllocError> {
        let (start, old_end, new_end) = (range.start, range.old_end, range.new_end);
        write!(
            self.text,
            ", {list} {start}..{old_end} to {start}..{new_end}"
        )
    }

    /// Tells what the edit with this number changed.
    pub fn add_change(&mut self, edit: u32, change: &Change) -> Result<(), AllocError> {
        let case = self.case;
        let (kept, read) = (change.kept_rows, change.read_rows);
        self.rows = self.rows.saturating_add(read as u64);
        write!(
            self.text,
            "case {case}, edit {edit}: kept {kept}, read {read}"
        )?;
        self.add_range("tokens", &change.tokens)?;
        self.add_range("comments", &change.comments)?;
        self.add_range("diagnostics", &change.diagnostics)?;
        self.text.push_str("\n")
    }

    /// Tells what is wrong of the case.
    pub fn add_case(&mut self, what: &str) -> Result<(), AllocError> {
        self.is_right = false;
        let case = self.case;
        writeln!(self.text, "case {case}: {what}")
    }

    /// Tells what is wrong of the edit with this number.
    pub fn add(&mut self, edit: u32, what: &str) -> Result<(), AllocError> {
        self.is_right = false;
        let case = self.case;
        writeln!(self.text, "case {case}, edit {edit}: {what}")
    }

    /// Tells how many cases there were, and how many rows were read.
    pub fn end(&mut self) -> Result<(), AllocError> {
        let cases = self.case;
        let rows = self.rows;
        writeln!(self.text, "{cases} cases, {rows} rows read")
    }
}
