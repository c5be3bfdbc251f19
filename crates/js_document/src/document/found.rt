//! What the rows of a document found.

ghost use Rattle.std.specs.Prelude.{◌≡◌};

use super::Document;
use crate::found::{Comments, Deferred, Diagnostics, Found, Irregular, Warnings};
use crate::keep::KeepGoals;

impl<K: KeepGoals> Document<K> {
    /// What the readings reported.
    pub fn diagnostics(&self) -> Found<'_, K, Diagnostics>
        ensures { result ≡ self.now.report.diagnostics }
    {
        Found::new(&self.entries)
    }

    /// What they reported for the case that the source is a module.
    pub fn deferred(&self) -> Found<'_, K, Deferred>
        ensures { result ≡ self.now.report.deferred }
    {
        Found::new(&self.entries)
    }

    /// The comments.
    pub fn comments(&self) -> Found<'_, K, Comments>
        ensures { result ≡ self.now.report.comments }
    {
        Found::new(&self.entries)
    }

    /// The irregular white space.
    pub fn irregular(&self) -> Found<'_, K, Irregular>
        ensures { result ≡ self.now.report.irregular }
    {
        Found::new(&self.entries)
    }

    /// What the readings warned of.
    pub fn warnings(&self) -> Found<'_, K, Warnings>
        ensures { result ≡ self.now.report.warnings }
    {
        Found::new(&self.entries)
    }
}
