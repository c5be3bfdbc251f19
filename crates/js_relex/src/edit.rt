//! Edits of a text.

ghost use Rattle.std.specs.Prelude.{◌≡◌, ◌↔◌, IsTrue, IfOk};
ghost use Rattle.js_relex.specs.Documents.{IsEdit, edited};

use js_text::SourceText;
use std::alloc::{AllocError, Global};

/// A change of a text: the bytes from `start` up to `end` become `text`.
#[derive(Clone, Copy)]
pub struct Edit<'t> {
    pub start: u32,
    pub end: u32,
    pub text: &'t str,
}

impl Edit<'_> {
    /// Whether the edit is one of the text: its start and its end, in order, are places of the text.
    pub fn is_of(&self, text: &str) -> bool
        ensures { IsTrue result ↔ IsEdit text.now self.now.start self.now.end }
    {
        if self.start > self.end {
            return false;
        }
        if !text.is_char_boundary(self.start as usize) {
            return false;
        }
        text.is_char_boundary(self.end as usize)
    }

    /// The text with the edit made.
    pub fn made_in(&self, alloc: Global, text: &str) -> Result<SourceText, AllocError>
        requires { IsEdit text.now self.now.start self.now.end }
        ensures { IfOk result (λ new. new ≡ edited text.now self.now.start self.now.end self.now.text.now) }
    {
        let mut new = SourceText::new_in(alloc);
        new.push_str(&text[..self.start as usize])?;
        new.push_str(self.text)?;
        new.push_str(&text[self.end as usize..])?;
        Ok(new)
    }
}
