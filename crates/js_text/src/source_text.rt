//! Texts that are built up.

ghost use Rattle.std.specs.Prelude.{◌≡◌, [], ◌++◌, length, OnOk, OnErr};

use std::alloc::{AllocError, Global};
use std::marker::Model;

/// A growing text, seen as its bytes. It keeps its allocator.
#[derive(Drop)]
pub struct SourceText {
    text: String,
}

impl Model for SourceText {
    ghost use Rattle.std.specs.Prelude.{ℕ, List, string_bytes};

    ghost Value = { List ℕ };

    ghost view = { λ t. string_bytes t.text };
}

impl SourceText {
    /// An empty text. It needs no memory yet.
    pub fn new_in(alloc: Global) -> SourceText
        ensures { result ≡ [] }
    {
        SourceText {
            text: String::new(alloc),
        }
    }

    /// Adds a text at the end. Where there is no memory for it, the text stays as it was.
    pub fn push_str(&mut self, s: &str) -> Result<(), AllocError>
        ensures ok { OnOk result (self.new ≡ self.old ++ s.now) }
        ensures err { OnErr result (self.new ≡ self.old) }
    {
        self.text.push_str(s)
    }

    /// The text so far.
    pub fn as_str(&self) -> &str
        ensures { result.now ≡ self.now }
    {
        self.text.as_str()
    }

    /// The length in bytes.
    pub fn len(&self) -> usize
        ensures { result ≡ length self.now }
    {
        self.text.len()
    }
}
