//! The names and texts of kinds.

ghost use Rattle.std.specs.Prelude.{◌≡◌, Some};
ghost use Rattle.std.specs.Fmt.{styled_text};
ghost use Rattle.js_kind.specs.Kinds.{kind_name, kind_text};

use crate::kind::Kind;
use std::fmt;

impl Kind {
    /// The name of the kind: that of its variant, but `Type` for `TypeKw`.
    pub fn name(self) -> &'static str
        ensures { result.now ≡ kind_name self }
    {
        self.row().name
    }

    /// The text of a word or a punctuator, and a short description of any other kind.
    pub fn to_str(self) -> &'static str
        ensures { result.now ≡ kind_text self }
    {
        self.row().text
    }
}

impl fmt::Display for Kind {
    ghost output = { λ k. Some (kind_text k) };

    ghost styled_output = { λ k s. Some (styled_text s (kind_text k)) };

    fn fmt<W: fmt::Write>(&self, f: &mut fmt::Formatter<W>) -> fmt::Result {
        self.to_str().fmt(f)
    }
}
