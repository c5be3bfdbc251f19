//! Line ends beside a comment.

ghost use Rattle.std.specs.Prelude.{⊤, ◌≡◌, [], ◌∷◌, codes};
ghost use Rattle.js_text.specs.CommentNewlines.{newline_bits, newlines_of};

use bitflags::{Flag, Flags, bitflag_items};

/// On which sides of a comment lines end, one bit each.
#[derive(Clone, Copy, PartialEq, Eq, Debug)]
pub struct CommentNewlines(u8);

bitflag_items! {
    impl CommentNewlines: u8 {
        const LEADING = 1;
        const TRAILING = 2;
    }
}

impl Flags for CommentNewlines {
    type Bits = u8;

    ghost exact = { ⊤ };

    ghost table = { (codes "LEADING", 1) ∷ (codes "TRAILING", 2) ∷ [] };

    ghost set_of = { newline_bits };

    fn flags<'a>() -> &'a [Flag<CommentNewlines>] {
        CommentNewlines::FLAGS
    }

    fn bits(&self) -> u8 {
        self.0
    }

    fn from_bits_retain(bits: u8) -> CommentNewlines {
        CommentNewlines(bits)
    }
}

impl CommentNewlines {
    /// The set of the sides where lines end: before the comment, after it.
    pub(crate) fn of_sides(preceded: bool, followed: bool) -> CommentNewlines
        ensures { result ≡ newlines_of preceded followed }
    {
        match (preceded, followed) {
            (false, false) => CommentNewlines(0),
            (true, false) => CommentNewlines::LEADING,
            (false, true) => CommentNewlines::TRAILING,
            (true, true) => CommentNewlines(3),
        }
    }
}
