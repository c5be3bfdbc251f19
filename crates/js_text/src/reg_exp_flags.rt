//! The flags of regular expressions.

ghost use Rattle.std.specs.Prelude.{⊤, ◌≡◌, [], ◌∷◌, codes};
ghost use Rattle.js_text.specs.RegExpFlags.{flag_bits, flag_of_letter};

use bitflags::{Flag, Flags, bitflag_items};

/// A set of flags of a regular expression, one bit each (ECMA-262 22.2.6).
#[derive(Clone, Copy, PartialEq, Eq, Debug)]
pub struct RegExpFlags(u8);

bitflag_items! {
    impl RegExpFlags: u8 {
        const G = 1;
        const I = 2;
        const M = 4;
        const S = 8;
        const U = 16;
        const Y = 32;
        const D = 64;
        const V = 128;
    }
}

impl Flags for RegExpFlags {
    type Bits = u8;

    ghost exact = { ⊤ };

    ghost table = { (codes "G", 1) ∷ (codes "I", 2) ∷ (codes "M", 4) ∷ (codes "S", 8) ∷ (codes "U", 16) ∷ (codes "Y", 32)
        ∷ (codes "D", 64) ∷ (codes "V", 128) ∷ [] };

    ghost set_of = { flag_bits };

    fn flags<'a>() -> &'a [Flag<RegExpFlags>] {
        RegExpFlags::FLAGS
    }

    fn bits(&self) -> u8 {
        self.0
    }

    fn from_bits_retain(bits: u8) -> RegExpFlags {
        RegExpFlags(bits)
    }
}

impl RegExpFlags {
    /// The flag of an ASCII letter.
    pub fn of_letter(b: u8) -> Option<RegExpFlags>
        ensures { result ≡ flag_of_letter b }
    {
        match b {
            b'g' => Some(RegExpFlags::G),
            b'i' => Some(RegExpFlags::I),
            b'm' => Some(RegExpFlags::M),
            b's' => Some(RegExpFlags::S),
            b'u' => Some(RegExpFlags::U),
            b'y' => Some(RegExpFlags::Y),
            b'd' => Some(RegExpFlags::D),
            b'v' => Some(RegExpFlags::V),
            _ => None,
        }
    }
}

/// What is known of a regular expression beside its token.
#[derive(Clone, Copy, PartialEq, Eq, Debug)]
pub struct RegexInfo {
    /// Where its pattern ends, as an offset in bytes.
    pub pattern_end: u32,
    pub flags: RegExpFlags,
    /// Whether a flag is unknown or stands twice.
    pub flags_error: bool,
}
