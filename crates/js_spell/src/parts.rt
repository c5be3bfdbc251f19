//! The table of the parts of names.

ghost use Rattle.js_text.specs.Characters.{is_identifier_part};
ghost use Rattle.js_source.specs.Runs.{TellsClass};

use js_source::of_each_byte;

/// Of ASCII characters, `is_identifier_part` of the grammar.
macro_rules! is_identifier_part {
    ($byte:literal) => {
        (b'0' <= $byte && $byte <= b'9')
            || (b'A' <= $byte && $byte <= b'Z')
            || (b'a' <= $byte && $byte <= b'z')
            || $byte == b'$'
            || $byte == b'_'
    };
}

/// The ASCII characters that are parts of names.
static PARTS: [bool; 256] = of_each_byte!(is_identifier_part);

/// The table of the ASCII characters that are parts of names.
#[inline(always)]
pub fn name_parts() -> &'static [bool; 256]
    ensures { TellsClass is_identifier_part result.now }
{
    &PARTS
}
