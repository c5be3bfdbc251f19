//! Tables of bytes: the ASCII characters of a class.

ghost use Rattle.js_text.specs.Characters.{is_identifier_part, is_identifier_start};
ghost use Rattle.js_source.specs.Runs.{TellsClass};
ghost use Rattle.js_reader.specs.Tables.{is_blank, is_symbol};

use js_source::of_each_byte;
use js_spell::name_parts;

/// Of ASCII characters, `is_identifier_start` of the grammar.
macro_rules! is_identifier_start {
    ($byte:literal) => {
        (b'A' <= $byte && $byte <= b'Z')
            || (b'a' <= $byte && $byte <= b'z')
            || $byte == b'$'
            || $byte == b'_'
    };
}

/// TAB or SP.
macro_rules! is_blank {
    ($byte:literal) => {
        $byte == b'\t' || $byte == b' '
    };
}

/// Above SP, and no character that a comment may begin with.
macro_rules! is_symbol {
    ($byte:literal) => {
        b' ' < $byte && $byte < 128 && $byte != b'-' && $byte != b'/' && $byte != b'<'
    };
}

/// The ASCII characters that begin names; not `\`, which begins an escape.
static STARTS: [bool; 256] = of_each_byte!(is_identifier_start);

/// TAB and SP.
static BLANKS: [bool; 256] = of_each_byte!(is_blank);

/// The ASCII characters above SP but `-`, `/` and `<`: no piece of a gap begins with one.
static SYMBOLS: [bool; 256] = of_each_byte!(is_symbol);

/// The table of the ASCII characters that begin names.
#[inline(always)]
pub fn starts() -> &'static [bool; 256]
    ensures { TellsClass is_identifier_start result.now }
{
    &STARTS
}

/// The table of TAB and SP.
#[inline(always)]
pub fn blanks() -> &'static [bool; 256]
    ensures { TellsClass is_blank result.now }
{
    &BLANKS
}

/// The table of ASCII characters that begin no piece of a gap.
#[inline(always)]
pub fn symbols() -> &'static [bool; 256]
    ensures { TellsClass is_symbol result.now }
{
    &SYMBOLS
}

/// The tables of bytes that a reading looks in.
#[derive(Drop)]
pub struct ByteTables {
    /// The ASCII characters that begin names. The tables stand here, and not where they are made, since a loop over a
    /// table in a static takes its address anew at every few bytes.
    pub starts: [bool; 256],
    /// The ASCII characters that are parts of names.
    pub parts: [bool; 256],
    /// TAB and SP.
    pub blanks: [bool; 256],
    /// The ASCII characters that begin no piece of a gap.
    pub symbols: [bool; 256],
    ghost name_starts: { TellsClass is_identifier_start starts },
    ghost name_parts: { TellsClass is_identifier_part parts },
    ghost gap_blanks: { TellsClass is_blank blanks },
    ghost gap_ends: { TellsClass is_symbol symbols },
}

impl ByteTables {
    /// All tables.
    pub fn new() -> ByteTables {
        ByteTables {
            starts: *starts(),
            parts: *name_parts(),
            blanks: *blanks(),
            symbols: *symbols(),
        }
    }
}
