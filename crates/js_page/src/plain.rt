//! Plain characters, which are written as they are.

ghost use Rattle.std.specs.Prelude.{◌≡◌, ◌++◌, ◌≤◌, OnOk, length, string_bytes};
ghost use Rattle.js_source.specs.Runs.{TellsClass};
ghost use Rattle.js_source.specs.Source.{rest};
ghost use Rattle.js_page.specs.Lines.{is_plain, lines_behind, pieces_in};
ghost use Rattle.js_page.specs.Pieces.{bytes_of};

use crate::lines::Lines;
use js_source::{Source, of_each_byte};
use std::alloc::AllocError;

/// TAB, and from a space to `~` all but `"`, `&`, `'` and `<`.
macro_rules! is_plain {
    ($byte:literal) => {
        $byte == b'\t'
            || (b' ' <= $byte
                && $byte <= b'~'
                && $byte != b'"'
                && $byte != b'&'
                && $byte != b'\''
                && $byte != b'<')
    };
}

/// The plain characters of ASCII.
static PLAIN: [bool; 256] = of_each_byte!(is_plain);

/// The table of the plain characters of ASCII.
#[inline(always)]
fn plain_characters() -> &'static [bool; 256]
    ensures { TellsClass is_plain result.now }
{
    &PLAIN
}

/// Appends the plain characters that come next, all at once. Where a line ends before them, it appends none.
#[inline(always)]
pub(crate) fn push_plain(
    text: &mut String,
    lines: Lines,
    source: &mut Source<'_>,
) -> Result<(), AllocError>
    ensures lines { OnOk result (lines_behind lines (rest source.new) ≡ lines_behind lines (rest source.old)) }
    ensures text { OnOk result (string_bytes text.new ++ bytes_of (pieces_in lines (rest source.new))
        ≡ string_bytes text.old ++ bytes_of (pieces_in lines (rest source.old))) }
    ensures fewer { OnOk result (length (rest source.new) ≤ length (rest source.old)) }
{
    if lines.behind_return {
        return Ok(());
    }
    let start = source.position();
    source.pass_ascii(plain_characters());
    text.push_str(source.str_from_pos_to_current(start))?;
    Ok(())
}
