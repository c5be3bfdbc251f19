//! What ends a line.

ghost use Rattle.std.specs.Prelude.{◌≡◌};
ghost use Rattle.js_source.specs.Source.{rest};
ghost use Rattle.js_lines.specs.Lines.{begins_line_end, ends_line, is_line_end, opens_pair};

use js_source::Source;
use js_text::is_line_terminator;

/// What ends a line. A CR LF is one line end in each of these, and the line ends behind its LF.
#[derive(Clone, Copy, PartialEq, Eq, Debug)]
pub enum LineEnds {
    /// LF, CR, U+2028 and U+2029, the line terminators (ECMA-262 12.3).
    EcmaScript,
    /// LF alone, as programs that print a line's number count.
    LineFeeds,
    /// LF and CR, as the Language Server Protocol counts.
    LanguageServer,
}

impl LineEnds {
    /// Whether the character, which stands before those of the source, ends a line where no LF follows a CR.
    fn has(self, c: char) -> bool
        ensures { result ≡ is_line_end self c }
    {
        match self {
            LineEnds::EcmaScript => is_line_terminator(c),
            LineEnds::LineFeeds => c == '\n',
            LineEnds::LanguageServer => c == '\n' || c == '\r',
        }
    }

    /// Whether a line ends behind the character, which stands right before the source's place.
    pub(crate) fn ends_behind(self, c: char, behind: &Source<'_>) -> bool
        ensures { result ≡ ends_line self c (rest behind.now) }
    {
        self.has(c) && !opens_pair(c, behind)
    }

    /// Whether a line end begins with the character, which stands right before the source's place.
    pub(crate) fn begin_with(self, c: char, behind: &Source<'_>) -> bool
        ensures { result ≡ begins_line_end self c (rest behind.now) }
    {
        self.has(c) || opens_pair(c, behind)
    }
}

/// Whether the character is a CR, and the next one a LF.
fn opens_pair(c: char, behind: &Source<'_>) -> bool
    ensures { result ≡ opens_pair c (rest behind.now) }
{
    c == '\r' && behind.peek_byte() == Some(b'\n')
}
