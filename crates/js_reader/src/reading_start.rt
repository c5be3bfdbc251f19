//! Where readings begin, and the way back.

ghost use Rattle.js_source.specs.Source.{GoesTo};
ghost use Rattle.std.specs.Prelude.{◌≡◌, []};
ghost use Rattle.std.specs.Str.{IsCharBoundary};
ghost use Rattle.js_trivia.specs.Trivia.{AreRangesUpTo};
ghost use Rattle.js_reader.specs.Found.{HasFound, found_up_to, start_of};

use crate::findings_builder::{FindingsBuilder, FindingsLengths};
use js_source::{Source, SourcePosition};

/// Where a reading begins that may have to go back, and how much was found before it.
#[derive(Drop)]
pub struct ReadingStart {
    pub found: FindingsLengths,
    pub position: SourcePosition,
}

impl ReadingStart {
    /// The start of a reading between two gaps.
    #[inline(always)]
    pub fn of(source: &Source<'_>, found: &FindingsBuilder) -> ReadingStart
        requires { found.now.trivia.attachment.pending ≡ [] }
        ensures start { result ≡ start_of source.now found.now }
        ensures ranges { AreRangesUpTo result.found.trivia.comments result.found.trivia.pure_range
            result.found.trivia.no_side_effects }
    {
        ReadingStart {
            position: source.position(),
            found: found.lengths(),
        }
    }

    /// Goes back there, and drops what was found since.
    pub fn go_back(self, source: &mut Source<'_>, found: &mut FindingsBuilder)
        requires boundary { IsCharBoundary source.old.text self.position }
        requires found { HasFound self.found found.old }
        ensures source { GoesTo self.position source.old source.new }
        ensures found { found.new ≡ found_up_to self.found found.old }
    {
        source.set_position(self.position);
        found.cut_back(self.found);
    }
}
