//! Sequences of ASCII characters, as `<!--`.

ghost use Rattle.std.specs.Prelude.{◌<◌, All, false};
ghost use Rattle.js_spell.specs.Sequences.{TakesSequence};

use js_source::Source;

/// Takes the sequence, where it is next.
#[inline(always)]
pub fn advance_if_sequence(source: &mut Source<'_>, sequence: &[u8]) -> bool
    requires { All (λ b. b < 128) sequence.now }
    ensures { TakesSequence sequence.now source.old result source.new }
{
    let mut behind = source.here();
    for b in sequence {
        if !behind.advance_if_ascii_eq(*b) {
            return false;
        }
    }
    *source = behind;
    true
}
