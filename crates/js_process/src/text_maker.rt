//! Programs that make one text of their input.

ghost use Rattle.std.specs.Prelude.{◌≡◌, ◌≤◌, ℕ, List, Option, Ok, None, length, string_bytes, IfOk};
ghost use Rattle.js_process.specs.Reads.{most_bytes};
ghost use Rattle.js_process.specs.Status.{number};
ghost use Rattle.js_process.specs.Status.Status.{Usage};
ghost use Rattle.js_process.specs.TextRun.{AnswersText, RunsMaker, RunsText};

use crate::outside::{ByteIn, ByteOut};
use crate::read_all::{MOST_BYTES, ReadFault, read_to_end};
use crate::status::{MEMORY, NOT_UTF8, READ_FAILED, TOO_LONG, USAGE};
use crate::write_all::write_status;
use std::alloc::{AllocError, Global};

/// What the words of a program mean that makes one text of its input.
pub trait TextMaker {
    /// The texts that may be made of a source.
    ghost may_make: { Self → List ℕ → List ℕ → Type 0 };

    /// A text of the source, which has at most 67,108,864 bytes.
    fn text(&self, alloc: Global, source: &str) -> Result<String, AllocError>
        requires { length source.now ≤ most_bytes }
        ensures { IfOk result (λ text. may_make self.now source.now (string_bytes text)) };
}

/// Makes a text of the bytes of an input, and writes it.
fn answer_text<T: TextMaker, O: ByteOut>(
    alloc: Global,
    maker: &T,
    source: &[u8],
    output: &mut O,
) -> u8
    requires { length source.now ≤ most_bytes }
    ensures { AnswersText source.now (T.may_make maker.now source.now)
        (O.state output.old) (O.state output.new) result }
{
    let Ok(source) = str::from_utf8(source) else {
        return NOT_UTF8;
    };
    match maker.text(alloc, source) {
        Ok(text) => write_status(text.as_str(), output),
        Err(_) => MEMORY,
    }
}

/// Reads an input to its end, makes a text of its bytes, and writes it.
fn run_text<T: TextMaker, I: ByteIn, O: ByteOut>(
    alloc: Global,
    maker: &T,
    input: &mut I,
    output: &mut O,
) -> u8
    ensures { RunsText (T.may_make maker.now)
        (I.state input.old) (I.state input.new) (O.state output.old) (O.state output.new) result }
{
    match read_to_end(alloc, input, MOST_BYTES) {
        Ok(source) => answer_text(alloc, maker, source.as_slice(), output),
        Err(ReadFault::Failed) => READ_FAILED,
        Err(ReadFault::TooLong) => TOO_LONG,
        Err(ReadFault::Memory) => MEMORY,
    }
}

/// Runs a program that makes one text of its input: where its words are valid, it reads the input to its end, and
/// writes a text that they ask for. It gives the exit status.
pub fn text_run<T: TextMaker + Drop, I: ByteIn, O: ByteOut>(
    alloc: Global,
    words: Result<Option<T>, AllocError>,
    input: &mut I,
    output: &mut O,
) -> u8
    ensures run { (maker : Option T) → IfOk words (λ meant. meant ≡ maker) → RunsMaker T.may_make maker
        (I.state input.old) (I.state input.new) (O.state output.old) (O.state output.new) result }
    ensures usage { words ≡ Ok None → result ≡ number Usage }
{
    match words {
        Ok(Some(maker)) => run_text(alloc, &maker, input, output),
        Ok(None) => USAGE,
        Err(_) => MEMORY,
    }
}
