//! The buffers that an input is handed, by their sizes: a clause speaks of these as a relation of the input's own.

ghost use Rattle.std.specs.Prelude.{◌<◌, None};

use js_lex_tool::{ByteIn, InAnswer, MOST_BYTES, read_to_end};
use std::alloc::Global;
use std::test::Fail;

/// An input of zeros that records the size of each buffer that it is handed.
#[derive(Drop)]
struct RecordingIn {
    left: usize,
    sizes: Vec<usize>,
    faults: u64,
}

impl ByteIn for RecordingIn {
    ghost state = { λ s. record { left = None; faults = s.faults; course = None } };

    fn read(&mut self, buf: &mut [u8]) -> InAnswer {
        if self.sizes.push(buf.len()).is_err() {
            self.faults = self.faults.saturating_add(1);
            return InAnswer::Failed;
        }
        if self.left == 0 {
            return InAnswer::End;
        }
        let count = self.left.min(buf.len());
        self.left -= count;
        InAnswer::Took(count)
    }
}

/// The sizes of the buffers that are handed to an input of so many bytes.
fn sizes(alloc: Global, bytes: usize, most: usize) -> Vec<usize>
    requires { most < usize.MAX }
{
    let mut input = RecordingIn {
        left: bytes,
        sizes: Vec::new(alloc),
        faults: 0,
    };
    let _ = read_to_end(alloc, &mut input, most);
    input.sizes
}

/// How many bytes there are, how many there may be, and the sizes of the buffers.
static CASES: [(usize, usize, &[usize]); 5] = [
    (0, 5000, &[4096]),
    (10_000, MOST_BYTES, &[4096, 4096, 4096, 4096]),
    (10_000, 10_000, &[4096, 4096, 1809, 1]),
    (5000, 5000, &[4096, 905, 1]),
    (10_000, 5000, &[4096, 905]),
];

// A read call asks for a buffer, or for what is left of one byte more than there may be; none is made after the end.
#[test]
fn sizes_of_buffers(rt: HostRuntime) -> Result<(), Fail> {
    for &(bytes, most, wanted) in &CASES {
        let most = most.min(MOST_BYTES);
        let sizes = sizes(rt.alloc(), bytes, most);
        assert_eq!(rt; sizes.as_slice(), wanted, "{bytes} of {most}");
    }
    Ok(())
}
