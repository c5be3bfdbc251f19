//! Reading an input to its end.

ghost use Rattle.std.specs.Prelude.{◌≡◌, ◌+◌, ◌<◌, ◌≤◌, ℕ, length, IfOk, OnOk, IsErrOf};
ghost use Rattle.std.specs.Io.KnownBytes.{Consumes, IsAtEnd};
ghost use Rattle.js_process.specs.Outside.{Rises, Takes, InTime};
ghost use Rattle.js_process.specs.Reads.{AskForRoom, room_after};

use crate::outside::{ByteIn, InAnswer};
use js_text::ByteList;
use std::alloc::{AllocError, Global};

/// Why an input was not read to its end.
#[derive(Clone, Copy, PartialEq, Eq, Debug)]
pub enum ReadFault {
    Failed,
    TooLong,
    Memory,
}

impl From<AllocError> for ReadFault {
    ghost use Rattle.js_process.specs.declared.read_all.ReadFault.TheVariants.{Memory};

    ghost from_gives = { λ _ fault. fault ≡ Memory };

    fn from(_error: AllocError) -> ReadFault {
        ReadFault::Memory
    }
}

/// The most bytes that the program reads of an input.
pub const MOST_BYTES: usize = 67_108_864;

const _: () = prove!(MOST_BYTES == 67_108_864);

/// The most bytes that one read asks for.
const BUFFER: usize = 4096;

/// How many bytes the next read asks for, where so many were read: a buffer, or what is left of one more than `most`.
fn next_room(read: usize, most: usize) -> usize
    requires read { read ≤ most }
    requires most { most < usize.MAX }
    ensures { result ≡ room_after most read }
{
    BUFFER.min(most + 1 - read)
}

/// Reads an input to its end, or until it gave more than `most` bytes.
pub fn read_to_end<I: ByteIn>(
    alloc: Global,
    input: &mut I,
    most: usize,
) -> Result<ByteList, ReadFault>
    requires { most < usize.MAX }
    ensures all { IfOk result (λ source. Consumes (I.state input.old).left (I.state input.new).left source) }
    ensures end { OnOk result (IsAtEnd (I.state input.new).left) }
    ensures short { IfOk result (λ source. length source ≤ most) }
    ensures failed { IsErrOf result ReadFault.Failed
        → Takes (I.state input.old) (I.state input.new) (λ bytes. length bytes ≤ most) }
    ensures too_long { IsErrOf result ReadFault.TooLong
        → Takes (I.state input.old) (I.state input.new) (λ bytes. length bytes ≡ most + 1) }
    ensures bounded { Takes (I.state input.old) (I.state input.new) (λ bytes. length bytes ≤ most + 1) }
    ensures fault { IsErrOf result ReadFault.Failed → Rises (I.state input.old).faults (I.state input.new).faults }
    ensures no_fault { (¬ (IsErrOf result ReadFault.Failed)) → (I.state input.new).faults ≡ (I.state input.old).faults }
    // No read comes after one that has found the end, nor after one that has failed.
    ensures in_time { InTime (I.state input.old).course (I.state input.new).course }
    // Each read asks for 4,096 bytes, or for what is left of one more than `most`.
    ensures room { (given : ℕ) × AskForRoom I.read_gives most input.old given input.new }
{
    let mut source = ByteList::new_in(alloc);
    let mut buf = [0u8; BUFFER];
    while source.len() <= most {
        let room = next_room(source.len(), most);
        match input.read(&mut buf[..room]) {
            InAnswer::Took(count) => source.extend_from_slice(&buf[..count])?,
            InAnswer::End => return Ok(source),
            InAnswer::Failed => return Err(ReadFault::Failed),
        }
    }
    Err(ReadFault::TooLong)
}
