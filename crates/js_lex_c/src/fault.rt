//! Why a call gives no lists.

ghost use Rattle.std.specs.Prelude.{◌≡◌};
ghost use Rattle.js_lex_c.specs.Faults.{fault_number, fault_place, lex_fault_number, lex_fault_place, out_of_memory};

use js_session::LexFault;
use std::alloc::AllocError;

/// Why a call gives no lists, in the order in which it is tested.
#[derive(Clone, Copy)]
pub enum Fault {
    /// The number is that of no source type.
    UnknownSourceType,
    /// The number at this index, from 0, is the first that is that of no command.
    UnknownCommand(usize),
    /// There is no report.
    Lex(LexFault),
}

impl From<AllocError> for Fault {
    ghost use Rattle.js_lex_c.specs.Faults.{out_of_memory};

    ghost from_gives = { λ _ fault. fault ≡ out_of_memory };

    fn from(_error: AllocError) -> Fault {
        Fault::Lex(LexFault::Memory)
    }
}

/// What a call answers that found no report.
pub(crate) fn lex_fault_number(fault: LexFault) -> u32
    ensures { result ≡ lex_fault_number fault }
{
    match fault {
        LexFault::Memory => 1,
        LexFault::NotUtf8(_) => 6,
        LexFault::NoMark(_) => 7,
        LexFault::Overlong => 11,
    }
}

/// The offset of a byte or the index of a command, and 0 for a fault that has neither.
fn lex_fault_place(fault: LexFault) -> usize
    ensures { result ≡ lex_fault_place fault }
{
    match fault {
        LexFault::NotUtf8(at) => at as usize,
        LexFault::NoMark(index) => index,
        LexFault::Memory | LexFault::Overlong => 0,
    }
}

impl Fault {
    /// What a call answers.
    pub(crate) fn number(self) -> u32
        ensures { result ≡ fault_number self }
    {
        match self {
            Fault::UnknownSourceType => 13,
            Fault::UnknownCommand(_) => 12,
            Fault::Lex(fault) => lex_fault_number(fault),
        }
    }

    /// Where the fault is.
    pub(crate) fn place(self) -> usize
        ensures { result ≡ fault_place self }
    {
        match self {
            Fault::UnknownSourceType => 0,
            Fault::UnknownCommand(index) => index,
            Fault::Lex(fault) => lex_fault_place(fault),
        }
    }
}
