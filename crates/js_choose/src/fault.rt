//! Why there is no report.

ghost use Rattle.std.specs.Prelude.{◌≡◌, ℕ, List};
ghost use Rattle.js_choose.specs.Faults.{ChoiceCause, as_lex_fault};
ghost use Rattle.js_session.specs.Faults.{SourceCause};

use js_session::LexFault;

/// Why a session whose goals are chosen gives no report, in the order in which it is tested.
#[derive(Clone, Copy, PartialEq, Eq, Debug)]
pub enum ChoiceFault {
    /// The source has more than `u32::MAX` bytes.
    Overlong,
    /// The source is not UTF-8. Its longest beginning that is has so many bytes.
    NotUtf8(u32),
    Memory,
}

impl ChoiceFault {
    /// The same fault of a session with a list of commands.
    pub fn as_lex_fault(self) -> LexFault
        ensures { result ≡ as_lex_fault self }
    {
        match self {
            ChoiceFault::Overlong => LexFault::Overlong,
            ChoiceFault::NotUtf8(at) => LexFault::NotUtf8(at),
            ChoiceFault::Memory => LexFault::Memory,
        }
    }
}

/// The fault of a source. No source is at fault for its marks or for lack of memory.
pub(crate) fn fault_of(fault: LexFault) -> ChoiceFault
    ensures { (source : List ℕ) → SourceCause source fault → ChoiceCause source result }
{
    match fault {
        LexFault::Overlong => ChoiceFault::Overlong,
        LexFault::NotUtf8(at) => ChoiceFault::NotUtf8(at),
        LexFault::NoMark(_) | LexFault::Memory => ChoiceFault::Memory,
    }
}
