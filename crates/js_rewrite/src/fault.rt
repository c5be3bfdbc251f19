//! Why a source is not written anew.

ghost use Rattle.std.specs.Prelude.{◌≡◌, List, ℕ};
ghost use Rattle.js_text.specs.declared.source_type.SourceType.{SourceType};
ghost use Rattle.js_session.specs.declared.command.Command.{Command};
ghost use Rattle.js_session.specs.Faults.{SourceCause};
ghost use Rattle.js_session.specs.declared.fault.LexFault.{LexFault};
ghost use Rattle.js_rewrite.specs.Faults.{RewriteCause};
ghost use Rattle.js_rewrite.specs.declared.fault.RewriteFault.{RewriteFault};

use js_session::LexFault;
use std::alloc::AllocError;

/// Why a source is not written anew, in the order in which it is tested.
#[derive(Clone, Copy, PartialEq, Eq, Debug)]
pub enum RewriteFault {
    /// The source has more than `u32::MAX` bytes.
    Overlong,
    /// The source is not UTF-8. Its longest beginning that is has so many bytes.
    NotUtf8(u32),
    /// The command at this index, from 0, is the first that gives no row which stays: a peek, or one of marks. Outside
    /// modules `Command::JsxChild` and `Command::TsLAngle` are refused too: a comment may begin where their token ends,
    /// and a space in its place would be read with the token.
    BadCommand(usize),
    /// The row at this index, from 0, is the first with a diagnostic.
    Diagnosed(usize),
    Memory,
}

/// The fault of a source. No source is at fault for its marks or for lack of memory.
pub(crate) fn fault_of(fault: LexFault) -> RewriteFault
    ensures { (source : List ℕ) (t : SourceType) (commands : List Command) → SourceCause source fault
        → RewriteCause source t commands result }
{
    match fault {
        LexFault::Overlong => RewriteFault::Overlong,
        LexFault::NotUtf8(at) => RewriteFault::NotUtf8(at),
        LexFault::NoMark(_) | LexFault::Memory => RewriteFault::Memory,
    }
}

/// The fault of a source that can be read, with commands of which none closes a mark: nothing but memory is wanting.
pub(crate) fn lack_of_memory(fault: LexFault) -> AllocError
    requires { fault ≡ LexFault.Memory }
{
    match fault {
        LexFault::Memory => AllocError,
        LexFault::Overlong | LexFault::NotUtf8(_) | LexFault::NoMark(_) => unreachable!(),
    }
}
