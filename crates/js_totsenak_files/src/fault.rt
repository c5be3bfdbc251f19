//! What keeps a file from being obeyed, and what is told of that on standard error.

use js_choose::ChoiceFault;
use js_process::ReadFault;
use js_process::write_all::WriteFault;
use js_totsenak::{RunFault, UNTOLD, UNWRITABLE, status_of};
use std::alloc::AllocError;

/// Why the program did not do with a file what was asked.
#[derive(Clone, Copy)]
pub(crate) enum Fault {
    /// It was not told of.
    Untold(RunFault),
    /// It has JSX, and was to be written anew.
    Jsx,
    /// What was made of it could not be written to a file, which was told already.
    Unwritten,
}

impl From<AllocError> for Fault {
    fn from(_error: AllocError) -> Fault {
        Fault::Untold(RunFault::Memory)
    }
}

impl From<RunFault> for Fault {
    fn from(fault: RunFault) -> Fault {
        Fault::Untold(fault)
    }
}

impl From<ChoiceFault> for Fault {
    fn from(fault: ChoiceFault) -> Fault {
        Fault::Untold(match fault {
            ChoiceFault::Overlong => RunFault::Overlong,
            ChoiceFault::NotUtf8(at) => RunFault::NotUtf8(at),
            ChoiceFault::Memory => RunFault::Memory,
        })
    }
}

impl From<ReadFault> for Fault {
    fn from(fault: ReadFault) -> Fault {
        Fault::Untold(match fault {
            ReadFault::Failed => RunFault::Unreadable,
            ReadFault::TooLong => RunFault::Overlong,
            ReadFault::Memory => RunFault::Memory,
        })
    }
}

impl From<WriteFault> for Fault {
    fn from(fault: WriteFault) -> Fault {
        Fault::Untold(match fault {
            WriteFault::Failed => RunFault::Unwritable,
            WriteFault::Memory => RunFault::Memory,
        })
    }
}

impl Fault {
    /// The exit status that it leads to.
    pub(crate) fn status(self) -> u8 {
        match self {
            Fault::Untold(fault) => status_of(Err(fault)),
            Fault::Jsx => UNTOLD,
            Fault::Unwritten => UNWRITABLE,
        }
    }

    /// Whether nothing more can be done: there is no memory, or the output has failed.
    pub(crate) fn ends_run(self) -> bool {
        matches!(self, Fault::Untold(RunFault::Memory | RunFault::Unwritable))
    }

    /// Tells of it on standard error, in one line. Nobody is left to tell where this fails. Of an output that failed it
    /// is told at the end of the run.
    pub(crate) fn tell(self, rt: &HostRuntime, name: &str) {
        let _ = match self {
            Fault::Untold(RunFault::Unreadable) => {
                eprintln!(rt; "totsenak: {name}: cannot be read")
            }
            Fault::Untold(RunFault::Overlong) => {
                eprintln!(rt; "totsenak: {name}: is longer than 4294967295 bytes")
            }
            Fault::Untold(RunFault::NotUtf8(at)) => {
                eprintln!(rt; "totsenak: {name}: is not UTF-8 at offset {at}")
            }
            Fault::Untold(RunFault::Memory) => eprintln!(rt; "totsenak: out of memory"),
            Fault::Untold(RunFault::Unwritable) => Ok(()),
            Fault::Jsx => { eprintln!(rt; "totsenak: {name}: has JSX, and is not written anew") }
            Fault::Unwritten => Ok(()),
        };
    }
}
