//! Why there is no tree.

ghost use Rattle.std.specs.Prelude.{◌≡◌};

use std::alloc::AllocError;

/// Why there is no tree.
#[derive(Clone, Copy)]
pub(crate) enum ParseFault {
    /// What stands at the offset, in bytes, is nested too deep.
    TooDeep { at: u32 },
    Memory,
}

impl From<AllocError> for ParseFault {
    ghost use Rattle.js_parse_tool.specs.declared.fault.ParseFault.TheVariants.{Memory};

    ghost from_gives = { λ _ fault. fault ≡ Memory };

    fn from(_error: AllocError) -> ParseFault {
        ParseFault::Memory
    }
}
