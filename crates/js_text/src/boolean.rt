//! One of two facts.

ghost use Rattle.std.specs.Prelude.{◌≡◌, ◌||◌};

/// Whether one of the two holds: as a call, it keeps what is known of both.
#[inline(always)]
pub const fn either(first: bool, second: bool) -> bool
    ensures { result ≡ (first || second) }
{
    first || second
}
