//! What stands at places of a text, and moves with it.

ghost use Rattle.std.specs.Prelude.{◌≡◌, ◌↔◌, ◌≤◌, ℕ, IsTrue};
ghost use Rattle.js_session.specs.Shifted.{FitsShifted, OfComment, OfDiagnostic, OfSpan};
ghost use Rattle.js_session.specs.Shifted.{shifted_comment, shifted_diagnostic, shifted_span, shifted_token};
ghost use Rattle.js_relex.specs.LiveLists.{TokenMayMove};
ghost use Rattle.js_document.specs.Changed.{EndsBy, StartsFrom};
ghost use Rattle.js_document.specs.Found.{IsWrittenAlike};

use js_kind::Token;
use js_session::Shift;
use js_text::{Comment, Diagnostic, Span};

/// What stands at places of a text. What has no place there, as a diagnostic about the whole file, stands before each
/// place and behind it.
pub trait Placed: Copy + Drop {
    /// The same, with each of its places shifted.
    ghost shifted: { ℕ → ℕ → Self → Self };

    /// It may be moved so: each of its places is a `u32` then.
    ghost MayMove: { ℕ → ℕ → Self → Type 0 };

    /// It stands before the place.
    ghost EndsBy: { ℕ → Self → Type 0 };

    /// It stands behind the place.
    ghost StartsFrom: { ℕ → Self → Type 0 };

    /// The same, moved.
    fn moved(self, shift: &Shift) -> Self
        requires { MayMove shift.now.from shift.now.to self }
        ensures { result ≡ shifted shift.now.from shift.now.to self };

    /// Whether both are the same.
    fn is_equal(&self, other: &Self) -> bool
        ensures { IsTrue result ↔ (self.now ≡ other.now) };

    /// Whether it stands before the place.
    fn ends_by(&self, place: u32) -> bool
        ensures { IsTrue result ↔ EndsBy place self.now };

    /// Whether it stands behind the place.
    fn starts_from(&self, place: u32) -> bool
        ensures { IsTrue result ↔ StartsFrom place self.now };
}

impl Placed for Token {
    ghost shifted = { λ from to token. shifted_token from to token };

    ghost MayMove = { λ from to token. TokenMayMove from to token };

    ghost EndsBy = { λ place token. EndsBy place token };

    ghost StartsFrom = { λ place token. StartsFrom place token };

    fn moved(self, shift: &Shift) -> Token {
        let mut token = self;
        shift.move_token(&mut token);
        token
    }

    fn is_equal(&self, other: &Token) -> bool {
        self.is_same(other)
    }

    fn ends_by(&self, place: u32) -> bool {
        self.end() <= place
    }

    fn starts_from(&self, place: u32) -> bool {
        place <= self.start()
    }
}

impl Placed for Span {
    ghost shifted = { λ from to span. shifted_span from to span };

    ghost MayMove = { λ from to span. OfSpan (FitsShifted from to) span };

    ghost EndsBy = { λ place span. OfSpan (λ p. p ≤ place) span };

    ghost StartsFrom = { λ place span. OfSpan (λ p. place ≤ p) span };

    fn moved(self, shift: &Shift) -> Span {
        let mut span = self;
        shift.move_span(&mut span);
        span
    }

    fn is_equal(&self, other: &Span) -> bool {
        *self == *other
    }

    fn ends_by(&self, place: u32) -> bool {
        if self.start > place {
            return false;
        }
        self.end <= place
    }

    fn starts_from(&self, place: u32) -> bool {
        if self.start < place {
            return false;
        }
        place <= self.end
    }
}

/// Whether both comments are written alike, and stand likewise beside tokens and line ends.
fn is_written_alike(first: &Comment, second: &Comment) -> bool
    ensures { IsTrue result ↔ IsWrittenAlike first.now second.now }
{
    if first.kind != second.kind {
        return false;
    }
    if first.position != second.position {
        return false;
    }
    if first.preceded != second.preceded {
        return false;
    }
    first.followed == second.followed
}

impl Placed for Comment {
    ghost shifted = { λ from to comment. shifted_comment from to comment };

    ghost MayMove = { λ from to comment. OfComment (FitsShifted from to) comment };

    ghost EndsBy = { λ place comment. OfComment (λ p. p ≤ place) comment };

    ghost StartsFrom = { λ place comment. OfComment (λ p. place ≤ p) comment };

    fn moved(self, shift: &Shift) -> Comment {
        let mut comment = self;
        shift.move_comment(&mut comment);
        comment
    }

    fn is_equal(&self, other: &Comment) -> bool {
        if !self.span.is_equal(&other.span) {
            return false;
        }
        if self.attached_to != other.attached_to {
            return false;
        }
        if !is_written_alike(self, other) {
            return false;
        }
        self.content == other.content
    }

    fn ends_by(&self, place: u32) -> bool {
        if self.attached_to > place {
            return false;
        }
        self.span.ends_by(place)
    }

    fn starts_from(&self, place: u32) -> bool {
        if self.attached_to < place {
            return false;
        }
        self.span.starts_from(place)
    }
}

impl Placed for Diagnostic {
    ghost shifted = { λ from to diagnostic. shifted_diagnostic from to diagnostic };

    ghost MayMove = { λ from to diagnostic. OfDiagnostic (FitsShifted from to) diagnostic };

    ghost EndsBy = { λ place diagnostic. OfDiagnostic (λ p. p ≤ place) diagnostic };

    ghost StartsFrom = { λ place diagnostic. OfDiagnostic (λ p. place ≤ p) diagnostic };

    fn moved(self, shift: &Shift) -> Diagnostic {
        let mut diagnostic = self;
        shift.move_diagnostic(&mut diagnostic);
        diagnostic
    }

    fn is_equal(&self, other: &Diagnostic) -> bool {
        *self == *other
    }

    fn ends_by(&self, place: u32) -> bool {
        match self.span() {
            Some(span) => span.ends_by(place),
            None => true,
        }
    }

    fn starts_from(&self, place: u32) -> bool {
        match self.span() {
            Some(span) => span.starts_from(place),
            None => true,
        }
    }
}
