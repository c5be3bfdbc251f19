//! What the readers of spellings tell.

ghost use Rattle.std.specs.Prelude.{◌≡◌, false};
ghost use Rattle.js_spell.specs.Strings.{is_elsewhere};

use js_kind::{Kind, Token};
use js_text::JSStr;

/// What was read of a spelling: its kind, and where its value is.
#[derive(Drop)]
pub struct Spelt {
    pub kind: Kind,
    pub value: SpeltValue,
}

/// Where the value of a spelling is.
#[derive(Drop)]
pub enum SpeltValue {
    /// It is a stretch of the source, as it stands.
    Plain,
    /// It is this text, since escapes stand in the spelling, or a CR in that of a template.
    Decoded(JSStr),
    /// It is none: a template has an escape that stands for nothing.
    Bad,
}

impl SpeltValue {
    /// Whether the value is no stretch of the source.
    fn is_elsewhere(&self) -> bool
        ensures { result ≡ is_elsewhere self.now }
    {
        match self {
            SpeltValue::Plain => false,
            SpeltValue::Decoded(_) | SpeltValue::Bad => true,
        }
    }
}

/// A spelling of the kind with the value, where the flags of its token are set by the value.
pub(crate) fn spell(token: &mut Token, kind: Kind, value: SpeltValue) -> Spelt
    ensures parts { result ≡ record { kind = kind; value = value } }
    ensures flags { token.new ≡ record token.old { escaped = is_elsewhere value; has_separator = false } }
{
    token.set_escaped(value.is_elsewhere());
    token.set_has_separator(false);
    Spelt { kind, value }
}
