//! Texts as lists of UTF-16 units (ECMA-262 6.1.4).

ghost use Rattle.std.specs.Prelude.{◌≡◌, [], ◌∷◌, ◌++◌, IfOk, IfSome, MatchBool, OnOk, OnErr, is_none, nat_eq};
ghost use Rattle.std.specs.Prelude.{string_bytes};
ghost use Rattle.std.specs.Char.Escape.{encode_utf16};
ghost use Rattle.std.specs.Char.Utf16.{has_unpaired_surrogate};
ghost use Rattle.std.specs.Cmp.{partial_equiv_from_equiv};
ghost use Rattle.std.specs.Cmp.Lexicographic.{nat_list_eq_equiv, pointwise};
ghost use Rattle.std.specs.Str.{chars};
ghost use Rattle.js_text.specs.JsStr.{units_of, AddsPrefix};

use smallvec::SmallVec;
use std::alloc::{AllocError, Global};
use std::marker::Model;

/// As many units are kept in the value itself, without an allocation.
const FEW_UNITS: usize = 20;

/// A text of JavaScript, seen as the list of its UTF-16 units. A surrogate may stand outside a pair.
#[derive(Debug, Drop)]
pub struct JSStr {
    units: SmallVec<u16, FEW_UNITS>,
}

impl Model for JSStr {
    ghost use Rattle.std.specs.Prelude.{ℕ, List};

    ghost Value = { List ℕ };

    ghost view = { λ s. s.units.items };
}

impl PartialEq for JSStr {
    ghost eq = { λ a b. pointwise nat_eq a b };

    ghost laws = { partial_equiv_from_equiv nat_list_eq_equiv };

    fn eq(&self, other: &JSStr) -> bool {
        self.units == other.units
    }
}

impl Eq for JSStr {
    ghost laws = { nat_list_eq_equiv };
}

impl JSStr {
    /// The UTF-16 units, in order.
    pub fn units(&self) -> &[u16]
        ensures { result.now ≡ self.now }
    {
        self.units.as_slice()
    }

    /// The text that the units spell; none where a surrogate stands outside a pair.
    pub fn to_text(&self, alloc: Global) -> Result<Option<String>, AllocError>
        ensures found { IfOk result (λ text. is_none text ≡ has_unpaired_surrogate self.now) }
        ensures text { IfOk result (λ text. IfSome text (λ s. units_of (chars (string_bytes s)) ≡ self.now)) }
    {
        let text = String::from_utf16(alloc, self.units.as_slice())?;
        Ok(text.ok())
    }

    /// An equal text.
    pub fn copy(&self, alloc: Global) -> Result<JSStr, AllocError>
        ensures { IfOk result (λ s. s ≡ self.now) }
    {
        let units = SmallVec::from_slice(alloc, self.units.as_slice())?;
        Ok(JSStr { units })
    }
}

/// Adds the units of a text of ASCII characters, where there is room for them. Else it adds none, and gives false.
#[inline(always)]
fn push_ascii(units: &mut SmallVec<u16, FEW_UNITS>, text: &[u8]) -> bool
    ensures { MatchBool result (units.new.items ≡ units.old.items ++ units_of (chars text.now))
        (units.new.items ≡ units.old.items) }
{
    let len = units.len();
    if units.capacity() - len < text.len() {
        return false;
    }
    'bytes: for b in text {
        if *b >= 128 {
            units.truncate(len);
            return false;
        }
        units.push_reserved(*b as u16);
    }
    true
}

/// A `JSStr` that is built up, seen as the list of its UTF-16 units. It keeps its allocator.
#[derive(Drop)]
pub struct JSStrBuilder {
    units: SmallVec<u16, FEW_UNITS>,
}

impl Model for JSStrBuilder {
    ghost use Rattle.std.specs.Prelude.{ℕ, List};

    ghost Value = { List ℕ };

    ghost view = { λ s. s.units.items };
}

impl JSStrBuilder {
    /// A text of no units. It needs no memory yet.
    pub fn new_in(alloc: Global) -> JSStrBuilder
        ensures { result ≡ [] }
    {
        JSStrBuilder {
            units: SmallVec::new(alloc),
        }
    }

    /// A text of no units, with room for so many.
    pub fn with_capacity_in(alloc: Global, units: usize) -> Result<JSStrBuilder, AllocError>
        ensures { IfOk result (λ s. s ≡ []) }
    {
        let units = SmallVec::with_capacity(alloc, units)?;
        Ok(JSStrBuilder { units })
    }

    /// Adds the one or two units of a character.
    #[inline(always)]
    pub fn push(&mut self, c: char) -> Result<(), AllocError>
        ensures ok { OnOk result (self.new ≡ self.old ++ encode_utf16 c) }
        ensures err { OnErr result (self.new ≡ self.old) }
    {
        let code_point = c as u32;
        if code_point < 0x10000 {
            return self.push_unit(code_point as u16);
        }
        self.push_pair(c)
    }

    /// Adds the units of a character that may have two.
    #[inline(never)]
    fn push_pair(&mut self, c: char) -> Result<(), AllocError>
        ensures ok { OnOk result (self.new ≡ self.old ++ encode_utf16 c) }
        ensures err { OnErr result (self.new ≡ self.old) }
    {
        let mut room = [0; 2];
        self.units.extend_from_slice(c.encode_utf16(&mut room))
    }

    /// Adds the units of a text, character by character.
    #[inline(never)]
    fn push_characters(&mut self, s: &str) -> Result<(), AllocError>
        ensures ok { OnOk result (self.new ≡ self.old ++ units_of (chars s.now)) }
        ensures err { OnErr result (AddsPrefix (units_of (chars s.now)) self.old self.new) }
    {
        for c in s.chars() {
            self.push(c)?;
        }
        Ok(())
    }

    /// Adds the units of a text.
    pub fn push_str(&mut self, s: &str) -> Result<(), AllocError>
        ensures ok { OnOk result (self.new ≡ self.old ++ units_of (chars s.now)) }
        ensures err { OnErr result (AddsPrefix (units_of (chars s.now)) self.old self.new) }
    {
        if push_ascii(&mut self.units, s.as_bytes()) {
            return Ok(());
        }
        self.push_characters(s)
    }

    /// Adds a unit. A surrogate is added as it is.
    #[inline(always)]
    pub fn push_unit(&mut self, unit: u16) -> Result<(), AllocError>
        ensures ok { OnOk result (self.new ≡ self.old ++ unit ∷ []) }
        ensures err { OnErr result (self.new ≡ self.old) }
    {
        self.units.push(unit)?;
        Ok(())
    }

    /// The text that was built.
    pub fn into_js_str(self) -> JSStr
        ensures { result ≡ self }
    {
        JSStr { units: self.units }
    }
}
