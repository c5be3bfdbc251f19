//! Decoded values, by the tokens that they are of.

ghost use Rattle.std.specs.Prelude.{◌≡◌, Some, None, IfNone, IfSome, OnOk, OnErr};
ghost use Rattle.js_reader.specs.Decoded.{no_values, value_of, HoldsString, HoldsTemplate};

use js_source::OffsetMap;
use js_text::JSStr;
use std::alloc::{AllocError, Global};
use std::marker::Model;

/// The values of tokens whose spellings have escapes, by the offsets where the tokens start.
#[derive(Drop)]
pub struct DecodedValues {
    /// Of names and strings.
    strings: OffsetMap<JSStr>,
    /// Of parts of templates, without a value where an escape stands for nothing.
    templates: OffsetMap<Option<JSStr>>,
}

impl Model for DecodedValues {
    ghost use Rattle.js_reader.specs.Decoded.{Values};

    ghost Value = { Values };

    ghost view = { λ d. record { strings = d.strings; templates = d.templates } };
}

impl DecodedValues {
    /// No values. It needs no memory yet.
    pub fn new_in(alloc: Global) -> DecodedValues
        ensures { result ≡ no_values }
    {
        DecodedValues {
            strings: OffsetMap::new_in(alloc),
            templates: OffsetMap::new_in(alloc),
        }
    }

    /// The value of the name or the string that starts at the offset.
    #[inline(never)]
    pub fn get(&self, start: u32) -> Option<&JSStr>
        ensures none { IfNone result (value_of self.now.strings start ≡ None) }
        ensures some { IfSome result (λ value. value_of self.now.strings start ≡ Some value.now) }
    {
        self.strings.get(start)
    }

    /// The value of the part of a template that starts at the offset.
    #[inline(never)]
    pub fn get_template(&self, start: u32) -> Option<&Option<JSStr>>
        ensures none { IfNone result (value_of self.now.templates start ≡ None) }
        ensures some { IfSome result (λ value. value_of self.now.templates start ≡ Some value.now) }
    {
        self.templates.get(start)
    }

    /// Keeps the value of the name or the string that starts at the offset.
    #[inline(never)]
    pub fn insert(&mut self, start: u32, value: JSStr) -> Result<(), AllocError>
        ensures ok { OnOk result (HoldsString start value self.old self.new) }
        ensures err { OnErr result (self.new ≡ self.old) }
    {
        self.strings.insert(start, value)
    }

    /// Keeps the value of the part of a template that starts at the offset.
    #[inline(never)]
    pub fn insert_template(&mut self, start: u32, value: Option<JSStr>) -> Result<(), AllocError>
        ensures ok { OnOk result (HoldsTemplate start value self.old self.new) }
        ensures err { OnErr result (self.new ≡ self.old) }
    {
        self.templates.insert(start, value)
    }
}
