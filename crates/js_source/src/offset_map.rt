//! Values by offsets of a source.

ghost use Rattle.std.specs.Prelude.{◌≡◌, [], Some, None, IfNone, IfSome, MatchBool, OnOk, OnErr};
ghost use Rattle.js_source.specs.Offsets.{value_of, Holds, AreRising, IsAt, AreBelow, AreOthers};

use std::alloc::{AllocError, Global};
use std::collections::HashMap;
use std::marker::Model;

/// Values by offsets. Those that are added in rising order stand in a list, and others in a map: a reader that goes
/// back may add some before those that it has.
#[derive(Drop)]
pub struct OffsetMap<V> {
    ordered: Vec<(u32, V)>,
    others: HashMap<u32, V>,
}

impl<V> Model for OffsetMap<V> {
    ghost use Rattle.std.specs.Prelude.{◌++◌};
    ghost use Rattle.js_source.specs.Offsets.{Placed, AreRising};

    ghost Value = { Placed V };

    ghost view = { λ m. m.ordered.items ++ m.others.entries };

    ghost invariant = { λ m. AreRising m.ordered.items };
}

/// Whether the offset is past the last one in order, or none is there.
fn is_past<V>(ordered: &[(u32, V)], offset: u32) -> bool
    requires { AreRising ordered.now }
    ensures { MatchBool result (AreBelow ordered.now offset) (Unit {0}) }
{
    match ordered.last() {
        Some(last) => last.0 < offset,
        None => true,
    }
}

/// The place of the offset among those in order, if it is there. It is mostly the last.
fn place_of<V>(ordered: &[(u32, V)], offset: u32) -> Option<usize>
    requires { AreRising ordered.now }
    ensures found { IfSome result (IsAt ordered.now offset) }
    ensures absent { IfNone result (AreOthers ordered.now offset) }
{
    let last = ordered.len().checked_sub(1)?;
    if ordered[last].0 == offset {
        return Some(last);
    }
    search(ordered, offset)
}

/// The place of the offset among those in order, if it is there.
fn search<V>(ordered: &[(u32, V)], offset: u32) -> Option<usize>
    requires { AreRising ordered.now }
    ensures found { IfSome result (IsAt ordered.now offset) }
    ensures absent { IfNone result (AreOthers ordered.now offset) }
{
    ordered.binary_search_by_key(&offset, |entry| entry.0).ok()
}

impl<V> OffsetMap<V> {
    /// A map of no values. It needs no memory yet.
    pub fn new_in(alloc: Global) -> OffsetMap<V>
        ensures { result ≡ [] }
    {
        OffsetMap {
            ordered: Vec::new(alloc),
            others: HashMap::new(alloc),
        }
    }

    /// The value at the offset, if there is one.
    pub fn get(&self, offset: u32) -> Option<&V>
        ensures none { IfNone result (value_of self.now offset ≡ None) }
        ensures some { IfSome result (λ value. value_of self.now offset ≡ Some value.now) }
    {
        match place_of(&self.ordered, offset) {
            Some(at) => Some(&self.ordered[at].1),
            None => self.others.get(&offset),
        }
    }
}

impl<V: Drop> OffsetMap<V> {
    /// Keeps the value at the offset, in the place of one that is there. Where there is no memory for it, the map stays
    /// as it was.
    pub fn insert(&mut self, offset: u32, value: V) -> Result<(), AllocError>
        ensures ok { OnOk result (Holds offset value self.old self.new) }
        ensures err { OnErr result (self.new ≡ self.old) }
    {
        if is_past(&self.ordered, offset) {
            self.ordered.push((offset, value))?;
            return Ok(());
        }
        if let Some(at) = place_of(&self.ordered, offset) {
            self.ordered[at] = (offset, value);
            return Ok(());
        }
        self.others.insert(offset, value)?;
        Ok(())
    }
}
