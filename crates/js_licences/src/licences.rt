//! Collections of licences.

ghost use Rattle.std.specs.Prelude.{◌≡◌, ◌++◌, ◌∷◌, ◌<◌, List, [], None, Some, length, position, slice_get};
ghost use Rattle.std.specs.Prelude.{bytes_eq, string_bytes};
ghost use Rattle.std.specs.Prelude.{OnOk, OnErr};
ghost use Rattle.indexmap.specs.IndexMap.{index_map_len, keys, set_value_at, values};
ghost use Rattle.js_licences.specs.Licences.{LicenceOf, licence_seen, licences_in, with_occurrence};
ghost use Rattle.js_licences.specs.declared.licences.Place.{Place};

use indexmap::IndexMap;
use js_text::{ItemList, SourceText};
use std::alloc::{AllocError, Global};
use std::marker::Model;

/// Where a comment stands.
#[derive(Drop)]
pub struct Place {
    /// The name of the source.
    pub name: SourceText,
    /// The line on which the comment begins, from 1.
    pub line: u64,
}

/// A comment that holds a licence, with its marks, and the places where it stands, in the order in which they came.
#[derive(Clone, Copy)]
pub struct Licence<'l> {
    pub text: &'l str,
    pub places: &'l [Place],
}

/// The places where texts stand, by the texts.
type PlacesByText = IndexMap<String, ItemList<Place>>;

/// The licences of sources that are added one by one: each text once, in the order in which they came.
#[derive(Drop)]
pub struct Licences {
    alloc: Global,
    places: PlacesByText,
}

impl Model for Licences {
    ghost use Rattle.std.specs.Prelude.{List, string_bytes};
    ghost use Rattle.js_licences.specs.Licences.{LicenceOf, licences_in};

    ghost Value = { List LicenceOf };

    ghost view = { λ l. licences_in (λ s. string_bytes s) l.places.entries };
}

/// Adds a place to those of the text with this index.
fn add_place(places: &mut PlacesByText, index: usize, place: Place) -> Result<(), AllocError>
    requires { index < index_map_len places.old }
    ensures ok { OnOk result ((held : List Place) → slice_get (values places.old) index ≡ Some held
        → places.new.entries ≡ set_value_at places.old.entries index (held ++ place ∷ [])) }
    ensures err { OnErr result (places.new.entries ≡ places.old.entries) }
{
    let (_, held) = places.pair_mut(index);
    held.push(place)
}

/// Adds a text that is new, with the place where it stands.
fn add_text(
    alloc: Global,
    places: &mut PlacesByText,
    text: &str,
    place: Place,
) -> Result<(), AllocError>
    requires { position (λ key. bytes_eq text.now (string_bytes key)) (keys places.old) ≡ None }
    ensures ok { OnOk result (licences_in (λ s. string_bytes s) places.new.entries
        ≡ licences_in (λ s. string_bytes s) places.old.entries
        ++ record { text = text.now; places = place ∷ [] } ∷ []) }
    ensures err { OnErr result (places.new.entries ≡ places.old.entries) }
{
    let key = String::from_str(alloc, text)?;
    let mut held = ItemList::new_in(alloc);
    held.push(place)?;
    places.insert(key, held)?;
    Ok(())
}

impl Licences {
    /// No licence. It needs no memory yet.
    pub fn new(alloc: Global) -> Licences
        ensures { result ≡ [] }
    {
        Licences {
            alloc,
            places: IndexMap::new(alloc),
        }
    }

    /// The allocator of the collection.
    pub(crate) fn allocator(&self) -> Global {
        self.alloc
    }

    /// How many licences there are.
    pub fn len(&self) -> usize
        ensures { result ≡ length self.now }
    {
        self.places.len()
    }

    /// The licence with an index, from 0.
    pub fn licence(&self, index: usize) -> Licence<'_>
        requires { index < length self.now }
        ensures { slice_get self.now index ≡ Some (licence_seen result) }
    {
        let (text, places) = self.places.get_index(index).unwrap();
        Licence {
            text: text.as_str(),
            places: places.as_slice(),
        }
    }

    /// Adds a comment that holds a licence, with the place where it stands. Where there is no memory for it, the
    /// collection stays as it was.
    pub(crate) fn add_occurrence(&mut self, text: &str, place: Place) -> Result<(), AllocError>
        ensures ok { OnOk result (self.new ≡ with_occurrence self.old (record { text = text.now; place = place })) }
        ensures err { OnErr result (self.new ≡ self.old) }
    {
        match self.places.get_index_of(text) {
            Some(index) => add_place(&mut self.places, index, place),
            None => add_text(self.alloc, &mut self.places, text, place),
        }
    }
}
