//! A list of things with names.
ghost use Rattle.std.specs.Prelude.{◌≡◌, ◌++◌, ◌∷◌, [], List, ℕ, length, take, drop, MatchOption, OnOk, OnErr};
ghost use Rattle.std.specs.Str.{bytes_eq};
ghost use Rattle.name_lists.specs.Names.{first_named, place_at, or_place, without_place};

use lists::Items;
use std::alloc::{AllocError, Global};
use std::collections::BTreeMap;
use std::marker::Model;

/// A thing with a name.
pub trait HasName {
    ghost text: { Self → List ℕ };

    fn name(&self) -> &[u8]
        ensures { result.now ≡ text self.now };
}

/// So many things at the end of a list are looked through one by one.
const FEW: usize = 8;

/// A growing list of things with names, which finds the first thing of a name in as many steps as the logarithm of its
/// length. Contracts see it as the list of its things.
#[derive(Drop)]
pub struct NameList<T: HasName> {
    items: Items<T>,
    places: BTreeMap<Vec<u8>, usize>,
    mapped: usize,
}

impl<T: HasName> Model for NameList<T> {
    ghost use Rattle.std.specs.Prelude.{List};
    ghost use Rattle.std.specs.Coded.{coded_list};
    ghost use Rattle.name_lists.specs.Names.{AreFirsts};

    ghost Value = { List T };

    ghost coded = { coded_list T.code };

    ghost view = { λ n. n.items };

    ghost invariant = { λ n. AreFirsts T.text n.items n.places n.mapped };
}
/// Enters a name with its place, unless it is there.
fn enter(
    alloc: Global,
    places: &mut BTreeMap<Vec<u8>, usize>,
    name: &[u8],
    place: usize,
) -> Result<(), AllocError>
    ensures ok { OnOk result ((sought : List ℕ) → place_at places.new sought ≡ or_place (place_at places.old sought) (bytes_eq name.now sought) place) }
    ensures err { OnErr result ((sought : List ℕ) → place_at places.new sought ≡ place_at places.old sought) }
{
    if places.contains_key(name) {
        return Ok(());
    }
    let mut key = Vec::new(alloc);
    key.extend_from_slice(name)?;
    places.insert(key, place)?;
    Ok(())
}

/// Takes out a name, if this is its place.
fn leave(places: &mut BTreeMap<Vec<u8>, usize>, name: &[u8], place: usize)
    ensures { (sought : List ℕ) → place_at places.new sought ≡ without_place (place_at places.old sought) (bytes_eq name.now sought) place }
{
    if let Some(found) = places.get(name) {
        if *found == place {
            places.remove(name);
        }
    }
}

impl<T: HasName> NameList<T> {
    /// The empty list, which takes no memory.
    pub fn new(alloc: Global) -> NameList<T>
        ensures { result ≡ [] }
    {
        NameList {
            items: Items::new(alloc),
            places: BTreeMap::new(alloc),
            mapped: 0,
        }
    }

    pub fn as_slice(&self) -> &[T]
        ensures { result.now ≡ self.now }
    {
        self.items.as_slice()
    }

    pub fn len(&self) -> usize
        ensures { result ≡ length self.now }
    {
        self.items.len()
    }

    /// The place of the first thing of this name.
    pub fn first(&self, name: &[u8]) -> Option<usize>
        ensures { result ≡ first_named T.text self.now name.now }
    {
        if let Some(place) = self.places.get(name) {
            return Some(*place);
        }
        let items = self.items.as_slice();
        for place in self.mapped..items.len() {
            if items[place].name() == name {
                return Some(place);
            }
        }
        None
    }

    pub fn into_items(self) -> Items<T>
        ensures { result ≡ self }
    {
        self.items
    }
}

impl<T: HasName + Drop> NameList<T> {
    /// Puts the next thing into the map.
    fn map_next(&mut self, alloc: Global) -> Result<(), AllocError>
        ensures { self.new ≡ self.old }
    {
        let items = self.items.as_slice();
        if self.mapped < items.len() {
            let name = items[self.mapped].name();
            enter(alloc, &mut self.places, name, self.mapped)?;
            self.mapped += 1;
        }
        Ok(())
    }

    /// Adds a thing at the end. Without memory the list stays as it was.
    pub fn push(&mut self, alloc: Global, item: T) -> Result<(), AllocError>
        ensures ok { OnOk result (self.new ≡ self.old ++ item ∷ []) }
        ensures err { OnErr result (self.new ≡ self.old) }
    {
        if self.items.len() - self.mapped >= FEW {
            for _turn in 0..FEW {
                self.map_next(alloc)?;
            }
        }
        self.items.push(item)?;
        Ok(())
    }

    /// Moves the things of another list behind these. Without memory some of them may be there.
    pub fn append(&mut self, alloc: Global, more: NameList<T>) -> Result<(), AllocError>
        ensures { OnOk result (self.new ≡ self.old ++ more) }
    {
        for item in more.into_items().into_vec() {
            self.push(alloc, item)?;
        }
        Ok(())
    }

    /// Takes the last thing off.
    pub fn pop(&mut self) -> Option<T>
        ensures { MatchOption result ((self.old ≡ []) × (self.new ≡ [])) (λ last. self.old ≡ self.new ++ last ∷ []) }
    {
        let item = self.items.pop()?;
        let place = self.items.len();
        if place < self.mapped {
            leave(&mut self.places, item.name(), place);
            self.mapped = place;
        }
        Some(item)
    }

    /// Keeps the first things, as many as this or all.
    pub fn truncate(&mut self, len: usize)
        ensures { self.new ≡ take len self.old }
    {
        while len < self.len() {
            let _last = self.pop();
        }
    }
}
