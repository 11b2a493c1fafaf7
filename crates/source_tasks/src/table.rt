//! Values by their numbers, in leaves that tables share.
ghost use Rattle.std.specs.Prelude.{◌≡◌, ◌≢◌, ℕ, map, [], IfOk, OnOk};
ghost use Rattle.std.specs.Option.{option_copied};
ghost use Rattle.source_meaning.specs.Values.{nothing, or_else, put};
ghost use Rattle.std.specs.Rc.{rc_value};
ghost use Rattle.source_tasks.specs.Table.{leaf_at, kept};

use crate::held::Held;
use crate::leaf::Leaf;
use std::alloc::{AllocError, Global};
use std::marker::Model;
use std::rc::Rc;

/// Values by number, in leaves of 64. One that was given none reads as the number 0.
#[derive(Drop)]
pub struct Table {
    leaves: Vec<Rc<Leaf>>,
}

impl Model for Table {
    ghost use Rattle.std.specs.Prelude.{List, map};
    ghost use Rattle.std.specs.Rc.{rc_value};
    ghost use Rattle.source_meaning.specs.declared.values.Val.{Val};

    ghost Value = { List (List Val) };

    ghost view = { λ t. map rc_value t.leaves.items };
}

impl Table {
    pub(crate) fn new(alloc: Global) -> Table
        ensures { result ≡ [] }
    {
        Table {
            leaves: Vec::new(alloc),
        }
    }

    #[tactic(auto, using(crate::proofs::Tables::leaf_shared))]
    pub(crate) fn get(&self, number: usize) -> Option<&Held>
        ensures { or_else nothing (option_copied result) ≡ kept self.now number }
    {
        match self.leaves.get(number / 64) {
            Some(leaf) => leaf.as_ref().get(number % 64),
            None => None,
        }
    }

    /// Gives a number its value. A leaf that another table shares is copied first.
    pub(crate) fn put(&mut self, alloc: Global, number: usize, held: Held) -> Result<(), AllocError>
        ensures here { OnOk result (kept self.new number ≡ held) }
        ensures others { OnOk result ((n : ℕ) → n ≢ number → kept self.new n ≡ kept self.old n) }
    {
        let place = number / 64;
        grow(alloc, &mut self.leaves, place + 1)?;
        let Some(leaf) = self.leaves.get_mut(place) else {
            return Err(AllocError);
        };
        put_in(alloc, leaf, number % 64, held)?;
        Ok(())
    }

    /// The same values, in the same leaves.
    pub(crate) fn share(&self, alloc: Global) -> Result<Table, AllocError>
        ensures { IfOk result (λ table. table ≡ self.now) }
    {
        let mut leaves = Vec::new(alloc);
        for leaf in &self.leaves {
            leaves.push(leaf.clone()?)?;
        }
        Ok(Table { leaves })
    }
}

/// Lengthens the list to this length by empty leaves.
fn grow(alloc: Global, leaves: &mut Vec<Rc<Leaf>>, len: usize) -> Result<(), AllocError>
    ensures { OnOk result ((k : ℕ) → leaf_at (map rc_value leaves.new.items) k ≡ leaf_at (map rc_value leaves.old.items) k) }
{
    while leaves.len() < len {
        let leaf = Rc::new(alloc, Leaf::new(alloc))?;
        leaves.push(leaf)?;
    }
    Ok(())
}

/// The same values in a leaf of their own.
fn copy_of(alloc: Global, leaf: &Rc<Leaf>) -> Result<Rc<Leaf>, AllocError>
    ensures { IfOk result (λ copy. copy.value ≡ leaf.now.value) }
{
    let copy = leaf.as_ref().copy(alloc)?;
    Ok(Rc::new(alloc, copy)?)
}

/// The same leaf, where nothing else shares it.
fn part(alloc: Global, leaf: &mut Rc<Leaf>) -> Result<(), AllocError>
    ensures { OnOk result (leaf.new.value ≡ leaf.old.value) }
{
    if Rc::strong_count(leaf) != 1 {
        *leaf = copy_of(alloc, leaf)?;
    }
    Ok(())
}

fn put_in(alloc: Global, leaf: &mut Rc<Leaf>, place: usize, held: Held) -> Result<(), AllocError>
    ensures { OnOk result (leaf.new.value ≡ put leaf.old.value place held) }
{
    part(alloc, leaf)?;
    match Rc::get_mut(leaf) {
        Some(leaf) => leaf.put(place, held),
        None => Err(AllocError),
    }
}
