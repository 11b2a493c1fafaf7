ghost use Rattle.std.specs.Prelude.{◌≡◌, ◌<◌, OnOk, IfOk, length, replicate, [], ◌∷◌};
ghost use Rattle.low_flow.specs.Lists.{IsInverse, has, is_last, list_at, with_last, with_place, with_places, with_lists};

use lists::Items;
use std::alloc::{AllocError, Global};

#[tactic(auto, using(crate::proofs::InverseLemmas::last_none))]
fn is_last(places: &[usize], place: usize) -> bool
    ensures { result ≡ is_last place places.now }
{
    match places.last().copied() {
        Some(last) => last == place,
        None => false,
    }
}

/// Adds a place, but for one that was the last one added.
fn add_last(places: &mut Items<usize>, place: usize) -> Result<(), AllocError>
    ensures { OnOk result (places.new ≡ with_last place places.old) }
{
    if !is_last(places.as_slice(), place) {
        places.push(place)?;
    }
    Ok(())
}

/// Adds a place to the list at a number, if there is one.
fn note(lists: &mut Vec<Items<usize>>, number: usize, place: usize) -> Result<(), AllocError>
    ensures { OnOk result (lists.new.items ≡ with_place place number lists.old.items) }
{
    if number < lists.len() {
        add_last(&mut lists[number], place)?;
    }
    Ok(())
}

fn note_all(
    lists: &mut Vec<Items<usize>>,
    numbers: &[usize],
    place: usize,
) -> Result<(), AllocError>
    ensures { OnOk result (lists.new.items ≡ with_places place numbers.now lists.old.items) }
{
    for number in numbers {
        note(lists, *number, place)?;
    }
    Ok(())
}

/// As many empty lists.
fn empty_lists(alloc: Global, len: usize) -> Result<Vec<Items<usize>>, AllocError>
    ensures { IfOk result (λ lists. lists.items ≡ replicate len []) }
{
    let mut lists = Vec::new(alloc);
    for _turn in 0..len {
        lists.push(Items::new(alloc))?;
    }
    Ok(lists)
}

/// For each number below `len` the places of the lists that hold it.
pub fn inverse(
    alloc: Global,
    lists: &[Items<usize>],
    len: usize,
) -> Result<Vec<Items<usize>>, AllocError>
    ensures { IfOk result (λ inverse. IsInverse lists.now len inverse.items) }
{
    let mut inverse = empty_lists(alloc, len)?;
    for (place, numbers) in lists.iter().enumerate() {
        note_all(&mut inverse, numbers.as_slice(), place)?;
    }
    Ok(inverse)
}

/// The list at a place; one that is missing is empty.
#[tactic(auto, using(crate::proofs::Membership::at_read, crate::proofs::Membership::at_beyond))]
pub(crate) fn list_at(lists: &[Items<usize>], place: usize) -> &[usize]
    ensures { result.now ≡ list_at lists.now place }
{
    if place < lists.len() {
        lists[place].as_slice()
    } else {
        &[]
    }
}

pub(crate) fn has(list: &[usize], number: usize) -> bool
    ensures { result ≡ has number list.now }
{
    for member in list {
        if *member == number {
            return true;
        }
    }
    false
}
