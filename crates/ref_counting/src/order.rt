//! Numbers in order, each once.
ghost use Rattle.std.specs.Prelude.{◌≡◌, ◌≤◌, OnOk, length, slice_get};
ghost use Rattle.ref_counting.specs.Order as spec;

use std::alloc::AllocError;

/// How many numbers of an ordered list come before this one.
fn place(list: &[usize], number: usize) -> usize
    ensures value { result ≡ spec.place number list.now }
    ensures within { result ≤ length list.now }
{
    for (at, other) in list.iter().enumerate() {
        if *other >= number {
            return at;
        }
    }
    list.len()
}

fn stands(list: &[usize], at: usize, number: usize) -> bool
    ensures { result ≡ spec.is_number number (slice_get list.now at) }
{
    match list.get(at).copied() {
        Some(other) => other == number,
        None => false,
    }
}

/// Adds a number to an ordered list, unless it stands there.
#[tactic(auto, using(crate::proofs::OrderLemmas::kept_at, crate::proofs::OrderLemmas::placed_at))]
pub(crate) fn add_number(list: &mut Vec<usize>, number: usize) -> Result<(), AllocError>
    ensures { OnOk result (list.new.items ≡ spec.with_number number list.old.items) }
{
    let at = place(list, number);
    if stands(list, at, number) {
        return Ok(());
    }
    list.insert(at, number)?;
    Ok(())
}
