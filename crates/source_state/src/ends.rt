//! How tasks ended, by their paths.
ghost use Rattle.std.specs.Prelude.{◌≡◌, ◌++◌, ◌∷◌, [], IfOk, OnOk};
ghost use Rattle.std.specs.Option.{option_map, option_copied};
ghost use Rattle.ir_forms.specs.Names as names;
ghost use Rattle.ir_forms.specs.Names.{iteration_of};
ghost use Rattle.source_meaning.specs.World as world;
ghost use Rattle.source_meaning.specs.World.{all_of, all_below};
ghost use Rattle.source_state.specs.Seen.{outcome_of, ends_of, end_of};

use ir_forms::ElementName;
use lists::Items;
use source_meaning::{Val, copy_val};
use std::alloc::{AllocError, Global};
use std::collections::BTreeMap;

/// How a task ended: with the values of its last operation, or at the operation of this number, which
/// failed.
#[derive(Drop)]
pub enum Ended {
    Gave(Items<Val>),
    FailedAt(u32),
}

/// The end of a task, if it has ended.
fn ended_at<'a>(ends: &'a BTreeMap<Vec<u32>, Ended>, task: &[u32]) -> Option<&'a Ended>
    ensures { option_map outcome_of (option_copied result) ≡ end_of (ends_of ends.now.entries) task.now }
{
    ends.get(task)
}

/// The task ended without failure.
fn is_good(ends: &BTreeMap<Vec<u32>, Ended>, task: &[u32]) -> bool
    ensures { result ≡ world.is_good (end_of (ends_of ends.now.entries) task.now) }
{
    matches!(ended_at(ends, task), Some(Ended::Gave(_)))
}

/// The task whose token or value it is.
fn maker(element: &ElementName) -> &[u32]
    ensures { result.now ≡ names.maker element.now }
{
    match element {
        ElementName::Token { task } => task.as_slice(),
        ElementName::Value { task, .. } => task.as_slice(),
    }
}

/// What an await of the element gives: nothing for a token, the value of its place; or the error.
pub(crate) fn awaited(
    alloc: Global,
    ends: &BTreeMap<Vec<u32>, Ended>,
    element: &ElementName,
) -> Result<Option<Items<Val>>, AllocError>
    ensures { IfOk result (λ a. a ≡ world.awaited element.now (end_of (ends_of ends.now.entries) (names.maker element.now))) }
{
    let Some(Ended::Gave(vals)) = ended_at(ends, maker(element)) else {
        return Ok(None);
    };
    let mut given = Items::new(alloc);
    if let ElementName::Value { result, .. } = element {
        match vals.get(*result as usize) {
            Some(val) => given.push(copy_val(alloc, val)?)?,
            None => given.push(Val::Number(0))?,
        }
    }
    Ok(Some(given))
}

/// The makers of all these elements ended without failure.
pub(crate) fn all_good(ends: &BTreeMap<Vec<u32>, Ended>, members: &[ElementName]) -> bool
    ensures { result ≡ all_of (λ x. world.is_good (end_of (ends_of ends.now.entries) (names.maker x))) members.now }
{
    let mut left = members;
    loop {
        let Some((member, more)) = left.split_first() else {
            return true;
        };
        if !is_good(ends, maker(member)) {
            return false;
        }
        left = more;
    }
}

/// The task whose path is this one with one more number ended without failure.
#[tactic(auto, using(crate::proofs::Loops::cut_back))]
fn is_next_good(
    ends: &BTreeMap<Vec<u32>, Ended>,
    path: &mut Vec<u32>,
    i: u32,
) -> Result<bool, AllocError>
    ensures same { OnOk result (path.new.items ≡ path.old.items) }
    ensures good { IfOk result (λ good. good ≡ world.is_good (end_of (ends_of ends.now.entries) (path.old.items ++ i ∷ []))) }
{
    let depth = path.len();
    path.push(i)?;
    let good = is_good(ends, path.as_slice());
    path.truncate(depth);
    Ok(good)
}

/// All iterations of the loop that the task entered by the action of this number ended without failure.
#[tactic(auto, using(crate::proofs::Loops::below_false, crate::proofs::Loops::below_more, crate::proofs::Loops::iteration_path))]
pub(crate) fn all_joined(
    alloc: Global,
    ends: &BTreeMap<Vec<u32>, Ended>,
    task: &[u32],
    action: u32,
    total: u32,
) -> Result<bool, AllocError>
    ensures { IfOk result (λ good. good ≡ all_below (λ i. world.is_good (end_of (ends_of ends.now.entries) (iteration_of task.now action i))) total) }
{
    let mut path = Vec::from_slice(alloc, task)?;
    path.push(action)?;
    for i in 0..total {
        if !is_next_good(ends, &mut path, i)? {
            return Ok(false);
        }
    }
    Ok(true)
}
