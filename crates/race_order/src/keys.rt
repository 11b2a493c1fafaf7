//! Keys of tables: lists of numbers for tasks and what they make.
ghost use Rattle.std.specs.Prelude.{◌≡◌, ◌++◌, ◌∷◌, [], IfOk, OnOk};
ghost use Rattle.ir_forms.specs.Names as names;
ghost use Rattle.race_order.specs.Keys as keys;

use ir_forms::{ElementName, MadeName, Path};
use std::alloc::{AllocError, Global};

/// Adds the numbers of a path.
fn push_path(key: &mut Vec<usize>, path: &Path) -> Result<(), AllocError>
    ensures { OnOk result (key.new.items ≡ key.old.items ++ path.now) }
{
    for number in path.as_slice() {
        key.push(*number as usize)?;
    }
    Ok(())
}

/// The key of a task.
pub(crate) fn task_key(alloc: Global, task: &Path) -> Result<Vec<usize>, AllocError>
    ensures { IfOk result (λ key. key.items ≡ task.now) }
{
    let mut key = Vec::new(alloc);
    push_path(&mut key, task)?;
    Ok(key)
}

/// The key of the task that an action of this one launches.
pub(crate) fn launched_key(
    alloc: Global,
    task: &Path,
    action: usize,
) -> Result<Vec<usize>, AllocError>
    ensures { IfOk result (λ key. key.items ≡ names.launched_by task.now action) }
{
    let mut key = task_key(alloc, task)?;
    key.push(action)?;
    Ok(key)
}

/// The key of an iteration of the loop that an action of this task enters.
pub(crate) fn iteration_key(
    alloc: Global,
    task: &Path,
    action: usize,
    iteration: usize,
) -> Result<Vec<usize>, AllocError>
    ensures { IfOk result (λ key. key.items ≡ names.iteration_of task.now action iteration) }
{
    let mut key = task_key(alloc, task)?;
    key.push(action)?;
    key.push(iteration)?;
    Ok(key)
}

/// The key of a buffer or group.
pub(crate) fn made_key(alloc: Global, name: &MadeName) -> Result<Vec<usize>, AllocError>
    ensures { IfOk result (λ key. key.items ≡ keys.made_key name.now) }
{
    match name {
        MadeName::Argument { parameter } => {
            let mut key = Vec::new(alloc);
            key.push(0)?;
            key.push(*parameter as usize)?;
            Ok(key)
        }
        MadeName::Made { task, action } => {
            let mut key = Vec::new(alloc);
            key.push(1)?;
            key.push(*action as usize)?;
            push_path(&mut key, task)?;
            Ok(key)
        }
    }
}

/// The task whose token or value it is.
pub(crate) fn maker(name: &ElementName) -> &Path
    ensures { result.now ≡ names.maker name.now }
{
    match name {
        ElementName::Token { task } => task,
        ElementName::Value { task, result: _ } => task,
    }
}
