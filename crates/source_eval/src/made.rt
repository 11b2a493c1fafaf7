//! Names and values that an action makes.
ghost use Rattle.std.specs.Prelude.{◌≡◌, ◌+◌, ◌^◌, ◌<◌, ◌++◌, ◌∷◌, [], length, IfOk, OnOk};
ghost use Rattle.ir_forms.specs.Names.{launched_by, iteration_of};
ghost use Rattle.ir_forms.specs.declared.names.MadeName.TheVariants.{Made};
ghost use Rattle.source_meaning.specs.World.{elements_of};
ghost use Rattle.source_meaning.specs.Sequential.{shows};
ghost use Rattle.source_meaning.specs.Start as start;
ghost use Rattle.source_meaning.specs.Start.{arguments};

use ir_forms::{Action, ArgValue, ElementName, MadeName, Path, TraceEntry};
use lists::Items;
use source_meaning::Val;
use std::alloc::{AllocError, Global};

/// The path with one more number.
pub(crate) fn launch_path(alloc: Global, task: &[u32], action: u32) -> Result<Path, AllocError>
    ensures { IfOk result (λ path. path ≡ launched_by task.now action) }
{
    let mut path = Items::from_slice(alloc, task)?;
    path.push(action)?;
    Ok(path)
}

/// The path of an iteration of the loop that the task entered by its action of this number.
#[tactic(auto, using(crate::proofs::Paths::iteration_path))]
pub(crate) fn iteration_path(
    alloc: Global,
    task: &[u32],
    action: u32,
    i: u32,
) -> Result<Path, AllocError>
    ensures { IfOk result (λ path. path ≡ iteration_of task.now action i) }
{
    let mut path = launch_path(alloc, task, action)?;
    path.push(i)?;
    Ok(path)
}

/// The name of what the task makes by its action of this number.
pub(crate) fn made_by(alloc: Global, task: &[u32], action: u32) -> Result<MadeName, AllocError>
    ensures { IfOk result (λ name. name ≡ Made task.now action) }
{
    Ok(MadeName::Made {
        task: Items::from_slice(alloc, task)?,
        action,
    })
}

/// The one value.
pub(crate) fn one(alloc: Global, val: Val) -> Result<Items<Val>, AllocError>
    ensures { IfOk result (λ vals. vals ≡ val ∷ []) }
{
    let mut vals = Items::new(alloc);
    vals.push(val)?;
    Ok(vals)
}

/// The token and the values of the task that is launched by this action.
#[tactic(auto, using(crate::proofs::Paths::elements_more))]
pub(crate) fn elements(
    alloc: Global,
    task: &[u32],
    action: u32,
    results: u32,
) -> Result<Items<Val>, AllocError>
    ensures { IfOk result (λ vals. vals ≡ elements_of (launched_by task.now action) results) }
{
    let token = ElementName::Token {
        task: launch_path(alloc, task, action)?,
    };
    let mut vals = one(alloc, Val::Element(token))?;
    for j in 0..results {
        let value = ElementName::Value {
            task: launch_path(alloc, task, action)?,
            result: j,
        };
        vals.push(Val::Element(value))?;
    }
    Ok(vals)
}

/// Adds an action of a task to the trace.
pub(crate) fn show(
    alloc: Global,
    entries: &mut Items<TraceEntry>,
    path: &[u32],
    action: Action,
) -> Result<(), AllocError>
    ensures { OnOk result (entries.new ≡ entries.old ++ shows path.now action ∷ []) }
{
    let task = Items::from_slice(alloc, path)?;
    entries.push(TraceEntry { task, action })
}

/// The value of the parameter at this place.
fn argument(alloc: Global, place: u32, arg: &ArgValue) -> Result<Val, AllocError>
    ensures { IfOk result (λ val. val ≡ start.argument place arg.now) }
{
    match arg {
        ArgValue::Number(number) => Ok(Val::Number(*number)),
        ArgValue::Cells { dims, .. } => Ok(Val::Memory {
            buffer: MadeName::Argument { parameter: place },
            dims: Items::from_slice(alloc, dims.as_slice())?,
        }),
    }
}

/// The values of the parameters.
#[tactic(auto, using(crate::proofs::Paths::snoc_append))]
pub(crate) fn arguments(alloc: Global, args: &[ArgValue]) -> Result<Items<Val>, AllocError>
    ensures { IfOk result (λ vals. vals ≡ arguments 0 args.now) }
{
    if args.len() > 4_294_967_295 {
        return Err(AllocError);
    }
    let mut vals = Items::new(alloc);
    let mut left = args;
    let mut place: u32 = 0;
    loop {
        let Some((arg, more)) = left.split_first() else {
            return Ok(vals);
        };
        vals.push(argument(alloc, place, arg)?)?;
        place += 1;
        left = more;
    }
}
