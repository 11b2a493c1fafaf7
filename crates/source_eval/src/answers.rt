//! What the shared state answers to a task's action.
ghost use Rattle.std.specs.Prelude.{◌≡◌, ◌+◌, ◌^◌, ◌<◌, ◌≤◌, ℕ, None, IfOk};
ghost use Rattle.ir_forms.specs.Names.{Path};
ghost use Rattle.ir_forms.specs.Shapes.{product, most_cells};
ghost use Rattle.source_meaning.specs.Tasks as ask;
ghost use Rattle.source_meaning.specs.Tasks.{Ask, Loop};
ghost use Rattle.source_meaning.specs.World as world;
ghost use Rattle.source_meaning.specs.World.{World};
ghost use Rattle.source_state.specs.Seen.{Alike};
ghost use Rattle.source_eval.specs.declared.answers.Answered.TheVariants as answered;
ghost use Rattle.source_tasks.specs.Asking.{IsAsk};
ghost use Rattle.source_tasks.specs.Numbers.{capped};
ghost use Rattle.source_eval.specs.Answered.{IsAnswered};

use crate::made::{elements, made_by, one};
use ir_forms::{Action, ElementName, MadeName, copy_element};
use lists::Items;
use source_meaning::{SourceEnd, Val};
use source_state::Shared;
use source_tasks::{Asked, Task};
use std::alloc::{AllocError, Global};

/// What came of what a task asked: the action that it shows, with the answer, in which `None` is the
/// error, and the task that it launched; or the end of the whole run.
#[derive(Drop)]
pub(crate) enum Answered<'a> {
    Goes {
        action: Action,
        answer: Option<Items<Val>>,
        launched: Option<Task<'a>>,
    },
    Stops(SourceEnd),
}

/// The task goes on with these values, or fails where there are none.
fn goes<'a>(action: Action, answer: Option<Items<Val>>) -> Answered<'a>
    ensures { result ≡ answered.Goes action answer None }
{
    Answered::Goes {
        action,
        answer,
        launched: None,
    }
}

/// Nothing, where it went well, and else the error.
fn unless_failed(alloc: Global, good: bool) -> Option<Items<Val>>
    ensures { result ≡ world.unless_failed good }
{
    if good { Some(Items::new(alloc)) } else { None }
}

/// A number as a trace shows it.
fn shown(number: u64) -> Result<u32, AllocError>
    ensures { IfOk result (λ n. (n ≡ number) × (number < 2 ^ 32)) }
{
    if number <= 4_294_967_295 {
        Ok(number as u32)
    } else {
        Err(AllocError)
    }
}

fn read<'a>(
    alloc: Global,
    shared: &Shared,
    buffer: MadeName,
    cell: u64,
) -> Result<Answered<'a>, AllocError>
    ensures { IfOk result (λ r. (w : World) (i : ℕ) (p : Path) (k : ℕ) → Alike shared.now w → cell ≡ capped i → IsAnswered r shared.now w p k (ask.Reads buffer i)) }
{
    let place = shown(cell)?;
    let number = shared.read(alloc, &buffer, cell)?;
    let answer = one(alloc, Val::Number(number))?;
    Ok(goes(Action::Read(buffer, place), Some(answer)))
}

fn write<'a>(
    alloc: Global,
    shared: &mut Shared,
    buffer: MadeName,
    cell: u64,
    number: u64,
) -> Result<Answered<'a>, AllocError>
    ensures { IfOk result (λ r. (w : World) (i : ℕ) (p : Path) (k : ℕ) → Alike shared.old w → cell ≡ capped i → IsAnswered r shared.new w p k (ask.Writes buffer i number)) }
{
    let place = shown(cell)?;
    shared.write(alloc, &buffer, cell, number)?;
    Ok(goes(Action::Write(buffer, place), Some(Items::new(alloc))))
}

fn make_buffer<'a>(
    alloc: Global,
    shared: &mut Shared,
    path: &[u32],
    taken: u32,
    dims: Items<u32>,
    cells: u32,
) -> Result<Answered<'a>, AllocError>
    requires counts { taken + 1 < 2 ^ 32 }
    requires product { cells ≡ product dims }
    requires most { cells ≤ most_cells }
    ensures { IfOk result (λ r. (w : World) → Alike shared.old w → IsAnswered r shared.new w path.now taken (ask.Allocs dims)) }
{
    let used = shared.used();
    if used + cells > 16_777_216 {
        return Ok(Answered::Stops(SourceEnd::Cells { used }));
    }
    shared.make_buffer(alloc, path, taken, cells)?;
    let buffer = made_by(alloc, path, taken + 1)?;
    let answer = one(alloc, Val::Memory { buffer, dims })?;
    Ok(goes(Action::Alloc(cells), Some(answer)))
}

fn make_group<'a>(
    alloc: Global,
    shared: &mut Shared,
    path: &[u32],
    taken: u32,
    size: u32,
) -> Result<Answered<'a>, AllocError>
    requires { taken + 1 < 2 ^ 32 }
    ensures { IfOk result (λ r. (w : World) → Alike shared.old w → IsAnswered r shared.new w path.now taken (ask.Creates size)) }
{
    shared.make_group(alloc, path, taken, size)?;
    let group = made_by(alloc, path, taken + 1)?;
    let answer = one(alloc, Val::Group(group))?;
    Ok(goes(Action::Create(size), Some(answer)))
}

fn add<'a>(
    alloc: Global,
    shared: &mut Shared,
    group: MadeName,
    element: ElementName,
    used: bool,
) -> Result<Answered<'a>, AllocError>
    ensures { IfOk result (λ r. (w : World) (p : Path) (k : ℕ) → Alike shared.old w → IsAnswered r shared.new w p k (ask.Adds group element used)) }
{
    let fill = shared.fill(alloc, &group)?;
    if fill.added >= fill.size {
        return Ok(Answered::Stops(SourceEnd::Overfull {
            group,
            size: fill.size,
        }));
    }
    let member = copy_element(alloc, &element)?;
    shared.add(alloc, &group, member)?;
    let answer = one(alloc, Val::Number(fill.added))?;
    Ok(goes(Action::Add(group, element, used), Some(answer)))
}

fn launch<'a>(
    alloc: Global,
    shared: &Shared,
    path: &[u32],
    taken: u32,
    task: Task<'a>,
    results: usize,
) -> Result<Answered<'a>, AllocError>
    requires { taken + 1 < 2 ^ 32 }
    ensures { IfOk result (λ r. (w : World) → Alike shared.now w → IsAnswered r shared.now w path.now taken (ask.Launches task.entry results)) }
{
    let results = shown(results as u64)?;
    let answer = elements(alloc, path, taken + 1, results)?;
    Ok(Answered::Goes {
        action: Action::Launch(results),
        answer: Some(answer),
        launched: Some(task),
    })
}

fn join<'a>(
    alloc: Global,
    shared: &Shared,
    path: &[u32],
    taken: u32,
    total: u32,
) -> Result<Answered<'a>, AllocError>
    ensures { IfOk result (λ r. (w : World) (loop : Loop) → loop.total ≡ total → Alike shared.now w → IsAnswered r shared.now w path.now taken (ask.JoinsAll loop)) }
{
    let good = shared.all_joined(alloc, path, taken, total)?;
    Ok(goes(Action::JoinAll, unless_failed(alloc, good)))
}

fn await_one<'a>(
    alloc: Global,
    shared: &Shared,
    element: ElementName,
) -> Result<Answered<'a>, AllocError>
    ensures { IfOk result (λ r. (w : World) (p : Path) (k : ℕ) → Alike shared.now w → IsAnswered r shared.now w p k (ask.AwaitsOne element)) }
{
    let answer = shared.awaited(alloc, &element)?;
    Ok(goes(Action::Await(element), answer))
}

fn await_all<'a>(
    alloc: Global,
    shared: &Shared,
    group: MadeName,
) -> Result<Answered<'a>, AllocError>
    ensures { IfOk result (λ r. (w : World) (p : Path) (k : ℕ) → Alike shared.now w → IsAnswered r shared.now w p k (ask.AwaitsAll group)) }
{
    let fill = shared.fill(alloc, &group)?;
    if fill.added < fill.size {
        return Ok(Answered::Stops(SourceEnd::Short {
            group,
            added: fill.added,
            size: fill.size,
        }));
    }
    let good = shared.all_good(alloc, &group)?;
    Ok(goes(Action::AwaitAll(group), unless_failed(alloc, good)))
}

/// What the shared state answers to what a task asks, which has this path and has taken so many actions.
pub(crate) fn answer<'a>(
    alloc: Global,
    shared: &mut Shared,
    path: &[u32],
    taken: u32,
    asked: Asked<'a>,
) -> Result<Answered<'a>, AllocError>
    requires counts { taken + 1 < 2 ^ 32 }
    requires posed { (t : ask.Task) × (a : Ask) × IsAsk asked t a }
    ensures { IfOk result (λ r. (w : World) (t : ask.Task) (a : Ask) → IsAsk asked.entry t a → Alike shared.old w → IsAnswered r shared.new w path.now taken a) }
{
    match asked {
        Asked::Reads { buffer, cell } => read(alloc, shared, buffer, cell),
        Asked::Writes {
            buffer,
            cell,
            number,
        } => write(alloc, shared, buffer, cell, number),
        Asked::Allocs { dims, cells } => make_buffer(alloc, shared, path, taken, dims, cells),
        Asked::Creates { size } => make_group(alloc, shared, path, taken, size),
        Asked::Adds {
            group,
            element,
            used,
        } => add(alloc, shared, group, element, used),
        Asked::Launches { task, results } => launch(alloc, shared, path, taken, task, results),
        Asked::Enters { total, split } => {
            Ok(goes(Action::Enter(total, split), Some(Items::new(alloc))))
        }
        Asked::JoinsAll { total } => join(alloc, shared, path, taken, total),
        Asked::AwaitsOne(element) => await_one(alloc, shared, element),
        Asked::AwaitsAll(group) => await_all(alloc, shared, group),
    }
}
