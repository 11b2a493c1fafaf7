//! What each task knows of the others, entry by entry.
ghost use Rattle.std.specs.Prelude.{◌≡◌, ◌<◌, ◌≤◌, ◌^◌, ◌+◌, ◌-◌, ℕ, List, suc, cond, max, IfOk, OnOk, length};
ghost use Rattle.ir_forms.specs.Names.{same_path, launched_by};
ghost use Rattle.race_order.specs.Clocks.{count, IsTree, HasEmpty, Grows};
ghost use Rattle.race_order.specs.Known.{Sight, learned, makes, entered, greatest, is_iteration, knows_nothing, own as own_counts, after_entry, known_by_members, known_by_all};
ghost use Rattle.race_order.specs.Sights.{number_in, counted, Shows, AreAdds, AreNumbers, Holds, with_member, IsAddedTo, IsKept};

use crate::clocks;
use crate::keys::{iteration_key, launched_key, made_key, maker, task_key};
use crate::table::Table;
use ir_forms::{Action, MadeName, Path, TraceEntry};
use lists::Items;
use std::alloc::{AllocError, Global};

/// An add to a group: the task whose token or value it is, and the clock of the task that adds it.
#[derive(Drop)]
pub(crate) struct Added {
    group: Vec<usize>,
    maker: Vec<usize>,
    adder: usize,
}

/// For each task its number, how many entries it took, how many iterations its last loop has and its clock; and the adds.
#[derive(Drop)]
pub(crate) struct Tasks {
    pub depth: u32,
    pub numbers: Table,
    pub taken: Table,
    pub turns: Table,
    pub clocks: Table,
    pub adds: Items<Added>,
}

/// What is known where all iterations of the task's loop have ended.
fn learn_iterations(
    alloc: Global,
    tasks: &Tasks,
    nodes: &mut Vec<(usize, usize)>,
    task: &Path,
    raised: usize,
) -> Result<usize, AllocError>
    ghost s: { Sight }
    requires holds { Holds s tasks.now nodes.old.items }
    requires tree { IsTree nodes.old.items tasks.now.depth raised }
    ensures { IfOk result (λ own. Grows nodes.old.items nodes.new.items × Shows (number_in tasks.now.numbers) tasks.now.depth nodes.new.items own (greatest (counted (number_in tasks.now.numbers) tasks.now.depth nodes.old.items raised) (known_by_all task.now (s.taken task.now) (s.turns task.now) s))) }
{
    let key = task_key(alloc, task)?;
    let action = tasks.taken.get(&key);
    let turns = tasks.turns.get(&key);
    let mut own = raised;
    for iteration in 0..turns {
        let made = iteration_key(alloc, task, action, iteration)?;
        own = clocks::join(nodes, tasks.depth, own, tasks.clocks.get(&made))?;
    }
    Ok(own)
}

/// What is known where this add's task has ended, if it is one to the group of this key.
fn learn_member(
    tasks: &Tasks,
    nodes: &mut Vec<(usize, usize)>,
    key: &[usize],
    added: &Added,
    own: usize,
) -> Result<usize, AllocError>
    ghost s: { Sight }
    requires holds { Holds s tasks.now nodes.old.items }
    requires tree { IsTree nodes.old.items tasks.now.depth own }
    requires adder { IsTree nodes.old.items tasks.now.depth added.now.adder }
    ensures tree { IfOk result (λ made. Grows nodes.old.items nodes.new.items × IsTree nodes.new.items tasks.now.depth made) }
    ensures value { IfOk result (λ made. (k : ℕ) → count nodes.new.items tasks.now.depth made k ≡ with_member tasks.now nodes.old.items key.now added.now own k) }
{
    let group = added.group.as_slice();
    if group == key {
        let learned = clocks::join(nodes, tasks.depth, own, tasks.clocks.get(&added.maker))?;
        clocks::join(nodes, tasks.depth, learned, added.adder)
    } else {
        Ok(own)
    }
}

/// What is known where the tasks of all members of a group have ended.
fn learn_members(
    alloc: Global,
    tasks: &Tasks,
    nodes: &mut Vec<(usize, usize)>,
    group: &MadeName,
    raised: usize,
) -> Result<usize, AllocError>
    ghost s: { Sight }
    requires holds { Holds s tasks.now nodes.old.items }
    requires tree { IsTree nodes.old.items tasks.now.depth raised }
    ensures { IfOk result (λ own. Grows nodes.old.items nodes.new.items × Shows (number_in tasks.now.numbers) tasks.now.depth nodes.new.items own (greatest (counted (number_in tasks.now.numbers) tasks.now.depth nodes.old.items raised) (known_by_members group.now s s.adds))) }
{
    let key = made_key(alloc, group)?;
    let mut own = raised;
    for at in 0..tasks.adds.len() {
        match tasks.adds.get(at) {
            Some(added) => own = learn_member(tasks, nodes, key.as_slice(), added, own)?,
            None => unreachable!(),
        }
    }
    Ok(own)
}

/// What an action teaches its task.
fn learn(
    alloc: Global,
    tasks: &Tasks,
    nodes: &mut Vec<(usize, usize)>,
    entry: &TraceEntry,
    raised: usize,
) -> Result<usize, AllocError>
    ghost s: { Sight }
    requires holds { Holds s tasks.now nodes.old.items }
    requires tree { IsTree nodes.old.items tasks.now.depth raised }
    ensures { IfOk result (λ own. Grows nodes.old.items nodes.new.items × Shows (number_in tasks.now.numbers) tasks.now.depth nodes.new.items own (greatest (counted (number_in tasks.now.numbers) tasks.now.depth nodes.old.items raised) (learned entry.now.task entry.now.action s))) }
{
    match &entry.action {
        Action::Await(name) => learn_task(alloc, tasks, nodes, maker(name), raised),
        Action::AwaitAll(group) => learn_members(alloc, tasks, nodes, group, raised),
        Action::JoinAll => learn_iterations(alloc, tasks, nodes, &entry.task, raised),
        Action::Read(_, _)
        | Action::Write(_, _)
        | Action::Alloc(_)
        | Action::Create(_)
        | Action::Add(_, _, _)
        | Action::Launch(_)
        | Action::Enter(_, _)
        | Action::End(_) => Ok(raised),
    }
}

/// What is known where this task has ended.
fn learn_task(
    alloc: Global,
    tasks: &Tasks,
    nodes: &mut Vec<(usize, usize)>,
    task: &Path,
    raised: usize,
) -> Result<usize, AllocError>
    ghost s: { Sight }
    requires holds { Holds s tasks.now nodes.old.items }
    requires tree { IsTree nodes.old.items tasks.now.depth raised }
    ensures { IfOk result (λ own. Grows nodes.old.items nodes.new.items × Shows (number_in tasks.now.numbers) tasks.now.depth nodes.new.items own (greatest (counted (number_in tasks.now.numbers) tasks.now.depth nodes.old.items raised) (s.knows task.now))) }
{
    let key = task_key(alloc, task)?;
    let learned = tasks.clocks.get(&key);
    let own = clocks::join(nodes, tasks.depth, raised, learned)?;
    Ok(own)
}

/// What the entry's task knows directly after it.
fn own_clock(
    alloc: Global,
    tasks: &Tasks,
    nodes: &mut Vec<(usize, usize)>,
    entry: &TraceEntry,
) -> Result<usize, AllocError>
    ghost s: { Sight }
    requires holds { Holds s tasks.now nodes.old.items }
    requires numbers { AreNumbers tasks.now.depth (number_in tasks.now.numbers) }
    requires numbered { 0 < number_in tasks.now.numbers entry.now.task }
    requires few { s.knows entry.now.task entry.now.task + 1 < 2 ^ 64 }
    ensures { IfOk result (λ own. Grows nodes.old.items nodes.new.items × Shows (number_in tasks.now.numbers) tasks.now.depth nodes.new.items own (own_counts entry.now s)) }
{
    let key = task_key(alloc, &entry.task)?;
    let before = tasks.clocks.get(&key);
    let number = tasks.numbers.get(&key);
    let count = clocks::get(nodes, tasks.depth, before, number);
    let raised = clocks::set(nodes, tasks.depth, before, number, count + 1)?;
    let own = learn(alloc, tasks, nodes, entry, raised)?;
    Ok(own)
}

/// Gives the iterations of a loop this clock.
fn make_iterations(
    alloc: Global,
    clocks: &mut Table,
    task: &Path,
    action: usize,
    iterations: u32,
    own: usize,
) -> Result<(), AllocError>
    ensures { OnOk result ((q : List ℕ) → number_in clocks.new q ≡ cond (is_iteration task.now action iterations q) own (number_in clocks.old q)) }
{
    for iteration in 0..iterations {
        let key = iteration_key(alloc, task, action, iteration as usize)?;
        clocks.set(key, own)?;
    }
    Ok(())
}

/// Gives the task that is launched this clock.
fn make_launched(
    alloc: Global,
    clocks: &mut Table,
    task: &Path,
    action: usize,
    own: usize,
) -> Result<(), AllocError>
    ensures { OnOk result ((q : List ℕ) → number_in clocks.new q ≡ cond (same_path (launched_by task.now action) q) own (number_in clocks.old q)) }
{
    let key = launched_key(alloc, task, action)?;
    clocks.set(key, own)
}

/// Gives the tasks that the entry makes its clock.
fn make_tasks(
    alloc: Global,
    clocks: &mut Table,
    entry: &TraceEntry,
    action: usize,
    own: usize,
) -> Result<(), AllocError>
    ensures { OnOk result ((q : List ℕ) → number_in clocks.new q ≡ cond (makes entry.now.action entry.now.task action q) own (number_in clocks.old q)) }
{
    match &entry.action {
        Action::Launch(_) => make_launched(alloc, clocks, &entry.task, action, own),
        Action::Enter(iterations, _) => {
            make_iterations(alloc, clocks, &entry.task, action, *iterations, own)
        }
        Action::Read(_, _)
        | Action::Write(_, _)
        | Action::Alloc(_)
        | Action::Create(_)
        | Action::Add(_, _, _)
        | Action::JoinAll
        | Action::Await(_)
        | Action::AwaitAll(_)
        | Action::End(_) => Ok(()),
    }
}

/// Keeps how many iterations the loop has that the entry enters.
fn count_turns(alloc: Global, turns: &mut Table, entry: &TraceEntry) -> Result<(), AllocError>
    ensures { OnOk result ((q : List ℕ) → number_in turns.new q ≡ cond (same_path entry.now.task q) (entered entry.now.action (number_in turns.old q)) (number_in turns.old q)) }
{
    if let Action::Enter(iterations, _) = &entry.action {
        let key = task_key(alloc, &entry.task)?;
        turns.set(key, *iterations as usize)?;
    }
    Ok(())
}

/// Keeps the add, if the entry is one.
fn keep_add(
    alloc: Global,
    adds: &mut Items<Added>,
    entry: &TraceEntry,
    own: usize,
) -> Result<(), AllocError>
    ensures { OnOk result (IsAddedTo entry.now.action own adds.old adds.new) }
{
    if let Action::Add(group, element, _) = &entry.action {
        let group = made_key(alloc, group)?;
        let maker = task_key(alloc, maker(element))?;
        adds.push(Added {
            group,
            maker,
            adder: own,
        })?;
    }
    Ok(())
}

/// Keeps what holds after the entry, whose task then has this clock.
fn keep(alloc: Global, tasks: &mut Tasks, entry: &TraceEntry, own: usize) -> Result<(), AllocError>
    requires few { number_in tasks.old.taken entry.now.task + 1 < 2 ^ 64 }
    ensures { OnOk result (IsKept entry.now own tasks.old tasks.new) }
{
    let key = task_key(alloc, &entry.task)?;
    let taken = tasks.taken.get(&key) + 1;
    make_tasks(alloc, &mut tasks.clocks, entry, taken, own)?;
    let own_key = task_key(alloc, &entry.task)?;
    tasks.clocks.set(own_key, own)?;
    count_turns(alloc, &mut tasks.turns, entry)?;
    keep_add(alloc, &mut tasks.adds, entry, own)?;
    tasks.taken.set(key, taken)?;
    Ok(())
}

/// Goes past an entry.
pub(crate) fn step(
    alloc: Global,
    tasks: &mut Tasks,
    nodes: &mut Vec<(usize, usize)>,
    entry: &TraceEntry,
) -> Result<(), AllocError>
    ghost s: { Sight }
    requires holds { Holds s tasks.old nodes.old.items }
    requires numbers { AreNumbers tasks.old.depth (number_in tasks.old.numbers) }
    requires numbered { 0 < number_in tasks.old.numbers entry.now.task }
    requires few { s.knows entry.now.task entry.now.task + 1 < 2 ^ 64 }
    requires few_taken { s.taken entry.now.task + 1 < 2 ^ 64 }
    ensures holds { OnOk result (Holds (after_entry entry.now s) tasks.new nodes.new.items) }
    ensures same { OnOk result ((tasks.new.depth ≡ tasks.old.depth) × (tasks.new.numbers ≡ tasks.old.numbers)) }
    ensures grows { OnOk result (Grows nodes.old.items nodes.new.items) }
{
    let own = own_clock(alloc, tasks, nodes, entry)?;
    keep(alloc, tasks, entry, own)?;
    Ok(())
}

/// Tables before the first entry, with these numbers of tasks.
pub(crate) fn start(alloc: Global, depth: u32, numbers: Table) -> Tasks
    ensures numbers { (result.depth ≡ depth) × (result.numbers ≡ numbers) }
    ensures holds { (nodes : List (ℕ × ℕ)) → HasEmpty nodes → Holds knows_nothing result nodes }
{
    Tasks {
        depth,
        numbers,
        taken: Table::new(alloc),
        turns: Table::new(alloc),
        clocks: Table::new(alloc),
        adds: Items::new(alloc),
    }
}

impl Tasks {
    /// How many entries of a task another one knows, both by their keys.
    pub(crate) fn known(&self, nodes: &[(usize, usize)], task: &[usize], other: &[usize]) -> usize
        ghost s: { Sight }
        requires holds { Holds s self.now nodes.now }
        requires deep { self.now.depth ≤ 64 }
        ensures { result ≡ s.knows task.now other.now }
    {
        let clock = self.clocks.get(task);
        let number = self.numbers.get(other);
        clocks::get(nodes, self.depth, clock, number)
    }
}
