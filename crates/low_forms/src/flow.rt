//! What blocks assign, and what they need from the blocks before them.
ghost use Rattle.std.specs.Prelude.{◌≡◌, OnOk, IfOk, ◌++◌, map, slice_get};
ghost use Rattle.low_forms.specs.Assigned.{numbers, assigned_by, block_assigns, assigns};
ghost use Rattle.low_forms.specs.Given.{is_free, with_one, with_given, free_of, free_args, free_by, with_results, params_given, frees_from, block_frees};

use crate::code::{Block, Instr, LowFunc, Reg, Target};
use lists::Items;
use std::alloc::{AllocError, Global};

fn push_numbers(list: &mut Items<usize>, regs: &[Reg]) -> Result<(), AllocError>
    ensures { OnOk result (list.new ≡ list.old ++ numbers regs.now) }
{
    for reg in regs {
        list.push(reg.0 as usize)?;
    }
    Ok(())
}

/// What a block assigns.
fn block_assigns(alloc: Global, block: &Block) -> Result<Items<usize>, AllocError>
    ensures { IfOk result (λ list. list ≡ block_assigns block.now) }
{
    let mut list = Items::new(alloc);
    push_numbers(&mut list, block.params.as_slice())?;
    for instr in block.instrs.as_slice() {
        push_numbers(&mut list, instr.results.as_slice())?;
    }
    Ok(list)
}

/// By block, what it assigns.
pub(crate) fn assigns(alloc: Global, func: &LowFunc) -> Result<Vec<Items<usize>>, AllocError>
    ensures { IfOk result (λ lists. lists.items ≡ assigns func.now) }
{
    let mut lists = Vec::new(alloc);
    for block in func.blocks.as_slice() {
        lists.push(block_assigns(alloc, block)?)?;
    }
    Ok(lists)
}

fn is_free(marks: &[bool], place: usize) -> bool
    ensures { result ≡ is_free (slice_get marks.now place) }
{
    match marks.get(place).copied() {
        Some(mark) => !mark,
        None => false,
    }
}

fn give_one(marks: &mut Vec<bool>, place: usize)
    ensures { marks.new.items ≡ with_one place marks.old.items }
{
    if is_free(marks, place) {
        marks[place] = true;
    }
}

/// Marks registers as given.
fn give(marks: &mut Vec<bool>, regs: &[Reg])
    ensures { marks.new.items ≡ with_given regs.now marks.old.items }
{
    for reg in regs {
        give_one(marks, reg.0 as usize);
    }
}

/// Adds those of the registers that aren't given.
fn push_free(list: &mut Items<usize>, marks: &[bool], regs: &[Reg]) -> Result<(), AllocError>
    ensures { OnOk result (list.new ≡ list.old ++ free_of marks.now regs.now) }
{
    for reg in regs {
        let place = reg.0 as usize;
        if is_free(marks, place) {
            list.push(place)?;
        }
    }
    Ok(())
}

fn push_free_args(
    list: &mut Items<usize>,
    marks: &[bool],
    targets: &[Target],
) -> Result<(), AllocError>
    ensures { OnOk result (list.new ≡ list.old ++ free_args marks.now targets.now) }
{
    for target in targets {
        push_free(list, marks, target.args.as_slice())?;
    }
    Ok(())
}

/// Adds what instructions use that isn't given before, and gives what they assign.
fn push_needs(
    list: &mut Items<usize>,
    marks: &mut Vec<bool>,
    instrs: &[Instr],
) -> Result<(), AllocError>
    ensures list { OnOk result (list.new ≡ list.old ++ free_by marks.old.items instrs.now) }
    ensures marks { OnOk result (marks.new.items ≡ with_results instrs.now marks.old.items) }
{
    for instr in instrs {
        push_free(list, marks, instr.operands.as_slice())?;
        give(marks, instr.results.as_slice());
    }
    Ok(())
}

/// The marks of a function's parameters.
fn params_given(alloc: Global, func: &LowFunc) -> Result<Vec<bool>, AllocError>
    ensures { IfOk result (λ marks. marks.items ≡ params_given func.now) }
{
    let mut marks = vec![in alloc; false; func.regs.len()]?;
    give(&mut marks, func.params.as_slice());
    Ok(marks)
}

/// What a block needs from the blocks before it, where these registers are given.
fn block_needs(alloc: Global, given: &[bool], block: &Block) -> Result<Items<usize>, AllocError>
    ensures { IfOk result (λ list. list ≡ frees_from given.now block.now) }
{
    let mut list = Items::new(alloc);
    let mut marks = Vec::from_slice(alloc, given)?;
    give(&mut marks, block.params.as_slice());
    push_needs(&mut list, &mut marks, block.instrs.as_slice())?;
    push_free(&mut list, &marks, block.term.instr.operands.as_slice())?;
    push_free_args(&mut list, &marks, block.term.targets.as_slice())?;
    Ok(list)
}

/// By block, what it needs.
pub(crate) fn needs(alloc: Global, func: &LowFunc) -> Result<Vec<Items<usize>>, AllocError>
    ensures { IfOk result (λ lists. lists.items ≡ map (block_frees func.now) func.now.blocks) }
{
    let given = params_given(alloc, func)?;
    let mut lists = Vec::new(alloc);
    for block in func.blocks.as_slice() {
        lists.push(block_needs(alloc, &given, block)?)?;
    }
    Ok(lists)
}
