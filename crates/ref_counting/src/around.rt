//! Counts round instructions, and before terminators.
ghost use Rattle.std.specs.Prelude.{◌≡◌, ◌+◌, ◌∷◌, ◌++◌, [], IfOk, OnOk};
ghost use Rattle.low_flow.specs.Lists.{list_at};
ghost use Rattle.low_forms.specs.Edges.{edges};
ghost use Rattle.ref_counting.specs.Objects as spec;
ghost use Rattle.ref_counting.specs.Shape as shape;

use crate::copies::{add_ref, copy_instr, drop_ref};
use crate::objects::{is_return, taken, taken_at_end, times, used};
use crate::plan::Plan;
use lists::Items;
use low_forms::{Instr, Reg, Term};
use std::alloc::{AllocError, Global};

/// The place behind this one.
fn behind(row: usize) -> Result<usize, AllocError>
    ensures { IfOk result (λ next. next ≡ row + 1) }
{
    row.checked_add(1).ok_or(AllocError)
}

fn push_adds(
    alloc: Global,
    instrs: &mut Items<Instr>,
    taken: &[Reg],
    numbers: &[usize],
) -> Result<(), AllocError>
    ensures { OnOk result (instrs.new ≡ instrs.old ++ shape.adds taken.now numbers.now) }
{
    for number in numbers {
        instrs.push(add_ref(alloc, *number, times(*number, taken))?)?;
    }
    Ok(())
}

fn push_return(
    alloc: Global,
    instrs: &mut Items<Instr>,
    number: usize,
    times: u64,
) -> Result<(), AllocError>
    ensures { OnOk result (instrs.new ≡ instrs.old ++ shape.added_at_return number times) }
{
    if times > 1 {
        instrs.push(add_ref(alloc, number, times - 1)?)?;
    }
    Ok(())
}

impl<'a> Plan<'a> {
    /// The counted ones among what an instruction takes.
    fn numbers_taken(&self, alloc: Global, taken: &[Reg]) -> Result<Vec<usize>, AllocError>
        ensures { IfOk result (λ list. list.items ≡ spec.with_counted self.now taken.now []) }
    {
        let mut list = Vec::new(alloc);
        self.add_counted(&mut list, taken)?;
        Ok(list)
    }

    fn touched(&self, alloc: Global, instr: &Instr) -> Result<Vec<usize>, AllocError>
        ensures { IfOk result (λ list. list.items ≡ spec.touched self.now instr.now) }
    {
        let mut list = Vec::new(alloc);
        self.add_counted(&mut list, used(instr))?;
        self.add_counted(&mut list, taken(instr))?;
        self.add_counted(&mut list, instr.results.as_slice())?;
        Ok(list)
    }

    fn push_drop(
        &self,
        alloc: Global,
        instrs: &mut Items<Instr>,
        block: usize,
        row: usize,
        number: usize,
    ) -> Result<(), AllocError>
        ensures { OnOk result (instrs.new ≡ instrs.old ++ shape.dropped_dead self.now block row number) }
    {
        if self.is_live(block, row, number)? {
            return Ok(());
        }
        instrs.push(drop_ref(alloc, number)?)
    }

    fn push_drops(
        &self,
        alloc: Global,
        instrs: &mut Items<Instr>,
        block: usize,
        row: usize,
        numbers: &[usize],
    ) -> Result<(), AllocError>
        ensures { OnOk result (instrs.new ≡ instrs.old ++ shape.drops self.now block row numbers.now) }
    {
        for number in numbers {
            self.push_drop(alloc, instrs, block, row, *number)?;
        }
        Ok(())
    }

    fn push_around(
        &self,
        alloc: Global,
        instrs: &mut Items<Instr>,
        block: usize,
        row: usize,
        instr: &Instr,
    ) -> Result<(), AllocError>
        ensures { OnOk result (instrs.new ≡ instrs.old ++ shape.around self.now block row instr.now) }
    {
        let numbers = self.numbers_taken(alloc, taken(instr))?;
        let touched = self.touched(alloc, instr)?;
        let next = behind(row)?;
        push_adds(alloc, instrs, taken(instr), &numbers)?;
        instrs.push(copy_instr(alloc, instr)?)?;
        self.push_drops(alloc, instrs, block, next, &touched)
    }

    /// Adds the instructions of a block, with counts round them.
    pub(crate) fn push_rows(
        &self,
        alloc: Global,
        instrs: &mut Items<Instr>,
        block: usize,
        rows: &[Instr],
    ) -> Result<(), AllocError>
        ensures { OnOk result (instrs.new ≡ instrs.old ++ shape.rows self.now block 0 rows.now) }
    {
        for (row, instr) in rows.iter().enumerate() {
            self.push_around(alloc, instrs, block, row, instr)?;
        }
        Ok(())
    }

    // ---- terminators

    fn push_moved(
        &self,
        alloc: Global,
        instrs: &mut Items<Instr>,
        targets: &[usize],
        number: usize,
        times: u64,
    ) -> Result<(), AllocError>
        ensures { OnOk result (instrs.new ≡ instrs.old ++ shape.moved self.now targets.now number times) }
    {
        instrs.push(add_ref(alloc, number, times)?)?;
        if self.is_live_over(number, targets)? {
            return Ok(());
        }
        instrs.push(drop_ref(alloc, number)?)
    }

    fn push_at_end(
        &self,
        alloc: Global,
        instrs: &mut Items<Instr>,
        targets: &[usize],
        returns: bool,
        number: usize,
        times: u64,
    ) -> Result<(), AllocError>
        ensures { OnOk result (instrs.new ≡ instrs.old ++ shape.counts_at_end self.now targets.now returns number times) }
    {
        if returns {
            push_return(alloc, instrs, number, times)
        } else {
            self.push_moved(alloc, instrs, targets, number, times)
        }
    }

    fn push_all_ends(
        &self,
        alloc: Global,
        instrs: &mut Items<Instr>,
        targets: &[usize],
        returns: bool,
        taken: &[Reg],
        numbers: &[usize],
    ) -> Result<(), AllocError>
        ensures { OnOk result (instrs.new ≡ instrs.old ++ shape.ends self.now targets.now returns taken.now numbers.now) }
    {
        for number in numbers {
            let times = times(*number, taken);
            self.push_at_end(alloc, instrs, targets, returns, *number, times)?;
        }
        Ok(())
    }

    /// Adds the counts before the terminator of a block.
    pub(crate) fn push_ends(
        &self,
        alloc: Global,
        instrs: &mut Items<Instr>,
        block: usize,
        term: &Term,
    ) -> Result<(), AllocError>
        ensures { OnOk result (instrs.new ≡ instrs.old ++ shape.before_end self.now block term.now) }
    {
        let taken = taken_at_end(alloc, term)?;
        let numbers = self.numbers_taken(alloc, &taken)?;
        let returns = is_return(term.instr.kind);
        self.push_all_ends(alloc, instrs, self.edges(block), returns, &taken, &numbers)
    }
}
