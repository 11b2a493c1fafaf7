//! Which registers are live where.
ghost use Rattle.std.specs.Prelude.{◌≡◌, ◌↔◌, ◌<◌, ◌≤◌, ◌+◌, IsTrue, IfOk, length};
ghost use Rattle.low_forms.specs.Edges.{edges};
ghost use Rattle.liveness.specs.Live.{IsLive, IsLiveIn, IsRegIn};
ghost use Rattle.liveness.specs.State.{IsSolution};
ghost use Rattle.liveness.specs.Tables.{IsTableOf, AreTables};
ghost use Rattle.liveness.specs.Visits.{most_of, most_in};

use crate::before::list_at;
use crate::solve::{is_over, solve};
use crate::steps::Steps;
use crate::table::Table;
use crate::walk::live_from;
use low_forms::edges::edges;
use low_forms::{LowFunc, LowModule, Reg};
use std::alloc::{AllocError, Global};
use std::marker::Model;
use std::sync::ledger::Ledger;

/// Tells which registers of a module are live at which of its places. Contracts see it as the module.
#[derive(Drop)]
pub struct LiveMap<'a> {
    code: &'a LowModule,
    tables: Vec<Table>,
}

impl<'a> Model for LiveMap<'a> {
    ghost use Rattle.low_forms.specs.declared.code.LowModule.{LowModule};
    ghost use Rattle.liveness.specs.Tables.{AreTables};

    ghost Value = { LowModule };

    ghost view = { λ m. m.code.now };

    ghost invariant = { λ m. AreTables m.code.now.funcs m.tables.items };
}

fn is_live(func: &LowFunc, table: &Table, block: usize, row: usize, number: usize) -> bool
    requires table { IsTableOf func.now table.now }
    requires known { number < length func.now.regs }
    ensures { IsTrue result ↔ IsLive func.now number (record { block = block; row = row }) }
{
    let Some(code) = func.blocks.get(block) else {
        return false;
    };
    if row > code.instrs.len() {
        return false;
    }
    let out = is_over(&table.sets, list_at(&table.targets, block), number);
    live_from(code, row, out, number)
}

impl LiveMap<'_> {
    /// Whether a register is live at a place: its function, its block, and in the block the number of an instruction, or
    /// the number of instructions for the terminator. It goes through the block from the place on.
    pub fn at(&self, func: u32, block: u32, place: u32, reg: Reg) -> bool
        requires { IsRegIn self.now func reg.0 }
        ensures { IsTrue result ↔ IsLiveIn self.now func block place reg.0 }
    {
        let Some(found) = self.code.funcs.get(func as usize) else {
            return false;
        };
        let Some(table) = self.tables.get(func as usize) else {
            return false;
        };
        is_live(found, table, block as usize, place as usize, reg.0 as usize)
    }
}

fn table_of<L: Ledger>(
    alloc: Global,
    func: &LowFunc,
    steps: &mut Steps<L>,
) -> Result<Table, AllocError>
    ensures table { IfOk result (λ table. IsTableOf func.now table) }
    ensures visits { steps.new ≤ steps.old + most_of func.now }
{
    let targets = edges(alloc, func)?;
    let sets = solve(alloc, func, &targets, steps)?;
    Ok(Table { targets, sets })
}

fn tables_of<L: Ledger>(
    alloc: Global,
    funcs: &[LowFunc],
    steps: &mut Steps<L>,
) -> Result<Vec<Table>, AllocError>
    ensures tables { IfOk result (λ tables. AreTables funcs.now tables.items) }
    ensures visits { steps.new ≤ steps.old + most_in funcs.now }
{
    let mut tables = Vec::new(alloc);
    for func in funcs {
        tables.push(table_of(alloc, func, steps)?)?;
    }
    Ok(tables)
}

/// Finds out which registers are live where. A step is one visit of a block.
///
/// # Errors
///
/// Where there is no memory for the sets.
pub fn live<'a, L: Ledger>(
    alloc: Global,
    code: &'a LowModule,
    steps: &mut Steps<L>,
) -> Result<LiveMap<'a>, AllocError>
    ensures map { IfOk result (λ map. map ≡ code.now) }
    ensures visits { steps.new ≤ steps.old + most_in code.now.funcs }
{
    let tables = tables_of(alloc, code.funcs.as_slice(), steps)?;
    Ok(LiveMap { code, tables })
}
