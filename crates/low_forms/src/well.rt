//! Whether lowered code is well formed.
ghost use Rattle.std.specs.Prelude.{◌≡◌, ◌↔◌, IsTrue, IfOk};
ghost use Rattle.low_forms.specs.Registers.{every};
ghost use Rattle.low_forms.specs.Assigned.{UsesAssigned};
ghost use Rattle.low_forms.specs.Edges.{edges};
ghost use Rattle.low_forms.specs.WellFormed.{IsWellFormed, WellFormed, block_keeps, keeps_alone, Flows};

use crate::code::{Block, LowFunc, LowModule};
use crate::critical::no_critical_edge;
use crate::edges::{edges, none_to_start};
use crate::flow::{assigns, needs};
use crate::numbers::{block_within, counts_small, has_start, regs_within};
use crate::saves::{all_followed, nowhere_else, saves_start};
use crate::targets::block_fits;
use lists::Items;
use low_flow::all_assigned;
use std::alloc::{AllocError, Global};

/// Whether a block keeps all sentences that speak of a block alone.
fn block_keeps(code: &LowModule, func: &LowFunc, block: &Block) -> bool
    ensures { result ≡ block_keeps code.now func.now block.now }
{
    block_within(code, func, block)
        && block_fits(code, func, block)
        && counts_small(block)
        && nowhere_else(block)
}

fn blocks_keep(code: &LowModule, func: &LowFunc, blocks: &[Block]) -> bool
    ensures { result ≡ every (block_keeps code.now func.now) blocks.now }
{
    for block in blocks {
        if !block_keeps(code, func, block) {
            return false;
        }
    }
    true
}

/// Whether a function keeps all sentences that don't speak of edges.
fn keeps_alone(code: &LowModule, func: &LowFunc) -> bool
    ensures { result ≡ keeps_alone code.now func.now }
{
    let blocks = func.blocks.as_slice();
    regs_within(func, func.params.as_slice())
        && has_start(func)
        && blocks_keep(code, func, blocks)
        && all_followed(blocks)
        && saves_start(blocks)
}

/// Whether each use is assigned on every path.
#[tactic(auto, using(crate::proofs::WellLemmas::uses_by))]
fn uses_assigned(
    alloc: Global,
    func: &LowFunc,
    targets: &[Items<usize>],
) -> Result<bool, AllocError>
    requires { targets.now ≡ edges func.now }
    ensures { IfOk result (λ is. IsTrue is ↔ UsesAssigned func.now) }
{
    let assigns = assigns(alloc, func)?;
    let needs = needs(alloc, func)?;
    let is = all_assigned(alloc, targets, &assigns, &needs, func.regs.len())?;
    Ok(is)
}

/// Whether the edges of a function are as they must be, and its uses assigned on every path.
#[tactic(auto, using(crate::proofs::WellLemmas::leads_to_start, crate::proofs::WellLemmas::is_critical, crate::proofs::WellLemmas::flows_by))]
fn flows(alloc: Global, func: &LowFunc) -> Result<bool, AllocError>
    ensures { IfOk result (λ is. IsTrue is ↔ Flows func.now) }
{
    let edges = edges(alloc, func)?;
    if !none_to_start(&edges) {
        return Ok(false);
    }
    if !no_critical_edge(alloc, &edges)? {
        return Ok(false);
    }
    let is = uses_assigned(alloc, func, &edges)?;
    Ok(is)
}

#[tactic(auto, using(crate::proofs::WellLemmas::not_alone, crate::proofs::WellLemmas::alone_flows))]
fn func_is_well_formed(alloc: Global, code: &LowModule, func: &LowFunc) -> Result<bool, AllocError>
    ensures { IfOk result (λ is. IsTrue is ↔ IsWellFormed code.now func.now) }
{
    if !keeps_alone(code, func) {
        return Ok(false);
    }
    let is = flows(alloc, func)?;
    Ok(is)
}

/// Whether code is well formed.
pub fn well_formed(alloc: Global, code: &LowModule) -> Result<bool, AllocError>
    ensures { IfOk result (λ is. IsTrue is ↔ WellFormed code.now) }
{
    for func in code.funcs.as_slice() {
        if !func_is_well_formed(alloc, code, func)? {
            return Ok(false);
        }
    }
    Ok(true)
}
