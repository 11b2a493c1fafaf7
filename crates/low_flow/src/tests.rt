use crate::all_assigned;
use lists::Items;
use std::alloc::{AllocError, Global};
use std::test::Fail;

fn lists(alloc: Global, all: &[&[usize]]) -> Result<Vec<Items<usize>>, AllocError> {
    let mut lists = Vec::new(alloc);
    for list in all {
        lists.push(Items::from_slice(alloc, list)?)?;
    }
    Ok(lists)
}

/// Block 0 branches to 1 and 2, and both go on to 3, which needs register 0.
fn joined(alloc: Global, assigns: &[&[usize]]) -> Result<bool, AllocError> {
    let targets = lists(alloc, &[&[1, 2], &[3], &[3], &[]])?;
    let needs = lists(alloc, &[&[], &[], &[], &[0]])?;
    let assigns = lists(alloc, assigns)?;
    all_assigned(alloc, &targets, &assigns, &needs, 1)
}

#[test]
fn a_use_is_assigned_on_every_path(rt: HostRuntime) -> Result<(), Fail> {
    let alloc = rt.alloc();
    assert!(rt; joined(alloc, &[&[0], &[], &[], &[]])?);
    assert!(rt; joined(alloc, &[&[], &[0], &[0], &[]])?);
    assert!(rt; !joined(alloc, &[&[], &[0], &[], &[]])?);
    assert!(rt; !joined(alloc, &[&[], &[], &[], &[0]])?);
    Ok(())
}

#[test]
fn a_block_that_no_path_reaches_may_need_anything(rt: HostRuntime) -> Result<(), Fail> {
    let alloc = rt.alloc();
    let targets = lists(alloc, &[&[], &[1]])?;
    let assigns = lists(alloc, &[&[], &[]])?;
    let needs = lists(alloc, &[&[], &[0]])?;
    assert!(rt; all_assigned(alloc, &targets, &assigns, &needs, 1)?);
    Ok(())
}

/// A loop over all blocks but the last: each block assigns its register, and needs that of the block before it.
fn ring(alloc: Global, len: usize, first: usize) -> Result<bool, AllocError> {
    let mut targets = Vec::new(alloc);
    let mut assigns = Vec::new(alloc);
    let mut needs = Vec::new(alloc);
    for block in 0..len {
        let next = if block + 1 < len { block + 1 } else { 1 };
        targets.push(Items::from_slice(alloc, &[next])?)?;
        assigns.push(Items::from_slice(alloc, &[block])?)?;
        let needed = if block > 0 { block - 1 } else { first };
        needs.push(if needed < len {
            Items::from_slice(alloc, &[needed])?
        } else {
            Items::new(alloc)
        })?;
    }
    all_assigned(alloc, &targets, &assigns, &needs, len)
}

/// Blocks in a row: the first one assigns all registers, and the last one needs them.
fn row(alloc: Global, len: usize, registers: usize) -> Result<bool, AllocError> {
    let mut targets = Vec::new(alloc);
    let mut assigns = Vec::new(alloc);
    let mut needs = Vec::new(alloc);
    let mut all = Items::new(alloc);
    for register in 0..registers {
        all.push(register)?;
    }
    for block in 0..len {
        targets.push(Items::from_slice(alloc, &[block + 1])?)?;
        assigns.push(Items::new(alloc))?;
        needs.push(Items::new(alloc))?;
    }
    targets.push(Items::new(alloc))?;
    assigns.push(Items::new(alloc))?;
    needs.push(Items::from_slice(alloc, all.as_slice())?)?;
    assigns[0] = all;
    all_assigned(alloc, &targets, &assigns, &needs, registers)
}

/// A loop of three blocks that is entered at two of them, as often, and then a block that needs what the first assigned.
fn tangled(alloc: Global, len: usize, registers: usize) -> Result<bool, AllocError> {
    let mut targets = Vec::new(alloc);
    let mut assigns = Vec::new(alloc);
    let mut needs = Vec::new(alloc);
    let mut all = Items::new(alloc);
    for register in 0..registers {
        all.push(register)?;
    }
    for block in 0..len {
        let next = block + 1;
        let second = if block % 3 == 0 {
            block + 2
        } else {
            block / 3 * 3 + 1
        };
        targets.push(Items::from_slice(alloc, &[next, second])?)?;
        assigns.push(Items::new(alloc))?;
        needs.push(Items::new(alloc))?;
    }
    targets.push(Items::new(alloc))?;
    assigns.push(Items::new(alloc))?;
    needs.push(Items::from_slice(alloc, all.as_slice())?)?;
    assigns[0] = all;
    all_assigned(alloc, &targets, &assigns, &needs, registers)
}

#[test]
fn ten_thousand_blocks_are_quick(rt: HostRuntime) -> Result<(), Fail> {
    let alloc = rt.alloc();
    assert!(rt; ring(alloc, 10_000, 10_000)?);
    assert!(rt; !ring(alloc, 10_000, 5)?);
    assert!(rt; row(alloc, 10_000, 65_536)?);
    assert!(rt; tangled(alloc, 9_999, 65_536)?);
    Ok(())
}
