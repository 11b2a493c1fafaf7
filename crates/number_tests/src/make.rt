//! A module whose values have numbers in no order, and the numbers of a module.
use ir_forms::{Attr, Func, Module, Op, OpKind, Region, Ty, ValueNo};
use lists::Items;
use std::alloc::{AllocError, Global};

fn op(alloc: Global) -> Op {
    Op {
        kind: OpKind::ArithAddi,
        at: 1,
        operands: Items::new(alloc),
        groups: Items::new(alloc),
        written: Items::new(alloc),
        results: Items::new(alloc),
        types: Items::new(alloc),
        attr: Attr::None,
        regions: Items::new(alloc),
    }
}

fn region(alloc: Global) -> Region {
    Region {
        params: Items::new(alloc),
        ops: Items::new(alloc),
    }
}

fn func(alloc: Global) -> Func {
    Func {
        name: Items::new(alloc),
        params: Items::new(alloc),
        results: Items::new(alloc),
        body: region(alloc),
        at: 0,
    }
}

fn add_params(params: &mut Items<(ValueNo, Ty)>, numbers: &[u32]) -> Result<(), AllocError> {
    for number in numbers {
        params.push((ValueNo(*number), Ty::Index))?;
    }
    Ok(())
}

fn add_values(values: &mut Items<ValueNo>, numbers: &[u32]) -> Result<(), AllocError> {
    for number in numbers {
        values.push(ValueNo(*number))?;
    }
    Ok(())
}

fn fill_op(op: &mut Op, results: &[u32], operands: &[u32]) -> Result<(), AllocError> {
    add_values(&mut op.results, results)?;
    add_values(&mut op.operands, operands)
}

/// Puts an operation behind the others.
fn add_op(
    alloc: Global,
    ops: &mut Items<Op>,
    results: &[u32],
    operands: &[u32],
) -> Result<(), AllocError> {
    let place = ops.len();
    ops.push(op(alloc))?;
    fill_op(&mut ops.as_mut_slice()[place], results, operands)
}

fn fill_region(
    alloc: Global,
    region: &mut Region,
    params: &[u32],
    results: &[u32],
    operands: &[u32],
) -> Result<(), AllocError> {
    add_params(&mut region.params, params)?;
    add_op(alloc, &mut region.ops, results, operands)
}

/// Puts a region of one operation behind the others.
fn add_region(
    alloc: Global,
    regions: &mut Items<Region>,
    params: &[u32],
    results: &[u32],
    operands: &[u32],
) -> Result<(), AllocError> {
    let place = regions.len();
    regions.push(region(alloc))?;
    fill_region(
        alloc,
        &mut regions.as_mut_slice()[place],
        params,
        results,
        operands,
    )
}

/// An operation with two regions, and one that uses its results.
fn add_branches(alloc: Global, ops: &mut Items<Op>) -> Result<(), AllocError> {
    let place = ops.len();
    ops.push(op(alloc))?;
    let branching = &mut ops.as_mut_slice()[place];
    fill_op(branching, &[2, 5], &[7])?;
    add_region(alloc, &mut branching.regions, &[8], &[3], &[8, 7, 100])?;
    add_region(alloc, &mut branching.regions, &[], &[], &[u32::MAX, 3])?;
    add_op(alloc, ops, &[], &[5, 2])
}

fn fill_branching(alloc: Global, func: &mut Func) -> Result<(), AllocError> {
    add_params(&mut func.params, &[9, 4])?;
    add_op(alloc, &mut func.body.ops, &[7], &[9, 4])?;
    add_branches(alloc, &mut func.body.ops)
}

/// A value that is defined twice.
fn fill_twice(alloc: Global, func: &mut Func) -> Result<(), AllocError> {
    add_params(&mut func.params, &[5, 5])?;
    add_op(alloc, &mut func.body.ops, &[1], &[5])
}

fn fill(alloc: Global, funcs: &mut Items<Func>) -> Result<(), AllocError> {
    funcs.push(func(alloc))?;
    fill_branching(alloc, &mut funcs.as_mut_slice()[0])?;
    let place = funcs.len();
    funcs.push(func(alloc))?;
    fill_twice(alloc, &mut funcs.as_mut_slice()[place])
}

/// A function with regions and operands that it doesn't define, and one with a value that it defines twice.
pub(crate) fn module(alloc: Global) -> Result<Module, AllocError> {
    let mut module = Module {
        funcs: Items::new(alloc),
    };
    match fill(alloc, &mut module.funcs) {
        Ok(()) => Ok(module),
        Err(error) => Err(error),
    }
}

fn note_all(numbers: &mut Vec<u32>, values: &[ValueNo]) -> Result<(), AllocError> {
    for value in values {
        numbers.push(value.0)?;
    }
    Ok(())
}

fn note_params(numbers: &mut Vec<u32>, params: &[(ValueNo, Ty)]) -> Result<(), AllocError> {
    for param in params {
        numbers.push(param.0.0)?;
    }
    Ok(())
}

fn note_region(numbers: &mut Vec<u32>, region: &Region) -> Result<(), AllocError> {
    note_params(numbers, region.params.as_slice())?;
    for op in region.ops.as_slice() {
        note_all(numbers, op.results.as_slice())?;
        note_all(numbers, op.operands.as_slice())?;
        for inner in op.regions.as_slice() {
            note_region(numbers, inner)?;
        }
    }
    Ok(())
}

/// The numbers of all values in the order of the text: parameters, and of each operation the results, the operands and
/// what stands in its regions.
pub(crate) fn numbers(alloc: Global, module: &Module) -> Result<Vec<u32>, AllocError> {
    let mut all = Vec::new(alloc);
    for func in module.funcs.as_slice() {
        note_params(&mut all, func.params.as_slice())?;
        note_region(&mut all, &func.body)?;
    }
    Ok(all)
}
