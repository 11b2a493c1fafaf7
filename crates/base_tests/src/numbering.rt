//! The numbers of operations.
use ir_forms::{Attr, Func, Module, Op, OpKind, Region, operation_count, renumber};
use lists::Items;
use std::alloc::{AllocError, Global};
use std::test::Fail;

fn op(alloc: Global, kind: OpKind, regions: Items<Region>) -> Op {
    Op {
        kind,
        at: 7,
        operands: Items::new(alloc),
        groups: Items::new(alloc),
        written: Items::new(alloc),
        results: Items::new(alloc),
        types: Items::new(alloc),
        attr: Attr::None,
        regions,
    }
}

fn region(alloc: Global, ops: Items<Op>) -> Region {
    Region {
        params: Items::new(alloc),
        ops,
    }
}

/// A region of these kinds, with no regions in them.
fn flat(alloc: Global, kinds: &[OpKind]) -> Result<Region, AllocError> {
    let mut ops = Items::new(alloc);
    for kind in kinds {
        ops.push(op(alloc, *kind, Items::new(alloc)))?;
    }
    Ok(region(alloc, ops))
}

/// An `scf.if` with two regions between an addition and a return.
fn branching(alloc: Global) -> Result<Func, AllocError> {
    let mut arms = Items::new(alloc);
    arms.push(flat(alloc, &[OpKind::ArithAddi, OpKind::ScfYield])?)?;
    arms.push(flat(alloc, &[OpKind::ScfYield])?)?;
    let mut ops = Items::new(alloc);
    ops.push(op(alloc, OpKind::ArithAddi, Items::new(alloc)))?;
    ops.push(op(alloc, OpKind::ScfIf, arms))?;
    ops.push(op(alloc, OpKind::FuncReturn, Items::new(alloc)))?;
    Ok(Func {
        name: Items::from_slice(alloc, b"main")?,
        params: Items::new(alloc),
        results: Items::new(alloc),
        body: region(alloc, ops),
        at: 0,
    })
}

fn two_functions(alloc: Global) -> Result<Module, AllocError> {
    let mut funcs = Items::new(alloc);
    funcs.push(branching(alloc)?)?;
    funcs.push(branching(alloc)?)?;
    Ok(Module { funcs })
}

fn note(numbers: &mut Vec<u32>, region: &Region) -> Result<(), AllocError> {
    for op in region.ops.as_slice() {
        numbers.push(op.at)?;
        for inner in op.regions.as_slice() {
            note(numbers, inner)?;
        }
    }
    Ok(())
}

/// The numbers of all operations, in the order of the text.
fn numbers(alloc: Global, module: &Module) -> Result<Vec<u32>, AllocError> {
    let mut all = Vec::new(alloc);
    for func in module.funcs.as_slice() {
        all.push(func.at)?;
        note(&mut all, &func.body)?;
    }
    Ok(all)
}

fn numbered(module: Module) -> Option<Module> {
    operation_count(&module)?;
    Some(renumber(module))
}

#[test]
fn operations_are_numbered_in_the_order_of_the_text(rt: HostRuntime) -> Result<(), Fail> {
    let module = two_functions(rt.alloc())?;
    assert_eq!(rt; operation_count(&module), Some(14));
    let module = numbered(module).expect(&rt, "few");
    let at = numbers(rt.alloc(), &module)?;
    assert_eq!(rt;
        at.as_slice(),
        [1, 2, 3, 4, 5, 6, 7, 8, 9, 10, 11, 12, 13, 14].as_slice()
    );
    Ok(())
}

#[test]
fn numbering_twice_is_numbering_once(rt: HostRuntime) -> Result<(), Fail> {
    let once = numbered(two_functions(rt.alloc())?).expect(&rt, "few");
    let again = numbered(two_functions(rt.alloc())?).expect(&rt, "few");
    let twice = numbered(again).expect(&rt, "few");
    assert!(rt; once == twice);
    Ok(())
}

#[test]
fn a_module_of_no_function_has_no_operation(rt: HostRuntime) -> Result<(), Fail> {
    let module = Module {
        funcs: Items::new(rt.alloc()),
    };
    assert_eq!(rt; operation_count(&module), Some(0));
    assert!(rt; numbered(module).expect(&rt, "none").funcs.is_empty());
    Ok(())
}
