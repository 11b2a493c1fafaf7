//! Which modules the verifier refuses.
use ir_forms::{Attr, Func, FuncNo, Level, Module, Op, OpKind, Region, Ty, ValueNo, Width};
use ir_verify::{EntryFault, VerifyFault, VerifyKind, entry_of, verify};
use lists::Items;
use std::alloc::{AllocError, Global};
use std::test::Fail;

/// An operation that carries nothing.
fn bare(alloc: Global, kind: OpKind, at: u32) -> Op {
    Op {
        kind,
        at,
        operands: Items::new(alloc),
        groups: Items::new(alloc),
        written: Items::new(alloc),
        results: Items::new(alloc),
        types: Items::new(alloc),
        attr: Attr::None,
        regions: Items::new(alloc),
    }
}

/// `%0 = arith.constant N : i8`
fn constant(alloc: Global, at: u32, magnitude: u64) -> Result<Op, AllocError> {
    let mut made = bare(alloc, OpKind::ArithConstant, at);
    made.results.push(ValueNo(0))?;
    made.types.push(Ty::Int(Width::W8))?;
    made.attr = Attr::Literal {
        negative: false,
        magnitude,
    };
    Ok(made)
}

/// `async.await %1 : !async.token`, of a value that isn't there
fn unseen(alloc: Global, at: u32) -> Result<Op, AllocError> {
    let mut made = bare(alloc, OpKind::AsyncAwait, at);
    made.operands.push(ValueNo(1))?;
    made.written.push(Ty::Token)?;
    Ok(made)
}

fn func(alloc: Global, at: u32, ops: Items<Op>) -> Result<Func, AllocError> {
    Ok(Func {
        name: Items::from_slice(alloc, b"main")?,
        params: Items::new(alloc),
        results: Items::new(alloc),
        body: Region {
            params: Items::new(alloc),
            ops,
        },
        at,
    })
}

/// `@main` with this operation and a return.
fn main_of(alloc: Global, first: Op) -> Result<Module, AllocError> {
    let mut ops = Items::new(alloc);
    ops.push(first)?;
    ops.push(bare(alloc, OpKind::FuncReturn, 3))?;
    let mut funcs = Items::new(alloc);
    funcs.push(func(alloc, 1, ops)?)?;
    Ok(Module { funcs })
}

/// `@main` with a parameter `%0 : i64` and `scf.condition(%0)`, where no loop is.
fn misplaced(alloc: Global) -> Result<Module, AllocError> {
    let mut condition = bare(alloc, OpKind::ScfCondition, 2);
    condition.operands.push(ValueNo(0))?;
    let mut program = main_of(alloc, condition)?;
    let mut main = program.funcs.pop();
    if let Some(func) = &mut main {
        func.params.push((ValueNo(0), Ty::Int(Width::W64)))?;
    }
    if let Some(func) = main {
        program.funcs.push(func)?;
    }
    Ok(program)
}

fn refusal(alloc: Global, program: Module) -> Option<VerifyFault> {
    verify(alloc, program).err()
}

fn fault(op: u32, kind: VerifyKind) -> Option<VerifyFault> {
    Some(VerifyFault::Fault { op, kind })
}

#[test]
fn tells_kinds_apart(rt: HostRuntime) -> Result<(), Fail> {
    let alloc = rt.alloc();
    let wide = main_of(alloc, constant(alloc, 2, 300)?)?;
    assert_eq!(rt; refusal(alloc, wide), fault(2, VerifyKind::TypeMismatch));
    let hidden = main_of(alloc, unseen(alloc, 2)?)?;
    assert_eq!(rt; refusal(alloc, hidden), fault(2, VerifyKind::Undefined));
    let misplaced = misplaced(alloc)?;
    assert_eq!(rt;
        refusal(alloc, misplaced),
        fault(2, VerifyKind::TypeMismatch)
    );
    Ok(())
}

#[test]
fn begins_in_main(rt: HostRuntime) -> Result<(), Fail> {
    let alloc = rt.alloc();
    let narrow = main_of(alloc, constant(alloc, 2, 255)?)?;
    let verified = verify(alloc, narrow)?;
    assert_eq!(rt; verified.level(), Level::Source);
    assert_eq!(rt; verified.module().funcs.len(), 1);
    assert_eq!(rt; entry_of(&verified, b"main"), Ok(FuncNo(0)));
    assert_eq!(rt; entry_of(&verified, b"other"), Err(EntryFault::NoEntry));
    Ok(())
}

#[test]
fn names_its_kinds(rt: HostRuntime) {
    assert_eq!(rt; VerifyKind::Undefined.name(), "Undefined");
    assert_eq!(rt; VerifyKind::TypeMismatch.name(), "TypeMismatch");
    assert_eq!(rt; VerifyKind::Terminator.name(), "Terminator");
    assert_eq!(rt; VerifyKind::UnknownFunc.name(), "UnknownFunc");
    assert_eq!(rt; VerifyKind::Arity.name(), "Arity");
    assert_eq!(rt; VerifyKind::AsyncInMemref.name(), "AsyncInMemref");
    assert_eq!(rt; VerifyKind::BlockingAwait.name(), "BlockingAwait");
}
