//! Texts that no text of a user reads as: any bytes, and values and numbers that aren't those of their places.
use ir_forms::{
    Attr, CellTy, Dim, Func, MemTy, Module, NumTy, Op, OpKind, Region, Ty, ValTy, ValueNo, Width,
};
use lists::Items;
use mlir_print::print;
use std::alloc::{AllocError, Global};
use std::test::Fail;

fn bare(alloc: Global, kind: OpKind, at: u32) -> Op {
    Op {
        kind,
        at,
        operands: Items::new(alloc),
        groups: Items::new(alloc),
        written: Items::new(alloc),
        results: Items::new(alloc),
        types: Items::new(alloc),
        attr: Attr::None,
        regions: Items::new(alloc),
    }
}

/// A function of this name with an assertion and a return.
fn asserts(alloc: Global, name: &[u8], text: &[u8]) -> Result<Func, AllocError> {
    let mut check = bare(alloc, OpKind::CfAssert, 7);
    check.operands.push(ValueNo(u32::MAX))?;
    check.attr = Attr::Text(Items::from_slice(alloc, text)?);
    let mut ops = Items::new(alloc);
    ops.push(check)?;
    ops.push(bare(alloc, OpKind::FuncReturn, 3))?;
    Ok(Func {
        name: Items::from_slice(alloc, name)?,
        params: Items::new(alloc),
        results: Items::new(alloc),
        body: Region {
            params: Items::new(alloc),
            ops,
        },
        at: 1,
    })
}

#[test]
fn prints_any_bytes_and_numbers(rt: HostRuntime) -> Result<(), Fail> {
    let alloc = rt.alloc();
    let mut func = asserts(alloc, b"\xc3\xa9", b"a \"b\" \\ \n\t\x7f\xff~")?;
    func.params
        .push((ValueNo(0), Ty::Value(ValTy::Int(Width::W1))))?;
    let cells = MemTy {
        elem: CellTy::Value(NumTy::Index),
        dims: Items::from_slice(alloc, &[Dim::Fixed(0), Dim::Dynamic])?,
    };
    func.params.push((ValueNo(1), Ty::Memref(cells)))?;
    let mut funcs = Items::new(alloc);
    funcs.push(func)?;
    let text = print(alloc, &Module { funcs })?;
    assert_eq!(rt;
        text.as_bytes(),
        b"func.func @\"\\C3\\A9\"(%0 : !async.value<i1>, %1 : memref<0x?x!async.value<index>>) {\n  cf.assert %unknown, \"a \\\"b\\\" \\\\ \\0A\\09\\7F\\FF~\" {aio.at = 7 : i64}\n  func.return\n}\n".as_slice()
    );
    Ok(())
}
