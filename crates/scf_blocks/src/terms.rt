//! Instructions and terminators.
ghost use Rattle.std.specs.Prelude.{◌≡◌, ◌∷◌, [], IfOk, true, false};
ghost use Rattle.scf_blocks.specs.Code as code;

use ir_forms::Pred;
use lists::Items;
use low_forms::{Block, BlockNo, Instr, LowAttr, LowKind, OpKind, Reg, Target, Term};
use std::alloc::{AllocError, Global};

fn target(block: BlockNo, args: Items<Reg>) -> Target
    ensures { result ≡ code.target block args }
{
    Target { block, args }
}

fn ends_with(
    alloc: Global,
    kind: LowKind,
    operands: Items<Reg>,
    attr: LowAttr,
    targets: Items<Target>,
) -> Term
    ensures { result ≡ code.ends_with kind operands attr targets }
{
    Term {
        instr: Instr {
            kind,
            operands,
            results: Items::new(alloc),
            attr,
        },
        targets,
    }
}

/// Two targets, which take the same arguments.
fn two_targets(
    alloc: Global,
    first: BlockNo,
    second: BlockNo,
    args: &[Reg],
) -> Result<Items<Target>, AllocError>
    ensures { IfOk result (λ targets. targets ≡ code.target first args.now ∷ code.target second args.now ∷ []) }
{
    let mut targets = Items::new(alloc);
    targets.push(target(first, Items::from_slice(alloc, args)?))?;
    targets.push(target(second, Items::from_slice(alloc, args)?))?;
    Ok(targets)
}

pub(crate) fn one_reg(alloc: Global, reg: Reg) -> Result<Items<Reg>, AllocError>
    ensures { IfOk result (λ list. list ≡ reg ∷ []) }
{
    Items::from_slice(alloc, &[reg])
}

/// This register before the others.
pub(crate) fn with_first(
    alloc: Global,
    first: Reg,
    rest: Items<Reg>,
) -> Result<Items<Reg>, AllocError>
    ensures { IfOk result (λ list. list ≡ first ∷ rest) }
{
    let mut list = Items::new(alloc);
    list.push(first)?;
    list.append(rest)?;
    Ok(list)
}

pub(crate) fn br(alloc: Global, block: BlockNo, args: Items<Reg>) -> Result<Term, AllocError>
    ensures { IfOk result (λ term. term ≡ code.br block args) }
{
    let mut targets = Items::new(alloc);
    targets.push(target(block, args))?;
    let kind = LowKind::Row(OpKind::CfBr);
    Ok(ends_with(alloc, kind, Items::new(alloc), LowAttr::None, targets))
}

pub(crate) fn cond_br(
    alloc: Global,
    test: Reg,
    yes: BlockNo,
    other: BlockNo,
    args: &[Reg],
) -> Result<Term, AllocError>
    ensures { IfOk result (λ term. term ≡ code.cond_br test yes other args.now) }
{
    let operands = one_reg(alloc, test)?;
    let targets = two_targets(alloc, yes, other, args)?;
    let kind = LowKind::Row(OpKind::CfCondBr);
    Ok(ends_with(alloc, kind, operands, LowAttr::None, targets))
}

pub(crate) fn call(
    alloc: Global,
    callee: LowAttr,
    args: Items<Reg>,
    ok: BlockNo,
    failed: BlockNo,
) -> Result<Term, AllocError>
    ensures { IfOk result (λ term. term ≡ code.call callee args ok failed) }
{
    let targets = two_targets(alloc, ok, failed, &[])?;
    let kind = LowKind::Row(OpKind::AioCall);
    Ok(ends_with(alloc, kind, args, callee, targets))
}

pub(crate) fn await_on(
    alloc: Global,
    object: Reg,
    go: BlockNo,
    failure: BlockNo,
) -> Result<Term, AllocError>
    ensures { IfOk result (λ term. term ≡ code.await object go failure) }
{
    let operands = one_reg(alloc, object)?;
    let targets = two_targets(alloc, go, failure, &[])?;
    Ok(ends_with(alloc, LowKind::Await, operands, LowAttr::None, targets))
}

pub(crate) fn ret(alloc: Global, values: Items<Reg>) -> Term
    ensures { result ≡ code.return values }
{
    let kind = LowKind::Row(OpKind::FuncReturn);
    ends_with(alloc, kind, values, LowAttr::None, Items::new(alloc))
}

fn fail(alloc: Global, failure: Reg) -> Result<Term, AllocError>
    ensures { IfOk result (λ term. term ≡ code.fail failure) }
{
    let operands = one_reg(alloc, failure)?;
    let kind = LowKind::Row(OpKind::AioFail);
    Ok(ends_with(alloc, kind, operands, LowAttr::None, Items::new(alloc)))
}

pub(crate) fn constant(alloc: Global, reg: Reg, attr: LowAttr) -> Result<Instr, AllocError>
    ensures { IfOk result (λ instr. instr ≡ code.constant reg attr) }
{
    Ok(Instr {
        kind: LowKind::Row(OpKind::ArithConstant),
        operands: Items::new(alloc),
        results: one_reg(alloc, reg)?,
        attr,
    })
}

pub(crate) fn add(alloc: Global, sum: Reg, a: Reg, b: Reg) -> Result<Instr, AllocError>
    ensures { IfOk result (λ instr. instr ≡ code.add sum a b) }
{
    Ok(Instr {
        kind: LowKind::Row(OpKind::ArithAddi),
        operands: Items::from_slice(alloc, &[a, b])?,
        results: one_reg(alloc, sum)?,
        attr: LowAttr::None,
    })
}

pub(crate) fn less(alloc: Global, test: Reg, a: Reg, b: Reg) -> Result<Instr, AllocError>
    ensures { IfOk result (λ instr. instr ≡ code.less test a b) }
{
    Ok(Instr {
        kind: LowKind::Row(OpKind::ArithCmpi),
        operands: Items::from_slice(alloc, &[a, b])?,
        results: one_reg(alloc, test)?,
        attr: LowAttr::Pred(Pred::Slt),
    })
}

/// The block of a failure whose code is a constant.
pub(crate) fn fails_with(alloc: Global, reg: Reg, at: u32) -> Result<Block, AllocError>
    ensures { IfOk result (λ block. block ≡ record { params = []; instrs = code.constant reg (code.literal at) ∷ []; term = code.fail reg }) }
{
    let attr = LowAttr::Literal {
        negative: false,
        magnitude: at as u64,
    };
    let mut instrs = Items::new(alloc);
    instrs.push(constant(alloc, reg, attr)?)?;
    Ok(Block {
        params: Items::new(alloc),
        instrs,
        term: fail(alloc, reg)?,
    })
}

/// The block of a failure that passes a code on.
pub(crate) fn passes_on(alloc: Global, reg: Reg) -> Result<Block, AllocError>
    ensures { IfOk result (λ block. block ≡ record { params = reg ∷ []; instrs = []; term = code.fail reg }) }
{
    Ok(Block {
        params: one_reg(alloc, reg)?,
        instrs: Items::new(alloc),
        term: fail(alloc, reg)?,
    })
}
