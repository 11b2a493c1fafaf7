//! The numbers of names.
ghost use Rattle.std.specs.Prelude.{◌≡◌, ◌≤◌, ◌^◌, length, map, IfOk};
ghost use Rattle.low_names.specs.Numbers as spec;
ghost use Rattle.low_parse.specs.Scopes.{scope, IsFew};

use ir_forms::FuncNo;
use lists::Items;
use low_forms::{BlockNo, Instr, LowAttr, LowKind, Reg, Target, Term};
use low_grammar::{NameText, NamedAttr, NamedInstr, NamedParam, NamedTarget};
use name_lists::NameList;
use std::alloc::{AllocError, Global};

/// The names that a function sees, each at its number.
#[derive(Clone, Copy)]
pub struct Seen<'s, 'n> {
    pub funcs: &'s NameList<NameText<'n>>,
    pub blocks: &'s NameList<NameText<'n>>,
    pub registers: &'s NameList<NameText<'n>>,
}

/// The number of a name; one that isn't there has the last number.
#[tactic(auto, using(crate::proofs::Places::within))]
fn number_of(names: &NameList<NameText>, name: &[u8]) -> u32
    requires { length names.now ≤ 2 ^ 32 }
    ensures { result ≡ spec.number_of names.now name.now }
{
    match names.first(name) {
        Some(place) => place as u32,
        None => 4_294_967_295,
    }
}

fn reg_of(seen: Seen, name: &[u8]) -> Reg
    requires { IsFew seen }
    ensures { result ≡ spec.reg_of (scope seen.entry) name.now }
{
    Reg(number_of(seen.registers, name))
}

fn regs_of(alloc: Global, seen: Seen, names: &[Items<u8>]) -> Result<Items<Reg>, AllocError>
    requires { IsFew seen }
    ensures { IfOk result (λ regs. regs ≡ spec.regs_of (scope seen.entry) names.now) }
{
    let mut regs = Items::new(alloc);
    for name in names {
        regs.push(reg_of(seen, name.as_slice()))?;
    }
    Ok(regs)
}

pub fn params_of(alloc: Global, seen: Seen, params: &[NamedParam]) -> Result<Items<Reg>, AllocError>
    requires { IsFew seen }
    ensures { IfOk result (λ regs. regs ≡ spec.params_of (scope seen.entry) params.now) }
{
    let mut regs = Items::new(alloc);
    for param in params {
        regs.push(reg_of(seen, param.name.as_slice()))?;
    }
    Ok(regs)
}

fn attr_of(seen: Seen, attr: &NamedAttr) -> LowAttr
    requires { IsFew seen }
    ensures { result ≡ spec.attr_of (scope seen.entry) attr.now }
{
    match attr {
        NamedAttr::None => LowAttr::None,
        NamedAttr::Literal {
            negative,
            magnitude,
        } => LowAttr::Literal {
            negative: *negative,
            magnitude: *magnitude,
        },
        NamedAttr::Truth(truth) => LowAttr::Truth(*truth),
        NamedAttr::Pred(pred) => LowAttr::Pred(*pred),
        NamedAttr::Count(count) => LowAttr::Count(*count),
        NamedAttr::Callee(name) => LowAttr::Callee(FuncNo(number_of(seen.funcs, name.as_slice()))),
    }
}

pub fn instr_of(alloc: Global, seen: Seen, instr: &NamedInstr) -> Result<Instr, AllocError>
    requires { IsFew seen }
    ensures { IfOk result (λ made. made ≡ spec.instr_of (scope seen.entry) instr.now) }
{
    Ok(Instr {
        kind: LowKind::Row(instr.kind),
        operands: regs_of(alloc, seen, instr.operands.as_slice())?,
        results: regs_of(alloc, seen, instr.results.as_slice())?,
        attr: attr_of(seen, &instr.attr),
    })
}

fn target_of(alloc: Global, seen: Seen, target: &NamedTarget) -> Result<Target, AllocError>
    requires { IsFew seen }
    ensures { IfOk result (λ made. made ≡ spec.target_of (scope seen.entry) target.now) }
{
    Ok(Target {
        block: BlockNo(number_of(seen.blocks, target.block.as_slice())),
        args: regs_of(alloc, seen, target.args.as_slice())?,
    })
}

fn targets_of(
    alloc: Global,
    seen: Seen,
    targets: &[NamedTarget],
) -> Result<Items<Target>, AllocError>
    requires { IsFew seen }
    ensures { IfOk result (λ made. made ≡ map (spec.target_of (scope seen.entry)) targets.now) }
{
    let mut made = Items::new(alloc);
    for target in targets {
        made.push(target_of(alloc, seen, target)?)?;
    }
    Ok(made)
}

pub fn term_of(alloc: Global, seen: Seen, instr: &NamedInstr) -> Result<Term, AllocError>
    requires { IsFew seen }
    ensures { IfOk result (λ made. made ≡ spec.term_of (scope seen.entry) instr.now) }
{
    Ok(Term {
        instr: instr_of(alloc, seen, instr)?,
        targets: targets_of(alloc, seen, instr.targets.as_slice())?,
    })
}
