//! What a task awaits first.
ghost use Rattle.std.specs.Prelude.{◌≡◌, ◌∷◌, [], map, IfOk};
ghost use Rattle.ir_forms.specs.declared.ops.Op.{roll-Op};
ghost use Rattle.exec_outline.specs.Shape.{await, awaits_each, awaits_for, tokens};

use ir_forms::{Attr, Op, OpKind, Ty, ValueNo, copy_type};
use lists::Items;
use std::alloc::{AllocError, Global};

/// So many tokens.
pub(crate) fn tokens(alloc: Global, count: u32) -> Result<Items<Ty>, AllocError>
    ensures { IfOk result (λ types. types ≡ tokens count) }
{
    let mut types = Items::new(alloc);
    for _turn in 0..count {
        types.push(Ty::Token)?;
    }
    Ok(types)
}

/// An await of a token or value, whose results are these.
fn await_of(
    alloc: Global,
    at: u32,
    awaited: &(ValueNo, Ty),
    results: Items<ValueNo>,
    types: Items<Ty>,
) -> Result<Op, AllocError>
    ensures { IfOk result (λ op. op ≡ roll-Op (record { kind = OpKind.AsyncAwait; at = at; operands = awaited.now.0 ∷ []; groups = []; written = awaited.now.1 ∷ []; results = results; types = types; attr = Attr.None; regions = [] })) }
{
    let operands = Items::from_slice(alloc, &[awaited.0])?;
    let mut written = Items::new(alloc);
    written.push(copy_type(alloc, &awaited.1)?)?;
    Ok(Op {
        kind: OpKind::AsyncAwait,
        at,
        operands,
        groups: Items::new(alloc),
        written,
        results,
        types,
        attr: Attr::None,
        regions: Items::new(alloc),
    })
}

/// An await that gives nothing.
fn await_alone(alloc: Global, at: u32, awaited: &(ValueNo, Ty)) -> Result<Op, AllocError>
    ensures { IfOk result (λ op. op ≡ await at awaited.now []) }
{
    await_of(alloc, at, awaited, Items::new(alloc), Items::new(alloc))
}

/// An await of a value for the parameter that gets what it holds.
fn await_for(
    alloc: Global,
    at: u32,
    awaited: &(ValueNo, Ty),
    param: &(ValueNo, Ty),
) -> Result<Op, AllocError>
    ensures { IfOk result (λ op. op ≡ await at awaited.now (param.now ∷ [])) }
{
    let results = Items::from_slice(alloc, &[param.0])?;
    let mut types = Items::new(alloc);
    types.push(copy_type(alloc, &param.1)?)?;
    await_of(alloc, at, awaited, results, types)
}

/// Awaits of tokens.
pub(crate) fn awaits_each(
    alloc: Global,
    at: u32,
    awaited: &[(ValueNo, Ty)],
) -> Result<Items<Op>, AllocError>
    ensures { IfOk result (λ ops. ops ≡ awaits_each at awaited.now) }
{
    let mut ops = Items::new(alloc);
    for token in awaited {
        ops.push(await_alone(alloc, at, token)?)?;
    }
    Ok(ops)
}

/// Awaits of values for the parameters that get what they hold.
pub(crate) fn awaits_for(
    alloc: Global,
    at: u32,
    awaited: &[(ValueNo, Ty)],
    params: &[(ValueNo, Ty)],
) -> Result<Items<Op>, AllocError>
    ensures { IfOk result (λ ops. ops ≡ awaits_for at awaited.now params.now) }
{
    let mut ops = Items::new(alloc);
    let mut rest = params;
    for value in awaited {
        match rest {
            [] => ops.push(await_alone(alloc, at, value)?)?,
            [param, more @ ..] => {
                ops.push(await_for(alloc, at, value, param)?)?;
                rest = more;
            }
        }
    }
    Ok(ops)
}
