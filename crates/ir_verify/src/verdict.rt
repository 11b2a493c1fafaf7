//! The verdict on a module.
ghost use Rattle.std.specs.Prelude.{◌≡◌, IfOk};
ghost use Rattle.ir_forms.specs.declared.types.Ty.TheVariants.{Untyped};
ghost use Rattle.ir_verify.specs.Breaks.{some_at};
ghost use Rattle.ir_verify.specs.Verdict.{func_breaks, is_place, noted_head, noted_func, noted_funcs, IsVerdict, param_has_async, type_has_async};
ghost use Rattle.ir_verify.specs.Levels.{level_of};

use crate::breaks::lacks_end;
use crate::calls::{is_marked, marks};
use crate::fault::{Broken, VerifyKind, noted};
use crate::graph::graph_of;
use crate::level::level_of;
use crate::names::Names;
use crate::types::has_async_cells;
use crate::walk::walk_func;
use ir_forms::{Func, Level, Ty, ValueNo};
use op_table::Form;
use std::alloc::{AllocError, Global};

fn some_async_param(params: &[(ValueNo, Ty)]) -> bool
    ensures { result ≡ some_at param_has_async params.now }
{
    for (place, param) in params.iter().enumerate() {
        let _place = place; // counted, since the contract speaks of places
        if has_async_cells(&param.1) {
            return true;
        }
    }
    false
}

fn some_async_type(types: &[Ty]) -> bool
    ensures { result ≡ some_at type_has_async types.now }
{
    for (place, t) in types.iter().enumerate() {
        let _place = place; // counted, since the contract speaks of places
        if has_async_cells(t) {
            return true;
        }
    }
    false
}

fn is_place(found: Option<usize>, place: usize) -> bool
    ensures { result ≡ is_place found place }
{
    match found {
        Some(first) => first == place,
        None => false,
    }
}

/// Whether the function at a place breaks the rule of a kind by its head, its name or its end.
fn func_breaks(kind: VerifyKind, names: &Names, place: usize, func: &Func) -> bool
    ensures { result ≡ func_breaks kind names.now place func.now }
{
    match kind {
        VerifyKind::Undefined => !is_place(names.find(func.name.as_slice()), place),
        VerifyKind::Terminator => lacks_end(Form::Return, func.body.ops.as_slice()),
        VerifyKind::AsyncInMemref => {
            some_async_param(func.params.as_slice()) || some_async_type(func.results.as_slice())
        }
        _ => false,
    }
}

fn noted_head(
    kind: VerifyKind,
    names: &Names,
    place: usize,
    func: &Func,
    best: Option<Broken>,
) -> Option<Broken>
    ensures { result ≡ noted_head kind names.now place func.now best }
{
    let is_broken = func_breaks(kind, names, place, func);
    noted(best, is_broken, Broken { op: func.at, kind })
}

fn noted_func(names: &Names, place: usize, func: &Func, best: Option<Broken>) -> Option<Broken>
    ensures { result ≡ noted_func names.now place func.now best }
{
    let best = noted_head(VerifyKind::Undefined, names, place, func, best);
    let best = noted_head(VerifyKind::Terminator, names, place, func, best);
    noted_head(VerifyKind::AsyncInMemref, names, place, func, best)
}

/// The earliest fault of the functions.
fn noted_funcs<'a>(
    alloc: Global,
    names: &Names<'a>,
    untyped: &'a Ty,
    funcs: &'a [Func],
    marks: &[bool],
) -> Result<Option<Broken>, AllocError>
    requires typed { untyped.now ≡ Untyped }
    requires named { names.now ≡ funcs.now }
    ensures { IfOk result (λ best. best ≡ noted_funcs funcs.now marks.now 0 funcs.now None) }
{
    let mut best = None;
    for (place, func) in funcs.iter().enumerate() {
        let head = noted_func(names, place, func, best);
        best = walk_func(alloc, names, untyped, func, is_marked(marks, place), head)?;
    }
    Ok(best)
}

/// The earliest fault of a module's functions, if there is one, and their level.
#[tactic(auto, using(crate::proofs::VerdictLemmas::verdict_is))]
pub(crate) fn judge<'a>(
    alloc: Global,
    untyped: &'a Ty,
    funcs: &'a [Func],
) -> Result<(Option<Broken>, Level), AllocError>
    requires { untyped.now ≡ Untyped }
    ensures fault { IfOk result (λ r. IsVerdict funcs.now r.0) }
    ensures level { IfOk result (λ r. r.1 ≡ level_of funcs.now) }
{
    let names = Names::new(alloc, funcs)?;
    let graph = graph_of(alloc, &names, funcs)?;
    let marks = marks(alloc, graph.as_slice())?;
    let best = noted_funcs(alloc, &names, untyped, funcs, marks.as_slice())?;
    Ok((best, level_of(funcs)))
}
