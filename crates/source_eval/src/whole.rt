//! The whole run.
ghost use Rattle.std.specs.Prelude.{◌≡◌, ◌≤◌, ℕ, List, None, Some, map, slice_get, IfOk, IfErr};
ghost use Rattle.ir_forms.specs.declared.args.ArgValue.{ArgValue};
ghost use Rattle.ir_forms.specs.Shapes.{most_cells};
ghost use Rattle.arguments.specs.Answers.{IsWrong};
ghost use Rattle.arguments.specs.Fits.{Fits, fitted_args};
ghost use Rattle.source_meaning.specs.Parts.{func_params, func_results};
ghost use Rattle.source_meaning.specs.Start.{stores_of, cells_in_all};
ghost use Rattle.source_meaning.specs.Sequential.{IsProgram, Means, start};
ghost use Rattle.source_eval.specs.Following.{IsEntry, IsLike, HasCome};

use crate::joins::Running;
use crate::made::arguments;
use crate::sequence::{Entry, Sequence};
use arguments::{BadArgs, fit_args};
use ir_forms::{Arg, ArgValue, FuncNo, Trace};
use ir_verify::Verified;
use lists::Items;
use source_meaning::{SourceEnd, SourceRun};
use source_state::Shared;
use source_tasks::{Facts, Task};
use std::alloc::{AllocError, Global};

/// The results and parameters of a function; one that isn't there has none.
fn entry_at<'a>(verified: &'a Verified, place: usize) -> Entry<'a>
    ensures results { result.results.now ≡ func_results (slice_get verified.now.program.funcs place) }
    ensures params { result.params.now ≡ func_params (slice_get verified.now.program.funcs place) }
{
    match verified.module().funcs.get(place) {
        Some(func) => Entry {
            results: func.results.as_slice(),
            params: func.params.as_slice(),
        },
        None => Entry {
            results: &[],
            params: &[],
        },
    }
}

/// The run before its first step.
fn first<'a>(
    alloc: Global,
    facts: &Facts<'a>,
    place: usize,
    values: &[ArgValue],
) -> Result<Sequence<'a>, AllocError>
    requires { cells_in_all (stores_of 0 values.now) ≤ most_cells }
    ensures { IfOk result (λ s. IsLike s (start facts.now place values.now)) }
{
    let vals = arguments(alloc, values)?;
    let shared = Shared::first(alloc, values)?;
    let task = Task::of_function(alloc, facts, place, vals)?;
    let top = Running {
        path: Items::new(alloc),
        taken: 0,
        begun: 0,
        task,
    };
    Ok(Sequence {
        top,
        below: Vec::new(alloc),
        shared,
        entries: Items::new(alloc),
    })
}

/// Takes steps to the run's end. Each operation that begins takes one unit of fuel.
fn run<'a>(
    alloc: Global,
    facts: &Facts<'a>,
    entry: Entry<'a>,
    fuel: u32,
    sequence: &mut Sequence<'a>,
) -> Result<SourceEnd, AllocError>
    ensures { IfOk result (λ end. (k : ℕ) (args : List ArgValue) → IsEntry facts.now k entry.entry → IsLike sequence.old (start facts.now k args) → (begun : ℕ) × HasCome facts.now k fuel args (Some end) begun sequence.new) }
{
    let mut begun: u32 = 0;
    for _turn in 0..18_446_744_073_709_551_615u64 {
        if sequence.top.task.begins() {
            if begun >= fuel {
                return Ok(SourceEnd::Spent { fuel });
            }
            begun += 1;
        }
        if let Some(end) = sequence.advance(alloc, facts, entry)? {
            return Ok(end);
        }
    }
    Err(AllocError)
}

/// Runs a function of a module in sequence, with these arguments and so much fuel, of which each
/// operation that begins takes one unit.
///
/// # Errors
///
/// `Argument` as `fit_args`, and `OutOfMemory` where memory runs out.
pub fn evaluate(
    alloc: Global,
    verified: &Verified,
    entry: FuncNo,
    args: &[Arg],
    fuel: u32,
) -> Result<SourceRun, BadArgs>
    ensures ok { IfOk result (λ run. (values : List ArgValue) × (fitted_args (map (λ p. p.1) (func_params (slice_get verified.now.program.funcs entry.0))) args.now ≡ Fits values) × Means verified.now.program entry.0 values fuel run.end run.trace.entries) }
    ensures err { IfErr result (λ fault. IsWrong (fitted_args (map (λ p. p.1) (func_params (slice_get verified.now.program.funcs entry.0))) args.now) fault) }
{
    let place = entry.0 as usize;
    let signature = entry_at(verified, place);
    let values = fit_args(alloc, signature.params, args)?;
    let facts = Facts::of(alloc, verified)?;
    let mut sequence = first(alloc, &facts, place, values.as_slice())?;
    let end = run(alloc, &facts, signature, fuel, &mut sequence)?;
    let Sequence { entries, .. } = sequence;
    Ok(SourceRun {
        end,
        trace: Trace { entries },
    })
}
