//! The level of a module.
ghost use Rattle.std.specs.Prelude.{◌≡◌};
ghost use Rattle.ir_verify.specs.Levels.{later, latest, level_of, kinds_at, kinds_in};

use ir_forms::{Func, Level, Op, Region};
use op_table::row;

/// The later of two levels.
fn later(level: Level, other: Level) -> Level
    ensures { result ≡ later level other }
{
    if level < other { other } else { level }
}

/// The latest of this level and of those from which on the operation and what stands in it stand.
#[cycle(levels)]
fn level_at(op: &Op, level: Level) -> Level
    ensures { result ≡ latest level (kinds_at op.now) }
{
    let mut latest = later(level, row(op.kind).level);
    for region in op.regions.as_slice() {
        latest = level_in(region, latest);
    }
    latest
}

#[cycle(levels)]
fn level_in(region: &Region, level: Level) -> Level
    ensures { result ≡ latest level (kinds_in region.now) }
{
    let mut latest = level;
    for op in region.ops.as_slice() {
        latest = level_at(op, latest);
    }
    latest
}

/// The least level whose texts may hold all operations of the functions.
pub(crate) fn level_of(funcs: &[Func]) -> Level
    ensures { result ≡ level_of funcs.now }
{
    let mut latest = Level::Source;
    for func in funcs {
        latest = level_in(&func.body, latest);
    }
    latest
}
