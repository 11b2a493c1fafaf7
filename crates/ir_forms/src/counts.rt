ghost use Rattle.std.specs.Prelude.{◌≡◌, ◌+◌, ◌<◌, ◌≤◌, ◌^◌, ◌↔◌, map, IsSome, IfSome, MatchOption};
ghost use Rattle.ir_forms.specs.Numbers.{operations_in, operations_inside, operations_under, operations_of, sum_of};

use crate::ops::{Func, Module, Op, Region};

/// How many operations a module has; a function counts as one. `None` where there are 2^32 or more.
pub fn operation_count(module: &Module) -> Option<u32>
    ensures count { IfSome result (λ count. count ≡ operations_of «module».now) }
    ensures within { IsSome result ↔ (operations_of «module».now < 2 ^ 32) }
{
    count_funcs(module.funcs.as_slice())
}

fn count_funcs(funcs: &[Func]) -> Option<u32>
    ensures { MatchOption result (2 ^ 32 ≤ sum_of (map operations_under funcs.now)) (λ count. count ≡ sum_of (map operations_under funcs.now)) }
{
    let mut count = 0;
    for func in funcs {
        count = count_func(func, count)?;
    }
    Some(count)
}

fn count_func(func: &Func, before: u32) -> Option<u32>
    ensures { MatchOption result (2 ^ 32 ≤ before + operations_under func.now) (λ count. count ≡ before + operations_under func.now) }
{
    count_region(&func.body, before.checked_add(1)?)
}

#[cycle(counts)]
fn count_region(region: &Region, before: u32) -> Option<u32>
    ensures { MatchOption result (2 ^ 32 ≤ before + operations_inside region.now) (λ count. count ≡ before + operations_inside region.now) }
{
    let mut count = before;
    for op in region.ops.as_slice() {
        count = count_op(op, count)?;
    }
    Some(count)
}

#[cycle(counts)]
fn count_op(op: &Op, before: u32) -> Option<u32>
    ensures { MatchOption result (2 ^ 32 ≤ before + operations_in op.now) (λ count. count ≡ before + operations_in op.now) }
{
    let mut count = before.checked_add(1)?;
    for region in op.regions.as_slice() {
        count = count_region(region, count)?;
    }
    Some(count)
}
