ghost use Rattle.std.specs.Prelude.{◌≡◌, ◌+◌, ◌<◌, ◌^◌, map};
ghost use Rattle.ir_forms.specs.Numbers.{operations_in, operations_inside, operations_under, operations_of, sum_of, numbered_op, numbered_region, numbered_func, in_turn, renumbered};

use crate::ops::{Func, Module, Op, Region};

/// Numbers each operation by its place in the text, from 1. A function counts as one, and an
/// operation comes before what stands in its regions.
pub fn renumber(module: Module) -> Module
    requires { operations_of «module» < 2 ^ 32 }
    ensures { result ≡ renumbered «module» }
{
    let mut module = module;
    number_funcs(module.funcs.as_mut_slice());
    module
}

fn number_funcs(funcs: &mut [Func])
    requires { sum_of (map operations_under funcs.old) < 2 ^ 32 }
    ensures { funcs.new ≡ (in_turn (map numbered_func funcs.old) 0).0 }
{
    let mut given = 0;
    for i in 0..funcs.len() {
        given = number_func(&mut funcs[i], given);
    }
}

fn number_func(func: &mut Func, given: u32) -> u32
    requires { given + operations_under func.old < 2 ^ 32 }
    ensures numbers { numbered_func func.old given ≡ (func.new, result) }
    ensures last { result ≡ given + operations_under func.old }
{
    func.at = given + 1;
    number_region(&mut func.body, given + 1)
}

#[cycle(numbers)]
fn number_region(region: &mut Region, given: u32) -> u32
    requires { given + operations_inside region.old < 2 ^ 32 }
    ensures numbers { numbered_region region.old given ≡ (region.new, result) }
    ensures last { result ≡ given + operations_inside region.old }
{
    number_ops(region.ops.as_mut_slice(), given)
}

#[cycle(numbers)]
fn number_ops(ops: &mut [Op], given: u32) -> u32
    requires { given + sum_of (map operations_in ops.old) < 2 ^ 32 }
    ensures numbers { in_turn (map numbered_op ops.old) given ≡ (ops.new, result) }
    ensures last { result ≡ given + sum_of (map operations_in ops.old) }
{
    let mut last = given;
    for i in 0..ops.len() {
        last = number_op(&mut ops[i], last);
    }
    last
}

#[cycle(numbers)]
fn number_op(op: &mut Op, given: u32) -> u32
    requires { given + operations_in op.old < 2 ^ 32 }
    ensures numbers { numbered_op op.old given ≡ (op.new, result) }
    ensures last { result ≡ given + operations_in op.old }
{
    op.at = given + 1;
    number_regions(op.regions.as_mut_slice(), given + 1)
}

#[cycle(numbers)]
fn number_regions(regions: &mut [Region], given: u32) -> u32
    requires { given + sum_of (map operations_inside regions.old) < 2 ^ 32 }
    ensures numbers { in_turn (map numbered_region regions.old) given ≡ (regions.new, result) }
    ensures last { result ≡ given + sum_of (map operations_inside regions.old) }
{
    let mut last = given;
    for i in 0..regions.len() {
        last = number_region(&mut regions[i], last);
    }
    last
}
