//! The passes, one behind another.
ghost use Rattle.std.specs.Prelude.{◌≡◌, ◌≤◌, IfOk, string_bytes};
ghost use Rattle.op_table.specs.Rows.{place_of};
ghost use Rattle.parallel_for.specs.Shape.{IsSplit};
ghost use Rattle.mlir_print.specs.Printed.{printed};
ghost use Rattle.scf_blocks.specs.Lowered.{lowered};
ghost use Rattle.pass_line.specs.Line as spec;
ghost use Rattle.pass_line.specs.Line.{AreTexts, IsCompiled, IsLowered, code_of, prepared};

use crate::texts::Texts;
use check_insert::insert_checks;
use coro_lower::to_runtime;
use exec_outline::{Outlined, outline_module};
use ir_forms::{Level, Module};
use ir_verify::Verified;
use loop_blocks::Options;
use low_forms::LowModule;
use low_print::print_low;
use mlir_print::print;
use parallel_for::{Halved, split_parallel};
use ref_counting::place_counts;
use scf_blocks::blocks_of_module;
use std::alloc::{AllocError, Global};

/// The code of a module, and its texts on the way.
#[derive(Drop)]
pub struct Compiled {
    pub texts: Texts,
    pub code: LowModule,
}

/// The functions and tasks of a module as blocks, with the high rows for launches and awaits. A function with 2^32
/// registers or blocks is want of memory.
pub fn to_blocks(alloc: Global, structured: Outlined) -> Result<LowModule, AllocError>
    ensures { IfOk result (λ low. low ≡ lowered structured) }
{
    blocks_of_module(alloc, structured.functions())
}

/// A module without parallel loops.
fn halved(alloc: Global, source: Verified, options: Options) -> Result<Halved, AllocError>
    requires { place_of source.level ≤ place_of Level.Checked }
    ensures { IfOk result (λ halved. IsSplit options (prepared source.program) halved) }
{
    let checked = insert_checks(alloc, source)?;
    split_parallel(alloc, checked, options)
}

/// In blocks, before references are counted.
fn runtime_of(alloc: Global, halved: &Module) -> Result<LowModule, AllocError>
    ensures { IfOk result (λ code. code ≡ spec.runtime_of halved.now) }
{
    let structured = outline_module(alloc, halved)?;
    let blocks = to_blocks(alloc, structured)?;
    to_runtime(alloc, blocks)
}

fn code_of(alloc: Global, halved: Halved) -> Result<LowModule, AllocError>
    ensures { IfOk result (λ code. code ≡ code_of halved) }
{
    let code = runtime_of(alloc, halved.functions())?;
    place_counts(alloc, code)
}

/// The code of a module. One of whose functions passes 2^32 values, registers or blocks on the way is want of memory.
#[tactic(auto, using(crate::proofs::Made::lowered_as))]
pub fn lower(alloc: Global, source: Verified, options: Options) -> Result<LowModule, AllocError>
    requires { place_of source.level ≤ place_of Level.Checked }
    ensures { IfOk result (λ code. IsLowered options source.program code) }
{
    let halved = halved(alloc, source, options)?;
    code_of(alloc, halved)
}

/// The texts behind the first, with the code.
#[tactic(auto, using(crate::proofs::Made::texts_as))]
fn with_texts(alloc: Global, halved: Halved, split: String) -> Result<Compiled, AllocError>
    requires { string_bytes split ≡ printed halved }
    ensures code { IfOk result (λ made. made.code ≡ code_of halved) }
    ensures texts { IfOk result (λ made. AreTexts halved made.texts) }
{
    let uncounted = runtime_of(alloc, halved.functions())?;
    let runtime = print_low(alloc, &uncounted)?;
    let code = place_counts(alloc, uncounted)?;
    let counted = print_low(alloc, &code)?;
    let optimised = String::from_str(alloc, counted.as_str())?;
    let texts = Texts {
        split,
        runtime,
        counted,
        optimised,
    };
    Ok(Compiled { texts, code })
}

/// The code of a module, as `lower` makes it, and the texts on the way.
#[tactic(auto, using(crate::proofs::Made::compiled_as))]
pub fn compile(alloc: Global, source: Verified, options: Options) -> Result<Compiled, AllocError>
    requires { place_of source.level ≤ place_of Level.Checked }
    ensures { IfOk result (λ made. IsCompiled options source.program made) }
{
    let halved = halved(alloc, source, options)?;
    let split = print(alloc, halved.functions())?;
    with_texts(alloc, halved, split)
}
