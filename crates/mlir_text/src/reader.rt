//! Reads a text into its module.
ghost use Rattle.std.specs.Prelude.{◌≡◌, ◌<◌, ◌≤◌, ◌^◌, length, IsTrue};
ghost use Rattle.mlir_text.specs.Texts as spec;
ghost use Rattle.mlir_text.specs.Texts.{IsParsed, is_structured};

use crate::TextFault;
use crate::tokens::text_tokens_of;
use ir_forms::{Level, Module};
use mlir_lex::LexFault;
use module_grammar::{GrammarFault, TextLimits};
use std::alloc::Global;

/// How much a text of the program may hold.
pub const PROGRAM_LIMITS: TextLimits = TextLimits {
    operations: 65_536,
    functions: 1_024,
    depth: 64,
    values: 1_048_576,
};

/// Reads a text of the level into its module.
///
/// # Errors
///
/// `Lex` exactly where the bytes are cut into no tokens; else the first of the other faults in the text.
pub fn parse(
    alloc: Global,
    bytes: &[u8],
    level: Level,
    limits: &TextLimits,
) -> Result<Module, TextFault>
    requires length { length bytes.now < 2 ^ 32 }
    requires level { IsTrue (is_structured level) }
    requires depth { limits.now.depth ≤ 512 }
    ensures { IsParsed limits.now level bytes.now result }
{
    module_grammar::accepts_exactly();
    module_grammar::names_first_fault();
    let tokens = match mlir_lex::tokens(alloc, bytes) {
        Ok(tokens) => tokens,
        Err(LexFault::OutOfMemory) => return Err(TextFault::OutOfMemory),
        Err(fault) => return Err(TextFault::Lex(fault)),
    };
    let text_tokens = text_tokens_of(alloc, bytes, tokens.as_slice())?;
    let found = module_grammar::read(alloc, level, limits, text_tokens.as_slice())?;
    answer_of(found)
}

fn answer_of(found: Result<Module, GrammarFault>) -> Result<Module, TextFault>
    ensures { result ≡ spec.answer_of found }
{
    match found {
        Ok(module) => Ok(module),
        Err(fault) => Err(TextFault::from(fault)),
    }
}
