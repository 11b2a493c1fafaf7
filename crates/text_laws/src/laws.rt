//! What holds of all texts, as the contracts of functions that do nothing.
ghost use Rattle.mlir_text.specs.Texts.{OneModule, OneAnswer, ReadsTexts};

/// A text stands for one module.
pub fn one_module()
    ensures { OneModule }
{
    mlir_lex::one_reading();
    module_grammar::accepts_exactly();
}

/// A text has one answer, where memory is enough.
pub fn one_answer()
    ensures { OneAnswer }
{
    mlir_lex::one_reading();
    module_grammar::accepts_exactly();
}

/// What stands for a module is read as it, where memory is enough.
pub fn reads_texts()
    ensures { ReadsTexts }
{
    mlir_lex::one_reading();
    module_grammar::accepts_exactly();
}
