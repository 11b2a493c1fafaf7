//! The laws of the grammar, as the contracts of functions that do nothing.
ghost use Rattle.module_grammar.specs.Faults.{TellsUnknownOp, TellsUnknownType, FindsUnknownType};
ghost use Rattle.grammar_laws.specs.Limits.{PassesLimit};
ghost use Rattle.grammar_laws.specs.UnknownTypes.{FindsUnknownTypeAtNumber};
ghost use Rattle.grammar_laws.specs.WideNumbers.{TellsWideNumber};
ghost use Rattle.module_grammar.specs.Texts.{ReadsEachText, ReadsTextsAlone, HasOneModule, FindsFirstFault};

/// Every text of the grammar is read, as the module that it stands for.
pub fn reads_each_text()
    ensures { ReadsEachText }
{}

/// What is read is a text of the grammar, and stands for that module.
pub fn reads_texts_alone()
    ensures { ReadsTextsAlone }
{}

/// A text stands for one module.
pub fn has_one_module()
    ensures { HasOneModule }
{}

/// What is refused is no text of the grammar, and is refused at the first token that doesn't fit.
pub fn finds_first_fault()
    ensures { FindsFirstFault }
{}

/// An operation is answered as unknown exactly at a name that none of the level has, where the name of one would fit.
pub fn tells_unknown_op()
    ensures { TellsUnknownOp }
{}

/// Where a type is answered as unknown, a token that begins one would fit.
pub fn tells_unknown_type()
    ensures { TellsUnknownType }
{}

/// A token that begins no type is answered as an unknown type where one that begins a type would fit, but not each name.
pub fn finds_unknown_type()
    ensures { FindsUnknownType }
{}

/// So it is at a number, where no number would fit.
pub fn finds_unknown_type_at_number()
    ensures { FindsUnknownTypeAtNumber }
{}

/// A number is answered as too wide where no text goes on with it, but with another number, or where an entry ends that has it.
pub fn tells_wide_number()
    ensures { TellsWideNumber }
{}

/// Where a limit is answered, what was read passes it, and so does every text that goes on there.
pub fn passes_limit()
    ensures { PassesLimit }
{}
