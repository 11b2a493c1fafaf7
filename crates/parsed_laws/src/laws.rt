//! Each function's contract is a law, for the proofs of other crates to cite.
ghost use Rattle.parsed_laws.specs.Arguments.{FittedAreArguments, ReadsSizes, WrittenAreArguments};
ghost use Rattle.parsed_laws.specs.Levels.{AcceptsAtLevel};
ghost use Rattle.parsed_laws.specs.Runs.{AcceptedHasElements, AcceptedHasResults, AcceptedKeepsRuns};
ghost use Rattle.parsed_laws.specs.Texts.{AcceptsWellFormed, ReadsInOrder, ReadsWellFormed, SoundIsPrintable};

/// Where arguments fit a function's parameters, what they come to has their shapes and numbers of 64 bits.
pub fn fitted_are_arguments()
    ensures { FittedAreArguments }
{}

/// The sizes in a text of arguments have 32 bits.
pub fn reads_sizes()
    ensures { ReadsSizes }
{}

/// So arguments of a text that fit a function are arguments of it.
pub fn written_are_arguments()
    ensures { WrittenAreArguments }
{
    fitted_are_arguments();
    reads_sizes();
}

/// The values of each function that is read are 0, 1, 2 and so on, in the order of the text.
pub fn reads_in_order()
    ensures { ReadsInOrder }
{}

/// A module that is read and breaks no rule is well formed.
pub fn reads_well_formed()
    ensures { ReadsWellFormed }
{}

/// Such a module is the meaning of its printed text.
pub fn sound_is_printable()
    ensures { SoundIsPrintable }
{
    read_forms::reads_printable();
    sound_laws::sound_uses_own();
}

/// A program that is accepted, whose operations are numbered by their places, is well formed.
pub fn accepts_well_formed()
    ensures { AcceptsWellFormed }
{
    ir_forms::numbers_alone();
}

/// Its level is that of its text, or an earlier one.
pub fn accepts_at_level()
    ensures { AcceptsAtLevel }
{
    ir_forms::numbers_alone();
    ir_verify::laws::level_is_least();
}

/// What the pass of checks makes of such a program has the program's runs, for all arguments that fit.
pub fn accepted_keeps_runs()
    ensures { AcceptedKeepsRuns }
{
    accepts_well_formed();
    written_are_arguments();
    check_laws::pass_keeps_runs();
}

/// Each operation of it has a result.
pub fn accepted_has_results()
    ensures { AcceptedHasResults }
{
    accepts_well_formed();
    written_are_arguments();
    check_laws::pass_has_results();
}

/// Each operation of it that awaits, adds to a group or launches a task has tokens and values of tasks for it.
pub fn accepted_has_elements()
    ensures { AcceptedHasElements }
{
    accepts_well_formed();
    written_are_arguments();
    check_laws::pass_has_elements();
}
