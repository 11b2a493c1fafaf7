//! The laws.
ghost use Rattle.carry_laws.specs.Instances.{ProgramAgreesWithItself, RenamedProgramsAgree, RenamedProgramsRunAlike};
ghost use Rattle.carry_laws.specs.Laws.{SameEnds, SameFinishes, SameMeaning, SameStates};
ghost use Rattle.source_meaning.specs.Tasks.{Program, Task};
ghost use Rattle.source_meaning.specs.World.{World};

/// What relates the tasks of two programs, and what holds of all that tasks share.
pub trait Alike {
    ghost like: { Program → Program → Task → Task → Type 0 };

    ghost kept: { World → Type 0 };
}

/// Programs whose tasks agree one by one have the same sequential runs that end by their root.
pub fn same_ends<A: Alike>()
    ensures { SameEnds A.like A.kept }
{}

/// They have the same finished runs in any order of tasks.
pub fn same_finishes<A: Alike>()
    ensures { SameFinishes A.like A.kept }
{}

/// For each state that runs of one come to, finished or not, runs of the other come to one that shares and shows the same.
pub fn same_states<A: Alike>()
    ensures { SameStates A.like A.kept }
{}

/// What one of their modules means with fuel that isn't spent, the other means with enough fuel.
pub fn same_meaning<A: Alike>()
    ensures { SameMeaning A.like A.kept }
{}

/// The tasks of a program agree with themselves.
pub fn program_agrees_with_itself()
    ensures { ProgramAgreesWithItself }
{}

/// The tasks of a program agree with those of one whose values have other names.
pub fn renamed_programs_agree()
    ensures { RenamedProgramsAgree }
{}

/// So such programs have the same runs.
pub fn renamed_programs_run_alike()
    ensures { RenamedProgramsRunAlike }
{}
