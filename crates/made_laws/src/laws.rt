//! The laws.
ghost use Rattle.made_laws.specs.Laws.{CapturesAre, MadeNamesDiffer, MadeNamesFree};

/// The name of a made function is that of no function of the module.
pub fn made_names_free()
    ensures { MadeNamesFree }
{}

/// Two made functions of a module have two names, where their numbers have 64 bits.
pub fn made_names_differ()
    ensures { MadeNamesDiffer }
{}

/// A region captures exactly what its operations use and nothing in it defines.
pub fn captures_are()
    ensures { CapturesAre }
{}
