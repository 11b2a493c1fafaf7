//! The laws.
ghost use Rattle.appended_laws.specs.Laws.{AppendedIsSound, AppendedStaysFine};

/// A body that breaks nothing breaks nothing where other functions stand behind its module's own.
pub fn appended_stays_fine()
    ensures { AppendedStaysFine }
{}

/// A sound module stays sound with functions behind its own that break no rule, where tasks call none of its own by them.
pub fn appended_is_sound()
    ensures { AppendedIsSound }
{}
