//! The law.
ghost use Rattle.one_end.specs.OneEnd.{OneEnd};

/// Where a finished run's trace is ordered, every run of the program agrees with it, for whatever tasks begin with and
/// end with.
pub fn one_end<D, V>()
    ensures { OneEnd D V }
{}
