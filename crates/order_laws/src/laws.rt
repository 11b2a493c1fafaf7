//! The laws.
ghost use Rattle.order_laws.specs.SameEnd.{FinishedRunsAgree, MeaningIsOneEnd, OneEndInAnyOrder};
ghost use Rattle.order_laws.specs.Worked.{OrderedWritesHaveOneEnd};

/// Where a finished run's trace is ordered, each state that a run of the function comes to agrees with it.
pub fn finished_runs_agree()
    ensures { FinishedRunsAgree }
{}

/// Where the sequential run ends by its root and its trace is ordered, each run in any order of tasks agrees with it.
pub fn one_end_in_any_order()
    ensures { OneEndInAnyOrder }
{}

/// So it is where the sequential meaning with some fuel has this end and this trace.
pub fn meaning_is_one_end()
    ensures { MeaningIsOneEnd }
{}

/// The worked module's runs have one end in any order.
pub fn ordered_writes_have_one_end()
    ensures { OrderedWritesHaveOneEnd }
{}
