//! The laws.
ghost use Rattle.std.specs.Prelude.{Bool};
ghost use Rattle.machines.specs.Machine.{Machine};
ghost use Rattle.machines.specs.Reading.{Reader};
ghost use Rattle.machines.specs.Laws.{CarriedFollows, CarriesItself, CarriesOn, FollowsOn, ReadCarries, ReadReaches, SimulationCarries, StrictCarries};

/// Three machines that show things of one type and have ends of one type.
pub trait Machines {
    ghost shown: { Type 0 };

    ghost end: { Type 0 };

    ghost one: { Machine shown end };

    ghost two: { Machine shown end };

    ghost three: { Machine shown end };
}

/// A machine carries itself.
pub fn carries_itself<M: Machines>()
    ensures { CarriesItself M.one }
{}

/// What carries a machine that carries a third carries the third.
pub fn carries_on<M: Machines>()
    ensures { CarriesOn M.one M.two M.three }
{}

/// What follows a machine that follows a third follows the third.
pub fn follows_on<M: Machines>()
    ensures { FollowsOn M.one M.two M.three }
{}

/// What carries a machine follows it.
pub fn carried_follows<M: Machines>()
    ensures { CarriedFollows M.one M.two }
{}

/// Two machines and a relation of their states.
pub trait Related {
    ghost shown: { Type 0 };

    ghost end: { Type 0 };

    ghost one: { Machine shown end };

    ghost other: { Machine shown end };

    ghost same: { one.State → other.State → Type 0 };
}

/// What simulates a machine carries it.
pub fn simulation_carries<R: Related>()
    ensures { SimulationCarries R.one R.other R.same }
{}

/// Two machines and what reads what they show.
pub trait Readable {
    ghost shown: { Type 0 };

    ghost other: { Type 0 };

    ghost end: { Type 0 };

    ghost reader: { Reader shown other };

    ghost one: { Machine shown end };

    ghost two: { Machine shown end };
}

/// A machine that is read reaches what the machine reaches.
pub fn read_reaches<R: Readable>()
    ensures { ReadReaches R.reader R.one }
{}

/// Where one of two machines carries the other, it does so where both are read.
pub fn read_carries<R: Readable>()
    ensures { ReadCarries R.reader R.one R.two }
{}

/// A machine, and what its steps are to need.
pub trait Needing {
    ghost shown: { Type 0 };

    ghost end: { Type 0 };

    ghost one: { Machine shown end };

    ghost needs: { one.State → one.Who → Bool };
}

/// A machine that asks for what always holds carries the one that doesn't ask.
pub fn strict_carries<N: Needing>()
    ensures { StrictCarries N.one N.needs }
{}
