//! Machines that take steps and show what they do, and when one carries another. Read `specs/Machine.antt`, `Carries`,
//! `Simulates`, `Strict`, `Reading`, and then `Laws`.
#![tactic(auto)]

mod laws;

pub use laws::{
    Machines, Needing, Readable, Related, carried_follows, carries_itself, carries_on, follows_on,
    read_carries, read_reaches, simulation_carries, strict_carries,
};
