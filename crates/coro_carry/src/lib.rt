//! How code with launches and awaits stands behind the coroutines that are made of it: the relation of states, and the rows at which a
//! step keeps it. Read `specs/Machines.antt`, `Relation`, and then `Laws`.
#![tactic(auto)]

mod laws;

pub use laws::{
    branch_follows, call_follows, covered_follows, inner_follows, jump_follows, load_follows,
    match_grows, resume_follows, return_follows, save_follows, start_agrees, suspend_follows,
    test_follows, wait_follows,
};
