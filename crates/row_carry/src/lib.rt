//! More rows of code with coroutines beside code of blocks, over the relation of `coro_carry`: where a group is made, rows that code of
//! blocks doesn't have, and the ends of the root and of the run. Read `specs/Laws.antt`.
#![tactic(auto)]

mod laws;

pub use laws::{
    absent_end_follows, absent_follows, create_follows, ends_follow, root_end_follows, root_starts,
    root_stays, rows_follow,
};
