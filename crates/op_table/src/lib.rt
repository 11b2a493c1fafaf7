//! The table of operations: for each kind of operation that a text can hold, one row with its name, how many operands,
//! results and regions it takes, the level of text from which on it stands, and its form. `row` reads a kind's row, and `find`
//! gives the kind that a name belongs to.
#![tactic(auto)]

mod form;
mod kind;
mod laws;
mod rows;
mod table;

pub use form::Form;
pub use kind::OpKind;
pub use laws::{
    finds_each_name, finds_exactly, finds_in_bodies, has_distinct_names, lists_body_kinds,
    lists_each_kind, stands_on,
};
pub use rows::{Count, Level, OpRow, row};
pub use table::{Table, find};
