//! Types, operations, regions, functions and modules, as plain data; what a run is given, what it shows, and what it
//! gives back.
#![tactic(auto)]

mod args;
mod copies;
mod counts;
mod laws;
mod names;
mod numbers;
mod ops;
mod runs;
mod types;

pub use args::{Arg, ArgValue, Scalar};
pub use copies::{
    copy_attr, copy_element, copy_made, copy_memref, copy_op, copy_params, copy_payload, copy_type,
    copy_types,
};
pub use counts::operation_count;
pub use int_ops::{Pred, Width};
pub use laws::{numbers_alone, numbers_in_order, renumbered_once};
pub use names::{Action, ElementName, MadeName, Path, Trace, TraceEntry};
pub use numbers::renumber;
pub use op_table::{Level, OpKind};
pub use ops::{Attr, Func, Module, Op, Region, ValueNo};
pub use runs::{Buffer, FuncNo, ObjNo, Out, TaskNo};
pub use types::{CellTy, Dim, MemTy, NumTy, OutTy, Ty, ValTy};
