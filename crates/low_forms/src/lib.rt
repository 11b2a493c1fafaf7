//! Lowered code: functions of basic blocks over registers. `LowRow` says of each instruction, in one line, what it takes
//! and gives; `well_formed` answers whether code keeps all that the crates above rely on.
#![tactic(auto)]

mod code;
mod critical;
pub mod edges;
mod fits;
mod flow;
pub mod laws;
mod numbers;
mod row;
mod saves;
mod table;
mod targets;
mod types;
mod well;

pub use code::{Block, BlockNo, Instr, LowAttr, LowFunc, LowKind, LowModule, Reg, Target, Term};
pub use ir_forms::{FuncNo, OpKind, Pred, Ty};
pub use row::{AttrSlot, Change, LowRow, Rest, Slot, StepKind, Targets};
pub use table::low_row;
pub use well::well_formed;
