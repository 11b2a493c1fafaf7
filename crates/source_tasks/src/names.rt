//! The names that get the answer to what a task asks.
use ir_forms::ValueNo;
use std::marker::Model;

/// The names that get an answer: an operation's results, or a parameter of the task.
#[derive(Drop)]
pub struct Names<'a> {
    pub(crate) param: Option<ValueNo>,
    pub(crate) results: &'a [ValueNo],
}

impl<'a> Model for Names<'a> {
    ghost use Rattle.std.specs.Prelude.{List};
    ghost use Rattle.ir_forms.specs.declared.ops.ValueNo.{ValueNo};
    ghost use Rattle.source_tasks.specs.Numbers.{names_in};

    ghost Value = { List ValueNo };

    ghost view = { λ n. names_in n.param n.results.now };
}
