//! Tasks that run, each with how far it has come.
ghost use Rattle.std.specs.Prelude.{◌≡◌, IfOk};
ghost use Rattle.source_eval.specs.Following.{left_to_begin};

use ir_forms::Path;
use source_tasks::Task;
use std::alloc::{AllocError, Global};

/// A task with its path, how many actions it has taken, and how many iterations of its last loop have
/// begun.
#[derive(Drop)]
pub(crate) struct Running<'a> {
    pub(crate) path: Path,
    pub(crate) taken: u32,
    pub(crate) begun: u32,
    pub(crate) task: Task<'a>,
}

impl<'a> Running<'a> {
    /// The iteration of the loop that the task joins next which is to begin before that, if one is left.
    pub(crate) fn next_iteration(&self, alloc: Global) -> Result<Option<Task<'a>>, AllocError>
        ensures { IfOk result (λ t. t ≡ left_to_begin self.now.begun self.now.task) }
    {
        match self.task.joining() {
            Some(entered) => {
                if self.begun < entered.total() {
                    Ok(Some(entered.iteration(alloc, self.begun)?))
                } else {
                    Ok(None)
                }
            }
            None => Ok(None),
        }
    }
}
