//! An object of a run, its count aside.
ghost use Rattle.std.specs.Prelude.{◌≡◌, ◌<◌, ◌≤◌, ◌+◌, ◌-◌, ◌^◌, true, IfOk, IfErr};
ghost use Rattle.async_objects.specs.Objects.{blank, new_object, is_done, one_done, state_of, takes_more};
ghost use Rattle.async_objects.specs.Kept.{IsFilled};
ghost use Rattle.async_objects.specs.Tables.{AddCause};

use crate::kinds::{AddError, Kind, State, Val};
use ir_forms::{ObjNo, TaskNo};
use lists::Items;
use std::alloc::Global;
use std::collections::LinkedList;

/// How many elements a group has, how many of them are set, and how many of these are in error.
#[derive(Clone, Copy)]
pub struct Members {
    pub added: u64,
    pub done: u64,
    pub failed: u64,
}

impl Members {
    /// One more element is added.
    pub(crate) fn add(&mut self)
        requires { self.old.added < 2 ^ 64 - 1 }
        ensures { self.new ≡ record self.old { added = self.old.added + 1 } }
    {
        self.added += 1;
    }

    /// One more element is set, and is in error or not.
    pub(crate) fn count(&mut self, in_error: bool)
        requires done { self.old.done < self.old.added }
        requires failed { self.old.failed ≤ self.old.done }
        ensures { self.new ≡ one_done in_error self.old }
    {
        let Members {
            added,
            done,
            failed,
        } = *self;
        *self = Members {
            added,
            done: done + 1,
            failed: if in_error { failed + 1 } else { failed },
        };
    }
}

/// A token, a value or a group.
#[derive(Drop)]
pub struct Object {
    pub kind: Kind,
    /// Of a token or a value. How a group stands is told by its members.
    pub state: State,
    pub payload: Option<Val>,
    /// The tasks that wait for it, in the order in which they came.
    pub awaiters: LinkedList<TaskNo>,
    /// The groups that wait for it, in the order in which it was added.
    pub memberships: Items<ObjNo>,
    /// Of a group. A token or a value has none.
    pub members: Members,
}

impl Object {
    fn with(alloc: Global, kind: Kind, state: State) -> Object
        ensures { result ≡ record (new_object kind) { state = state } }
    {
        Object {
            kind,
            state,
            payload: None,
            awaiters: LinkedList::new(alloc),
            memberships: Items::new(alloc),
            members: Members {
                added: 0,
                done: 0,
                failed: 0,
            },
        }
    }

    /// An object as it is made.
    pub(crate) fn new(alloc: Global, kind: Kind) -> Object
        ensures { result ≡ new_object kind }
    {
        Object::with(alloc, kind, State::Unset)
    }

    /// What is left of a released object.
    pub(crate) fn blank(alloc: Global) -> Object
        ensures { result ≡ blank }
    {
        Object::with(alloc, Kind::Token, State::Available)
    }

    /// Whether it is set, or a group of which as many elements as its size are set.
    pub(crate) fn is_done(&self) -> bool
        ensures { result ≡ is_done self.now }
    {
        match self.kind {
            Kind::Group { size } => self.members.done == size,
            _ => !matches!(self.state, State::Unset),
        }
    }

    /// How it stands. A group of which an element failed is in error.
    pub(crate) fn state(&self) -> State
        ensures { result ≡ state_of self.now }
    {
        match self.kind {
            Kind::Group { size } => {
                if self.members.failed > 0 {
                    State::Error
                } else if self.members.done == size {
                    State::Available
                } else {
                    State::Unset
                }
            }
            _ => self.state,
        }
    }

    /// How many elements a group has, where it takes one more.
    ///
    /// # Errors
    ///
    /// Where it has as many as its size.
    pub(crate) fn rank(&self) -> Result<u64, AddError>
        requires { IsFilled self.now }
        ensures rank { IfOk result (λ rank. (rank ≡ self.now.members.added) × (takes_more self.now ≡ true) × (rank < 2 ^ 64 - 1)) }
        ensures refused { IfErr result (λ why. AddCause why self.now) }
    {
        let added = self.members.added;
        match self.kind {
            Kind::Group { size } => {
                if added < size {
                    Ok(added)
                } else {
                    Err(AddError::GroupFull { size })
                }
            }
            _ => unreachable!(),
        }
    }
}
