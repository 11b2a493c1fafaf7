//! The cells of buffers.
ghost use Rattle.std.specs.Prelude.{◌≡◌, ◌<◌, ◌+◌, ◌-◌, ◌^◌, ◌↔◌, ◌++◌, ◌∷◌, [], length, IsTrue, slice_get, slice_set, IsSome, IfOk, OnOk, vec_len, vec_capacity};
ghost use Rattle.step_core.specs.Cells.{cells_in};
ghost use Rattle.step_core.specs.State.{buffer_val, cells_used, argument_cells};

use async_objects::Val;
use ir_forms::{ArgValue, OutTy};
use lists::Items;
use std::alloc::{AllocError, Global};
use std::marker::Model;

/// The buffer of a parameter of the entry, and the type of its cells.
#[derive(Clone, Copy)]
pub struct ArgBuffer {
    pub argument: u32,
    pub buffer: u32,
    pub cell: OutTy,
}

/// The cells of each buffer, by the buffer's number, and how many cells there are in all.
#[derive(Drop)]
pub(crate) struct Cells {
    buffers: Vec<Items<u64>>,
    used: u64,
}

impl Model for Cells {
    ghost use Rattle.std.specs.Prelude.{◌≡◌, ◌<◌, ◌-◌, ◌^◌, vec_len, vec_capacity};
    ghost use Rattle.step_core.specs.Cells.{Kept};
    ghost use Rattle.step_core.specs.State.{cells_used};

    ghost Value = { Kept };

    ghost view = { λ c. record { buffers = c.buffers.items; room = vec_capacity c.buffers - vec_len c.buffers } };

    ghost invariant = { λ c. (c.used ≡ cells_used c.buffers.items) × (c.used < 2 ^ 32) };
}

impl Cells {
    /// No buffers.
    pub(crate) fn new(alloc: Global) -> Cells
        ensures { result.buffers ≡ [] }
    {
        Cells {
            buffers: Vec::new(alloc),
            used: 0,
        }
    }

    /// The cells of these arguments.
    pub(crate) fn of(alloc: Global, args: &[ArgValue]) -> Result<Cells, AllocError>
        ensures { IfOk result (λ cells. cells.buffers ≡ argument_cells args.now) }
    {
        let mut cells = Cells::new(alloc);
        cells.add(alloc, args)?;
        Ok(cells)
    }

    /// Adds the cells of these arguments. More than 2^32 - 1 cells fit into no memory.
    fn add(&mut self, alloc: Global, args: &[ArgValue]) -> Result<(), AllocError>
        ensures { OnOk result (self.new.buffers ≡ self.old.buffers ++ argument_cells args.now) }
    {
        for arg in args {
            if let ArgValue::Cells { dims: _, values } = arg {
                let cells = Items::from_slice(alloc, values.as_slice())?;
                if self.used + cells.len() as u64 >= 1 << 32 {
                    return Err(AllocError);
                }
                self.reserve()?;
                self.push(cells);
            }
        }
        Ok(())
    }

    /// How many buffers there are.
    pub(crate) fn made(&self) -> u32
        requires { length self.now.buffers < 2 ^ 32 }
        ensures { result ≡ length self.now.buffers }
    {
        self.buffers.len() as u32
    }

    /// Whether there may be a buffer more.
    pub(crate) fn has_number(&self) -> bool
        ensures { IsTrue result ↔ (length self.now.buffers < 2 ^ 32 - 1) }
    {
        self.buffers.len() < u32::MAX as usize
    }

    /// How many cells there are.
    pub(crate) fn used(&self) -> u32
        ensures { result ≡ cells_used self.now.buffers }
    {
        self.used as u32
    }

    /// How many cells a buffer has.
    pub(crate) fn len(&self, buffer: u32) -> usize
        ensures { result ≡ length (cells_in self.now.buffers buffer) }
    {
        match self.buffers.get(buffer as usize) {
            Some(cells) => cells.len(),
            None => 0,
        }
    }

    /// The cells of a buffer; one that isn't there has none.
    pub(crate) fn cells(&self, buffer: u32) -> &[u64]
        ensures { result.now ≡ cells_in self.now.buffers buffer }
    {
        match self.buffers.get(buffer as usize) {
            Some(cells) => cells.as_slice(),
            None => &[],
        }
    }

    /// What a cell holds, if it is there.
    pub(crate) fn get(&self, buffer: u32, cell: usize) -> Option<u64>
        ensures { result ≡ slice_get (cells_in self.now.buffers buffer) cell }
    {
        match self.buffers.get(buffer as usize) {
            Some(cells) => cells.get(cell).copied(),
            None => None,
        }
    }

    /// Gives a cell a number.
    pub(crate) fn set(&mut self, buffer: u32, cell: usize, n: u64)
        requires { IsSome (slice_get (cells_in self.old.buffers buffer) cell) }
        ensures { self.new ≡ record self.old { buffers = slice_set self.old.buffers buffer (slice_set (cells_in self.old.buffers buffer) cell n) } }
    {
        set_in(&mut self.buffers, buffer as usize, cell, n);
    }

    /// Reserves a place for one more buffer, beside its cells.
    pub(crate) fn reserve(&mut self) -> Result<(), AllocError>
        ensures buffers { self.new.buffers ≡ self.old.buffers }
        ensures room { OnOk result (0 < self.new.room) }
    {
        self.buffers.reserve(1)
    }

    /// Adds a buffer with these cells, in a reserved place.
    pub(crate) fn push(&mut self, cells: Items<u64>)
        requires room { 0 < self.old.room }
        requires few { cells_used self.old.buffers + length cells < 2 ^ 32 }
        ensures { self.new.buffers ≡ self.old.buffers ++ cells ∷ [] }
    {
        self.used += cells.len() as u64;
        self.buffers.push_reserved(cells);
    }
}

fn set_in(buffers: &mut Vec<Items<u64>>, buffer: usize, cell: usize, n: u64)
    requires { IsSome (slice_get (cells_in buffers.old.items buffer) cell) }
    ensures cell { buffers.new.items ≡ slice_set buffers.old.items buffer (slice_set (cells_in buffers.old.items buffer) cell n) }
    ensures capacity { (vec_capacity buffers.new ≡ vec_capacity buffers.old) × (vec_len buffers.new ≡ vec_len buffers.old) }
{
    buffers[buffer].set(cell, n);
}

/// What names a buffer of these sizes.
pub(crate) fn buffer_val(number: u32, dims: &[u32]) -> Val
    ensures { result ≡ buffer_val number dims.now }
{
    let (rank, dims) = match dims {
        [] => (0, [0, 0, 0, 0]),
        [a] => (1, [*a, 0, 0, 0]),
        [a, b] => (2, [*a, *b, 0, 0]),
        [a, b, c] => (3, [*a, *b, *c, 0]),
        [a, b, c, d, ..] => (4, [*a, *b, *c, *d]),
    };
    Val::Buffer { number, rank, dims }
}
