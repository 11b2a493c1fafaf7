//! The buffers, the groups, and the ends of tasks.
ghost use Rattle.std.specs.Prelude.{◌≡◌, ℕ, Bool, List, ◌+◌, ◌^◌, ◌<◌, ◌≤◌, length, IfOk, OnOk};
ghost use Rattle.ir_forms.specs.Names as names;
ghost use Rattle.ir_forms.specs.Names.{Path, iteration_of};
ghost use Rattle.ir_forms.specs.declared.names.MadeName.TheVariants.{Argument};
ghost use Rattle.ir_forms.specs.Shapes.{product, most_cells};
ghost use Rattle.source_meaning.specs.Start.{first_world, stores_of, cells_in_all};
ghost use Rattle.source_meaning.specs.Tasks.{Writes, Allocs, Creates, Adds};
ghost use Rattle.source_meaning.specs.World as world;
ghost use Rattle.source_meaning.specs.World.{World, cell, cells_in, members, size, outcome, after, all_of, all_below, is_good};
ghost use Rattle.source_state.specs.Seen.{Alike, outcome_of};

use crate::ends;
use crate::ends::Ended;
use crate::groups::{Fill, Group, add_member};
use crate::names::{Name, name_of};
use crate::stores::{add_arguments, cells_at, write_cell, zeros};
use ir_forms::{ArgValue, ElementName, MadeName};
use lists::Items;
use source_meaning::Val;
use std::alloc::{AllocError, Global};
use std::collections::BTreeMap;
use std::marker::Model;

/// What tasks share: the buffers, how many cells there are in all, the groups, and how tasks ended.
#[derive(Drop)]
pub struct Shared {
    buffers: BTreeMap<Name, Items<u64>>,
    used: u32,
    groups: BTreeMap<Name, Group>,
    ends: BTreeMap<Vec<u32>, Ended>,
}

impl Model for Shared {
    ghost use Rattle.std.specs.Prelude.{◌≤◌, map};
    ghost use Rattle.ir_forms.specs.Shapes.{most_cells};
    ghost use Rattle.source_meaning.specs.World.{World};
    ghost use Rattle.source_state.specs.Seen.{store_of, gathering_of, ends_of};

    ghost Value = { World };

    ghost view = { λ s. record { buffers = map store_of s.buffers.entries; used = s.used; groups = map gathering_of s.groups.entries; ends = ends_of s.ends.entries } };

    ghost invariant = { λ s. s.used ≤ most_cells };
}

impl Shared {
    /// What is shared at the start: the buffers among these arguments.
    ///
    /// # Errors
    ///
    /// Where memory runs out.
    pub fn first(alloc: Global, args: &[ArgValue]) -> Result<Shared, AllocError>
        requires { cells_in_all (stores_of 0 args.now) ≤ most_cells }
        ensures { IfOk result (λ shared. Alike shared (first_world args.now)) }
    {
        let mut buffers = BTreeMap::new(alloc);
        let used = add_arguments(alloc, &mut buffers, args)?;
        Ok(Shared {
            buffers,
            used,
            groups: BTreeMap::new(alloc),
            ends: BTreeMap::new(alloc),
        })
    }

    /// How many cells all buffers have.
    pub fn used(&self) -> u32
        ensures used { result ≡ self.now.used }
        ensures bound { result ≤ most_cells }
    {
        self.used
    }

    /// The cells of the buffer that is the argument of this parameter. What is no buffer has none.
    pub fn argument(&self, parameter: u32) -> &[u64]
        ensures { result.now ≡ cells_in self.now (Argument parameter) }
    {
        cells_at(&self.buffers, &Name::Argument(parameter))
    }

    /// A cell of a buffer. One that isn't there reads as 0.
    ///
    /// # Errors
    ///
    /// Where memory runs out.
    pub fn read(&self, alloc: Global, buffer: &MadeName, at: u64) -> Result<u64, AllocError>
        ensures { IfOk result (λ n. n ≡ cell self.now buffer.now at) }
    {
        let name = name_of(alloc, buffer)?;
        match cells_at(&self.buffers, &name).get(at as usize) {
            Some(number) => Ok(*number),
            None => Ok(0),
        }
    }

    /// Writes a cell of a buffer.
    ///
    /// # Errors
    ///
    /// Where memory runs out.
    pub fn write(
        &mut self,
        alloc: Global,
        buffer: &MadeName,
        at: u64,
        number: u64,
    ) -> Result<(), AllocError>
        ensures { OnOk result ((w : World) (p : Path) (k : ℕ) → Alike self.old w → Alike self.new (after w p k (Writes buffer.now at number))) }
    {
        let name = name_of(alloc, buffer)?;
        write_cell(&mut self.buffers, &name, at as usize, number);
        Ok(())
    }

    /// Makes a buffer of so many cells, each of them 0, by the action that the task takes after so many
    /// others.
    ///
    /// # Errors
    ///
    /// Where memory runs out.
    pub fn make_buffer(
        &mut self,
        alloc: Global,
        task: &[u32],
        taken: u32,
        cells: u32,
    ) -> Result<(), AllocError>
        requires fits { self.old.used + cells ≤ most_cells }
        requires counts { taken + 1 < 2 ^ 32 }
        ensures { OnOk result ((w : World) (dims : List ℕ) → cells ≡ product dims → Alike self.old w → Alike self.new (after w task.now taken (Allocs dims))) }
    {
        let name = Name::Made(Vec::from_slice(alloc, task)?, taken + 1);
        let cleared = zeros(alloc, cells)?;
        self.buffers.insert(name, cleared)?;
        self.used += cells;
        Ok(())
    }

    /// Makes a group of this size, by the action that the task takes after so many others.
    ///
    /// # Errors
    ///
    /// Where memory runs out.
    pub fn make_group(
        &mut self,
        alloc: Global,
        task: &[u32],
        taken: u32,
        size: u32,
    ) -> Result<(), AllocError>
        requires { taken + 1 < 2 ^ 32 }
        ensures { OnOk result ((w : World) → Alike self.old w → Alike self.new (after w task.now taken (Creates size))) }
    {
        let name = Name::Made(Vec::from_slice(alloc, task)?, taken + 1);
        let group = Group {
            size,
            members: Items::new(alloc),
        };
        self.groups.insert(name, group)?;
        Ok(())
    }

    /// How full a group is. One that isn't there has no elements and room for none.
    ///
    /// # Errors
    ///
    /// Where memory runs out.
    pub fn fill(&self, alloc: Global, group: &MadeName) -> Result<Fill, AllocError>
        ensures { IfOk result (λ fill. (fill.added ≡ length (members self.now group.now)) × (fill.size ≡ size self.now group.now)) }
    {
        let name = name_of(alloc, group)?;
        match self.groups.get(&name) {
            Some(group) => Ok(Fill {
                added: group.members.len() as u64,
                size: group.size as u64,
            }),
            None => Ok(Fill { added: 0, size: 0 }),
        }
    }

    /// Adds an element to a group.
    ///
    /// # Errors
    ///
    /// Where memory runs out.
    pub fn add(
        &mut self,
        alloc: Global,
        group: &MadeName,
        element: ElementName,
    ) -> Result<(), AllocError>
        ensures { OnOk result ((w : World) (p : Path) (k : ℕ) (used : Bool) → Alike self.old w → Alike self.new (after w p k (Adds group.now element used))) }
    {
        let name = name_of(alloc, group)?;
        add_member(&mut self.groups, &name, element)
    }

    /// What an await of this element gives: nothing for a token, or a value; `None` is the error.
    ///
    /// # Errors
    ///
    /// Where memory runs out.
    pub fn awaited(
        &self,
        alloc: Global,
        element: &ElementName,
    ) -> Result<Option<Items<Val>>, AllocError>
        ensures { IfOk result (λ answer. answer ≡ world.awaited element.now (outcome self.now (names.maker element.now))) }
    {
        ends::awaited(alloc, &self.ends, element)
    }

    /// Whether the makers of all elements of a group ended without failure.
    ///
    /// # Errors
    ///
    /// Where memory runs out.
    pub fn all_good(&self, alloc: Global, group: &MadeName) -> Result<bool, AllocError>
        ensures { IfOk result (λ good. good ≡ all_of (λ x. is_good (outcome self.now (names.maker x))) (members self.now group.now)) }
    {
        let name = name_of(alloc, group)?;
        match self.groups.get(&name) {
            Some(group) => Ok(ends::all_good(&self.ends, group.members.as_slice())),
            None => Ok(true),
        }
    }

    /// Whether all iterations of the loop that the task entered by its action of this number ended
    /// without failure.
    ///
    /// # Errors
    ///
    /// Where memory runs out.
    pub fn all_joined(
        &self,
        alloc: Global,
        task: &[u32],
        action: u32,
        total: u32,
    ) -> Result<bool, AllocError>
        ensures { IfOk result (λ good. good ≡ all_below (λ i. is_good (outcome self.now (iteration_of task.now action i))) total) }
    {
        ends::all_joined(alloc, &self.ends, task, action, total)
    }

    /// The task has ended so.
    ///
    /// # Errors
    ///
    /// Where memory runs out.
    pub fn end(&mut self, alloc: Global, task: &[u32], ended: Ended) -> Result<(), AllocError>
        ensures { OnOk result ((w : World) → Alike self.old w → Alike self.new (world.ended w task.now (outcome_of ended))) }
    {
        let path = Vec::from_slice(alloc, task)?;
        self.ends.insert(path, ended)?;
        Ok(())
    }
}
