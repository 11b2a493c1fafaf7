//! Numbers by lists of numbers.
ghost use Rattle.std.specs.Prelude.{◌≡◌, cond, ℕ, List, OnOk};
ghost use Rattle.ir_forms.specs.Names.{same_path};
ghost use Rattle.race_order.specs.Table.{number_at};

use std::alloc::{AllocError, Global};
use std::collections::BTreeMap;

/// A number for each list of numbers: 0 where none was set.
#[derive(Drop)]
pub struct Table {
    entries: BTreeMap<Vec<usize>, usize>,
}

impl Table {
    /// 0 for each list. Takes no memory.
    pub fn new(alloc: Global) -> Table
        ensures { (key : List ℕ) → number_at result.entries.entries key ≡ 0 }
    {
        Table {
            entries: BTreeMap::new(alloc),
        }
    }

    /// The number of this list.
    pub fn get(&self, key: &[usize]) -> usize
        ensures { result ≡ number_at self.now.entries.entries key.now }
    {
        self.entries.get(key).copied().unwrap_or(0)
    }

    /// Gives the list this number, and keeps that of each other. Fails where memory is short.
    pub fn set(&mut self, key: Vec<usize>, number: usize) -> Result<(), AllocError>
        ensures { OnOk result ((other : List ℕ) → number_at self.new.entries.entries other ≡ cond (same_path key.items other) number (number_at self.old.entries.entries other)) }
    {
        self.entries.insert(key, number)?;
        Ok(())
    }
}
