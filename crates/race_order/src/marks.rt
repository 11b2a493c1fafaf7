//! Of each cell and group and each task, the last entry that touched it.
ghost use Rattle.std.specs.Prelude.{◌≡◌, ◌<◌, ◌≤◌, ◌^◌, ◌+◌, ◌==◌, ℕ, List, Bool, true, cond, Some, IfOk, OnOk, length};
ghost use Rattle.std.specs.Bool.{OnTrue};
ghost use Rattle.ir_forms.specs.Names.{same_path};
ghost use Rattle.race_order.specs.Clocks.{count, IsTree, HasEmpty, Grows};
ghost use Rattle.race_order.specs.Marks.{mark_of, IsMarked};
ghost use Rattle.race_order.specs.Sights.{number_in};
ghost use Rattle.race_order.specs.Touch.{touch_of, alike};

use crate::clocks;
use crate::table::Table;
use crate::touches::Touch;
use std::alloc::{AllocError, Global};

/// By the key of a cell or group a clock of the ranks of each task's last entry that touches it: one for those that write
/// or use their rank, one for the others.
#[derive(Drop)]
pub(crate) struct Marks {
    light: Table,
    heavy: Table,
}

/// No touch.
pub(crate) fn no_marks(alloc: Global) -> Marks
    ensures { (t : List ℕ × Bool) → mark_of result t ≡ 0 }
{
    Marks {
        light: Table::new(alloc),
        heavy: Table::new(alloc),
    }
}

/// Whether this clock knows each touch that is in conflict with this one.
pub(crate) fn is_clear(
    marks: &Marks,
    nodes: &[(usize, usize)],
    depth: u32,
    touch: &Touch,
    clock: usize,
) -> bool
    requires trees { (t : List ℕ × Bool) → IsTree nodes.now depth (mark_of marks.now t) }
    requires tree { IsTree nodes.now depth clock }
    requires empty { HasEmpty nodes.now }
    ensures { OnTrue result ((t : List ℕ × Bool) → alike (Some t) (touch_of touch.now) ≡ true → (k : ℕ) → count nodes.now depth (mark_of marks.now t) k ≤ count nodes.now depth clock k) }
{
    let heavy = marks.heavy.get(touch.key.as_slice());
    let light = marks.light.get(touch.key.as_slice());
    let knows_heavy = clocks::is_below(nodes, depth, heavy, clock);
    let knows_light = clocks::is_below(nodes, depth, light, clock);
    knows_heavy && (knows_light || !touch.heavy)
}

/// Keeps a rank of the task of this number at this key.
fn mark_in(
    table: &mut Table,
    nodes: &mut Vec<(usize, usize)>,
    depth: u32,
    key: Vec<usize>,
    number: usize,
    rank: usize,
) -> Result<(), AllocError>
    requires trees { (other : List ℕ) → IsTree nodes.old.items depth (number_in table.old other) }
    requires deep { depth ≤ 64 }
    requires within { number < 2 ^ depth }
    ensures grows { OnOk result (Grows nodes.old.items nodes.new.items) }
    ensures trees { OnOk result ((other : List ℕ) → IsTree nodes.new.items depth (number_in table.new other)) }
    ensures value { OnOk result ((other : List ℕ) (k : ℕ) → k < 2 ^ depth → count nodes.new.items depth (number_in table.new other) k ≡ cond (same_path key.items other) (cond (number == k) rank (count nodes.old.items depth (number_in table.old other) k)) (count nodes.old.items depth (number_in table.old other) k)) }
{
    let root = table.get(key.as_slice());
    let made = clocks::set(nodes, depth, root, number, rank)?;
    table.set(key, made)?;
    Ok(())
}

/// Keeps that an entry of the task of this number, and with this rank there, touches so.
pub(crate) fn mark(
    marks: &mut Marks,
    nodes: &mut Vec<(usize, usize)>,
    depth: u32,
    touch: Touch,
    number: usize,
    rank: usize,
) -> Result<(), AllocError>
    requires trees { (t : List ℕ × Bool) → IsTree nodes.old.items depth (mark_of marks.old t) }
    requires deep { depth ≤ 64 }
    requires within { number < 2 ^ depth }
    ensures { OnOk result (IsMarked number rank depth nodes.old.items nodes.new.items (touch_of touch) marks.old marks.new) }
{
    let Touch { key, heavy } = touch;
    if heavy {
        mark_in(&mut marks.heavy, nodes, depth, key, number, rank)
    } else {
        mark_in(&mut marks.light, nodes, depth, key, number, rank)
    }
}
