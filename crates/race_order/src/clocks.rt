//! Clocks: of each number a count. A clock is the root of a tree of pairs, and clocks share the parts that they have in
//! common: one that differs from another at few numbers takes few nodes more.
ghost use Rattle.std.specs.Prelude.{◌≡◌, ◌<◌, ◌≤◌, ◌^◌, ◌==◌, ℕ, max, cond, IfOk, length, get_or};
ghost use Rattle.std.specs.Bool.{OnTrue};
ghost use Rattle.race_order.specs.Clocks.{count, IsTree, HasEmpty, Grows, IsPlaced};

use std::alloc::AllocError;

/// The two parts of a node.
fn parts(nodes: &[(usize, usize)], root: usize) -> (usize, usize)
    requires { root < length nodes.now }
    ensures { result ≡ get_or nodes.now root (0, 0) }
{
    nodes[root]
}

/// The count of this number.
pub(crate) fn get(nodes: &[(usize, usize)], depth: u32, root: usize, key: usize) -> usize
    requires tree { IsTree nodes.now depth root }
    requires deep { depth ≤ 64 }
    ensures { result ≡ count nodes.now depth root key }
{
    if depth == 0 {
        return root;
    }
    let (left, right) = parts(nodes, root);
    let half = 2usize.pow(depth - 1);
    if key < half {
        get(nodes, depth - 1, left, key)
    } else {
        get(nodes, depth - 1, right, key - half)
    }
}

/// A node of these two parts: one of two that are there, where it has them, else a new one.
fn place(
    nodes: &mut Vec<(usize, usize)>,
    first: usize,
    second: usize,
    left: usize,
    right: usize,
) -> Result<usize, AllocError>
    requires first { first < length nodes.old.items }
    requires second { second < length nodes.old.items }
    ensures { IfOk result (λ made. IsPlaced nodes.old.items nodes.new.items (left, right) made) }
{
    let (first_left, first_right) = parts(nodes, first);
    if first_left == left && first_right == right {
        return Ok(first);
    }
    let (second_left, second_right) = parts(nodes, second);
    if second_left == left && second_right == right {
        return Ok(second);
    }
    let made = nodes.len();
    nodes.push((left, right))?;
    Ok(made)
}

/// The clock with another count at this number.
pub(crate) fn set(
    nodes: &mut Vec<(usize, usize)>,
    depth: u32,
    root: usize,
    key: usize,
    number: usize,
) -> Result<usize, AllocError>
    requires tree { IsTree nodes.old.items depth root }
    requires deep { depth ≤ 64 }
    requires within { key < 2 ^ depth }
    ensures tree { IfOk result (λ made. Grows nodes.old.items nodes.new.items × IsTree nodes.new.items depth made) }
    ensures value { IfOk result (λ made. (other : ℕ) → other < 2 ^ depth → count nodes.new.items depth made other ≡ cond (key == other) number (count nodes.old.items depth root other)) }
{
    if depth == 0 {
        return Ok(number);
    }
    let (left, right) = parts(nodes, root);
    let half = 2usize.pow(depth - 1);
    if key < half {
        let made = set(nodes, depth - 1, left, key, number)?;
        place(nodes, root, root, made, right)
    } else {
        let made = set(nodes, depth - 1, right, key - half, number)?;
        place(nodes, root, root, left, made)
    }
}

/// The clock with the greater count at each number.
pub(crate) fn join(
    nodes: &mut Vec<(usize, usize)>,
    depth: u32,
    first: usize,
    second: usize,
) -> Result<usize, AllocError>
    requires first_tree { IsTree nodes.old.items depth first }
    requires second_tree { IsTree nodes.old.items depth second }
    requires empty { HasEmpty nodes.old.items }
    ensures tree { IfOk result (λ made. Grows nodes.old.items nodes.new.items × IsTree nodes.new.items depth made) }
    ensures value { IfOk result (λ made. (key : ℕ) → count nodes.new.items depth made key ≡ max (count nodes.old.items depth first key) (count nodes.old.items depth second key)) }
{
    if first == second {
        return Ok(first);
    }
    if second == 0 {
        return Ok(first);
    }
    if depth == 0 {
        return Ok(first.max(second));
    }
    let (left, right) = parts(nodes, first);
    let (other_left, other_right) = parts(nodes, second);
    let made_left = join(nodes, depth - 1, left, other_left)?;
    let made_right = join(nodes, depth - 1, right, other_right)?;
    place(nodes, first, second, made_left, made_right)
}

/// Whether no count is greater than the other clock's. Where it answers no, some may be.
pub(crate) fn is_below(nodes: &[(usize, usize)], depth: u32, first: usize, second: usize) -> bool
    requires first_tree { IsTree nodes.now depth first }
    requires second_tree { IsTree nodes.now depth second }
    requires empty { HasEmpty nodes.now }
    ensures { OnTrue result ((key : ℕ) → count nodes.now depth first key ≤ count nodes.now depth second key) }
{
    if first == second {
        return true;
    }
    if first == 0 {
        return true;
    }
    if depth == 0 {
        return first <= second;
    }
    let (left, right) = parts(nodes, first);
    let (other_left, other_right) = parts(nodes, second);
    is_below(nodes, depth - 1, left, other_left) && is_below(nodes, depth - 1, right, other_right)
}
