//! Lists that reserve no room that they don't need.
ghost use Rattle.std.specs.Prelude.{◌≡◌, ◌++◌, ◌∷◌, [], IfOk, OnOk};

use lists::Items;
use std::alloc::{AllocError, Global};

/// A list of one element.
fn one<T: Drop>(alloc: Global, element: T) -> Result<Items<T>, AllocError>
    ensures { IfOk result (λ list. list ≡ element ∷ []) }
{
    let mut list = Vec::with_capacity(alloc, 1)?;
    list.push(element)?;
    Ok(Items::from_vec(list))
}

/// Adds an element at the end. An empty list gets room for this one alone.
pub fn add<T: Drop>(alloc: Global, list: &mut Items<T>, element: T) -> Result<(), AllocError>
    ensures { OnOk result (list.new ≡ list.old ++ element ∷ []) }
{
    if list.is_empty() {
        *list = one(alloc, element)?;
        Ok(())
    } else {
        list.push(element)
    }
}

/// Moves the elements of another list behind these. An empty list becomes the other.
pub fn join<T: Drop>(list: &mut Items<T>, more: Items<T>) -> Result<(), AllocError>
    ensures { OnOk result (list.new ≡ list.old ++ more) }
{
    if list.is_empty() {
        *list = more;
        Ok(())
    } else {
        list.append(more)
    }
}
