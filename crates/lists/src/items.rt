//! Growing lists.
ghost use Rattle.std.specs.Prelude.{◌≡◌, ◌<◌, ◌++◌, ◌∷◌, [], take, length, slice_get, slice_set, ◌↔◌, IsTrue, IfOk, MatchOption, OnOk, OnErr, OnSome};
ghost use Rattle.std.specs.Option.{option_copied};
ghost use Rattle.std.specs.Cmp.Lexicographic.{pointwise, lists_per};
ghost use Rattle.std.specs.List.{AllZip};
ghost use Rattle.std.specs.Borrow.{Lends, Array, sem};
ghost use Rattle.lists.specs.contracts.items.Items.{the_row};
ghost use Rattle.lists.specs.Refill.{refilled};

use std::alloc::{AllocError, AllocFailed, Global};
use std::marker::Model;

/// A growing list. Contracts see it as the list of its elements, so capacity and place stay out of
/// every theorem.
#[derive(Drop)]
pub struct Items<T> {
    elements: Vec<T>,
}

impl<T> Model for Items<T> {
    ghost use Rattle.std.specs.Prelude.{List};
    ghost use Rattle.std.specs.Coded.{coded_list};

    ghost Value = { List T };

    ghost coded = { coded_list T.code };

    ghost view = { λ list. list.elements.items };
}

impl<T> Items<T> {
    /// The empty list, which takes no memory.
    pub fn new(alloc: Global) -> Items<T>
        ensures { result ≡ [] }
    {
        Items {
            elements: Vec::new(alloc),
        }
    }

    pub fn from_vec(elements: Vec<T>) -> Items<T>
        ensures { result ≡ elements.items }
    {
        Items { elements }
    }

    pub fn into_vec(self) -> Vec<T>
        ensures { result.items ≡ self }
    {
        let Items { elements } = self;
        elements
    }

    pub fn as_slice(&self) -> &[T]
        ensures { result.now ≡ self.now }
    {
        self.elements.as_slice()
    }

    /// Lends the elements, to be changed in place.
    pub fn as_mut_slice(&mut self) -> &mut [T]
        ensures* writes_back { sem 𝓛 (Lends (the_row T.row) (Array T.row 0) self.entry result (refilled self.old)) }
        ensures value { result.now ≡ self.old }
    {
        self.elements.as_mut_slice()
    }

    pub fn len(&self) -> usize
        ensures { result ≡ length self.now }
    {
        self.elements.len()
    }

    pub fn is_empty(&self) -> bool
        ensures { IsTrue result ↔ (self.now ≡ []) }
    {
        self.elements.is_empty()
    }

    pub fn get(&self, at: usize) -> Option<&T>
        ensures value { option_copied result ≡ slice_get self.now at }
        ensures within { OnSome result (at < length self.now) }
    {
        self.elements.get(at)
    }

    /// Takes the last element off.
    pub fn pop(&mut self) -> Option<T>
        ensures { MatchOption result ((self.old ≡ []) × (self.new ≡ [])) (λ last. self.old ≡ self.new ++ last ∷ []) }
    {
        self.elements.pop()
    }
}

impl<T: Drop> Items<T> {
    /// Adds an element at the end. Without memory the list stays as it was, and the element is dropped.
    pub fn push(&mut self, element: T) -> Result<(), AllocError>
        ensures ok { OnOk result (self.new ≡ self.old ++ element ∷ []) }
        ensures err { OnErr result (self.new ≡ self.old) }
    {
        self.elements.push(element)?;
        Ok(())
    }

    /// Moves the elements of another list behind these. Without memory this list stays as it was, and the other is dropped.
    pub fn append(&mut self, more: Items<T>) -> Result<(), AllocError>
        ensures ok { OnOk result (self.new ≡ self.old ++ more) }
        ensures err { OnErr result (self.new ≡ self.old) }
    {
        let Items { mut elements } = more;
        self.elements.append(&mut elements)
    }

    /// Keeps the first elements, as many as this or all.
    pub fn truncate(&mut self, len: usize)
        ensures { self.new ≡ take len self.old }
    {
        self.elements.truncate(len);
    }

    pub fn set(&mut self, at: usize, element: T)
        requires { at < length self.old }
        ensures { self.new ≡ slice_set self.old at element }
    {
        self.elements[at] = element;
    }
}

impl<T: Copy> Items<T> {
    pub fn from_slice(alloc: Global, elements: &[T]) -> Result<Items<T>, AllocError>
        ensures { IfOk result (λ list. list ≡ elements.now) }
    {
        let elements = Vec::from_slice(alloc, elements)?;
        Ok(Items { elements })
    }
}

impl<T: PartialEq> PartialEq for Items<T> {
    ghost eq = { λ x y. pointwise T.eq x y };

    ghost laws = { lists_per T.laws };

    fn eq(&self, other: &Self) -> bool {
        self.elements == other.elements
    }
}

impl<T: Clone> Clone for Items<T> {
    ghost is_clone = { λ x y. AllZip T.is_clone x y };

    fn clone(&self) -> Result<Items<T>, AllocError> {
        let elements = self.elements.clone()?;
        Ok(Items { elements })
    }
}
