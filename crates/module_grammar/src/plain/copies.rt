//! Copies of lists of types, names and tokens.
ghost use Rattle.std.specs.Prelude.{◌≡◌, ◌++◌, IfOk, OnOk};
ghost use Rattle.module_grammar.specs.State.{name_at};

use crate::state::{Name, TextToken};
use ir_forms::{Ty, copy_type};
use lists::Items;
use std::alloc::{AllocError, Global};

/// Adds copies of the types at the end.
fn push_copies(alloc: Global, copies: &mut Vec<Ty>, types: &[Ty]) -> Result<(), AllocError>
    ensures { OnOk result (copies.new.items ≡ copies.old.items ++ types.now) }
{
    for ty in types {
        copies.push(copy_type(alloc, ty)?)?;
    }
    Ok(())
}

/// Copies of the types, and of them once more.
pub fn copied_twice(alloc: Global, types: &[Ty]) -> Result<Items<Ty>, AllocError>
    ensures { IfOk result (λ copies. copies ≡ types.now ++ types.now) }
{
    let mut copies = Vec::with_capacity(alloc, types.len().saturating_mul(2))?;
    push_copies(alloc, &mut copies, types)?;
    push_copies(alloc, &mut copies, types)?;
    Ok(Items::from_vec(copies))
}

impl<'a> TextToken<'a> {
    pub fn copy(&self) -> TextToken<'a>
        ensures { result ≡ self.now }
    {
        TextToken {
            kind: self.kind,
            text: self.text.copy(),
            at: self.at,
            joined: self.joined,
        }
    }

    /// The name that the token defines, of one value.
    pub fn name(&self, first: u32) -> Name<'a>
        ensures { result ≡ name_at self.now first }
    {
        Name {
            text: self.text.copy(),
            at: self.at,
            first,
            count: None,
        }
    }
}

impl<'a> Name<'a> {
    pub fn copy(&self) -> Name<'a>
        ensures { result ≡ self.now }
    {
        Name {
            text: self.text.copy(),
            at: self.at,
            first: self.first,
            count: self.count,
        }
    }
}
