//! The functions of a module by their names.
ghost use Rattle.std.specs.Prelude.{◌≡◌, IfOk, slice_get};
ghost use Rattle.std.specs.Option.{option_copied};
ghost use Rattle.ir_verify.specs.Places.{called};
ghost use Rattle.ir_verify.specs.Names.{first_named};

use indexmap::IndexMap;
use ir_forms::{Attr, Func};
use std::alloc::{AllocError, Global};
use std::marker::Model;

/// The functions of a module, with the place of the first one of each name.
#[derive(Drop)]
pub struct Names<'a> {
    funcs: &'a [Func],
    places: IndexMap<&'a [u8], usize>,
}

impl<'a> Model for Names<'a> {
    ghost use Rattle.std.specs.Prelude.{List};
    ghost use Rattle.ir_forms.specs.declared.ops.Func.{Func};
    ghost use Rattle.ir_forms.specs.contracts.ops.Func as code;
    ghost use Rattle.std.specs.Coded.{codes};
    ghost use Rattle.ir_verify.specs.Names.{Places};

    ghost Value = { List Func };

    ghost coded = { Prim.hlevel (codes, code.the_row.coded) };

    ghost view = { λ n. n.funcs.now };

    ghost invariant = { λ n. Places n.places n.funcs.now };
}

impl<'a> Names<'a> {
    pub fn new(alloc: Global, funcs: &'a [Func]) -> Result<Names<'a>, AllocError>
        ensures { IfOk result (λ names. names ≡ funcs.now) }
    {
        let mut places = IndexMap::new(alloc);
        for (place, func) in funcs.iter().enumerate() {
            let name = func.name.as_slice();
            if !places.contains_key(name) {
                places.insert(name, place)?;
            }
        }
        Ok(Names { funcs, places })
    }

    /// The place of the first function of this name.
    pub fn find(&self, name: &[u8]) -> Option<usize>
        ensures { result ≡ first_named self.now name.now }
    {
        self.places.get(name).copied()
    }

    /// The function that an operation names by what it carries, if there is one.
    #[tactic(auto, using(crate::proofs::NameLemmas::named_at, crate::proofs::NameLemmas::named_none))]
    pub(crate) fn called(&self, attr: &Attr) -> Option<&'a Func>
        ensures { option_copied result ≡ called self.now attr.now }
    {
        match attr {
            Attr::Callee(name) => match self.find(name.as_slice()) {
                Some(place) => func_at(self.funcs, place),
                None => None,
            },
            _ => None,
        }
    }
}

fn func_at(funcs: &[Func], place: usize) -> Option<&Func>
    ensures { option_copied result ≡ slice_get funcs.now place }
{
    funcs.get(place)
}
