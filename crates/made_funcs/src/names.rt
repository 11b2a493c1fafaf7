//! The names of functions that a pass makes.
ghost use Rattle.std.specs.Prelude.{◌≡◌, length, IfOk, OnOk};
ghost use Rattle.made_funcs.specs.Names.{free_name, made_name};

use ir_forms::Func;
use ir_verify::Names;
use itoa::Buffer;
use std::alloc::{AllocError, Global};
use std::marker::Model;

/// The functions of a module, whose names are taken.
#[derive(Drop)]
pub struct Taken<'a> {
    funcs: &'a [Func],
    names: Names<'a>,
}

impl<'a> Model for Taken<'a> {
    ghost use Rattle.std.specs.Prelude.{◌≡◌, List};
    ghost use Rattle.ir_forms.specs.declared.ops.Func.{Func};
    ghost use Rattle.ir_forms.specs.contracts.ops.Func as code;
    ghost use Rattle.std.specs.Coded.{codes};

    ghost Value = { List Func };

    ghost coded = { Prim.hlevel (codes, code.the_row.coded) };

    ghost view = { λ t. t.funcs.now };

    ghost invariant = { λ t. t.names ≡ t.funcs.now };
}

impl<'a> Taken<'a> {
    pub fn new(alloc: Global, funcs: &'a [Func]) -> Result<Taken<'a>, AllocError>
        ensures { IfOk result (λ taken. taken ≡ funcs.now) }
    {
        let names = Names::new(alloc, funcs)?;
        Ok(Taken { funcs, names })
    }

    /// Puts `_` behind a name until it is free.
    #[tactic(auto, using(crate::proofs::NameLemmas::tried, crate::proofs::NameLemmas::untried))]
    fn make_free(&self, name: &mut Vec<u8>) -> Result<(), AllocError>
        ensures { OnOk result (name.new.items ≡ free_name self.now (length self.now) name.old.items) }
    {
        for _turn in 0..self.funcs.len() {
            if self.names.find(name).is_none() {
                return Ok(());
            }
            name.push(b'_')?;
        }
        Ok(())
    }

    /// The name of a made function: what it begins with, its number, and as many `_` as it takes to be free.
    pub fn made_name(
        &self,
        alloc: Global,
        front: &[u8],
        number: usize,
    ) -> Result<Vec<u8>, AllocError>
        ensures { IfOk result (λ name. name.items ≡ made_name self.now front.now number) }
    {
        let mut buffer = Buffer::new();
        let mut name = Vec::from_slice(alloc, front)?;
        name.extend_from_slice(buffer.format(number).as_bytes())?;
        self.make_free(&mut name)?;
        Ok(name)
    }
}
