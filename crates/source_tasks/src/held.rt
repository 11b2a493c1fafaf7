//! Values as an activation holds them.
ghost use Rattle.std.specs.Prelude.{◌≡◌, IfOk};
ghost use Rattle.source_meaning.specs.declared.values.Val.TheVariants.{Number};
ghost use Rattle.source_meaning.specs.Values.{number_in, buffer_in, dims_in, element_in, group_in};

use ir_forms::{ElementName, MadeName, copy_element, copy_made};
use source_meaning::{Val, copy_val};
use std::alloc::{AllocError, Global};
use std::marker::Model;
use std::rc::Rc;

/// A value: a number in its place, and what has a name shared with the activations that see it too.
#[derive(Drop)]
pub struct Held {
    bits: u64,
    named: Option<Rc<Val>>,
}

impl Model for Held {
    ghost use Rattle.source_meaning.specs.declared.values.Val.{Val};
    ghost use Rattle.source_meaning.specs.declared.values.Val.TheVariants.{Number};
    ghost use Rattle.source_meaning.specs.Values.{maybe};

    ghost Value = { Val };

    ghost view = { λ h. maybe (Number h.bits) (λ rc. rc.value) h.named };
}

impl Held {
    pub(crate) fn of_number(bits: u64) -> Held
        ensures { result ≡ Number bits }
    {
        Held { bits, named: None }
    }

    pub(crate) fn of(alloc: Global, val: Val) -> Result<Held, AllocError>
        ensures { IfOk result (λ held. held ≡ val) }
    {
        if let Val::Number(bits) = &val {
            return Ok(Held::of_number(*bits));
        }
        let named = Rc::new(alloc, val)?;
        Ok(Held {
            bits: 0,
            named: Some(named),
        })
    }

    /// The same value, which takes no memory.
    pub(crate) fn share(&self) -> Result<Held, AllocError>
        ensures { IfOk result (λ held. held ≡ self.now) }
    {
        match &self.named {
            Some(named) => Ok(Held {
                bits: 0,
                named: Some(named.clone()?),
            }),
            None => Ok(Held::of_number(self.bits)),
        }
    }

    pub(crate) fn copy(&self, alloc: Global) -> Result<Val, AllocError>
        ensures { IfOk result (λ val. val ≡ self.now) }
    {
        match &self.named {
            Some(named) => copy_val(alloc, named.as_ref()),
            None => Ok(Val::Number(self.bits)),
        }
    }

    /// The number; what is no number reads as 0.
    pub(crate) fn number(&self) -> u64
        ensures { result ≡ number_in self.now }
    {
        match &self.named {
            Some(named) => match named.as_ref() {
                Val::Number(bits) => *bits,
                _ => 0,
            },
            None => self.bits,
        }
    }

    /// The buffer; what is no buffer reads as the first argument.
    pub(crate) fn buffer(&self, alloc: Global) -> Result<MadeName, AllocError>
        ensures { IfOk result (λ b. b ≡ buffer_in self.now) }
    {
        if let Some(named) = &self.named {
            if let Val::Memory { buffer, .. } = named.as_ref() {
                return copy_made(alloc, buffer);
            }
        }
        Ok(MadeName::Argument { parameter: 0 })
    }

    /// The sizes of the buffer; what is no buffer has none.
    pub(crate) fn dims(&self) -> &[u32]
        ensures { result.now ≡ dims_in self.now }
    {
        if let Some(named) = &self.named {
            if let Val::Memory { dims, .. } = named.as_ref() {
                return dims.as_slice();
            }
        }
        &[]
    }

    /// The group; what is no group reads as the first argument.
    pub(crate) fn group(&self, alloc: Global) -> Result<MadeName, AllocError>
        ensures { IfOk result (λ g. g ≡ group_in self.now) }
    {
        if let Some(named) = &self.named {
            if let Val::Group(group) = named.as_ref() {
                return copy_made(alloc, group);
            }
        }
        Ok(MadeName::Argument { parameter: 0 })
    }

    /// The token or value of a task, if it is one.
    pub(crate) fn element(&self, alloc: Global) -> Result<Option<ElementName>, AllocError>
        ensures { IfOk result (λ x. x ≡ element_in self.now) }
    {
        if let Some(named) = &self.named {
            if let Val::Element(x) = named.as_ref() {
                return Ok(Some(copy_element(alloc, x)?));
            }
        }
        Ok(None)
    }
}
