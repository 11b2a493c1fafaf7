//! Lists with commas.
ghost use Rattle.std.specs.Prelude.{◌≡◌, ◌++◌, OnOk};
ghost use Rattle.mlir_print.specs.Docs.{Doc, bytes_of, more, commas};
ghost use Rattle.mlir_print.specs.Types.{type_doc};
ghost use Rattle.mlir_print.specs.Tokens.{value};
ghost use Rattle.mlir_print.specs.Forms.{param};

use crate::text::push_text;
use crate::tokens::push_value;
use crate::types::push_type;
use ir_forms::{Ty, ValueNo};
use std::alloc::AllocError;

/// What stands in a list of a text.
pub(crate) trait Print {
    ghost doc: { Self → Doc };

    fn print(&self, text: &mut Vec<u8>) -> Result<(), AllocError>
        ensures { OnOk result (text.new.items ≡ text.old.items ++ bytes_of (doc self.now)) };
}

impl Print for ValueNo {
    ghost doc = { value };

    fn print(&self, text: &mut Vec<u8>) -> Result<(), AllocError> {
        push_value(text, *self)
    }
}

impl Print for Ty {
    ghost doc = { type_doc };

    fn print(&self, text: &mut Vec<u8>) -> Result<(), AllocError> {
        push_type(text, self)
    }
}

impl Print for (ValueNo, Ty) {
    ghost doc = { param };

    fn print(&self, text: &mut Vec<u8>) -> Result<(), AllocError> {
        push_value(text, self.0)?;
        push_text(text, " : ")?;
        push_type(text, &self.1)
    }
}

fn push_more<T: Print>(text: &mut Vec<u8>, items: &[T]) -> Result<(), AllocError>
    ensures { OnOk result (text.new.items ≡ text.old.items ++ bytes_of (more T.doc items.now)) }
{
    for item in items {
        push_text(text, ", ")?;
        item.print(text)?;
    }
    Ok(())
}

/// Adds the elements of a list, with commas between them.
pub(crate) fn push_list<T: Print>(text: &mut Vec<u8>, items: &[T]) -> Result<(), AllocError>
    ensures { OnOk result (text.new.items ≡ text.old.items ++ bytes_of (commas T.doc items.now)) }
{
    match items.split_first() {
        None => Ok(()),
        Some((first, rest)) => {
            first.print(text)?;
            push_more(text, rest)
        }
    }
}
