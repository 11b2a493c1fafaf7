//! The messages of a module's operations, kept beside the module.
ghost use Rattle.std.specs.Prelude.{◌≡◌, ◌++◌, IfOk, OnOk};
ghost use Rattle.ir_forms.specs.Ops.{kind_of, attr_of};
ghost use Rattle.run_report.specs.Messages.{number_of};
ghost use Rattle.run_report.specs.Notes.{own_note, notes_at, notes_in, notes_in_funcs, notes_of, message_of};

use crate::messages::message;
use ir_forms::{Func, Module, Op, Region};
use lists::Items;
use std::alloc::{AllocError, Global};
use std::marker::Model;

/// The number of an operation, with its message.
#[derive(Drop)]
pub struct Note {
    pub op: u32,
    pub text: Items<u8>,
}

/// The messages of a module's operations. Contracts see the list of them, in the order of the text.
#[derive(Drop)]
pub struct Notes {
    notes: Items<Note>,
}

impl Model for Notes {
    ghost use Rattle.std.specs.Prelude.{List};
    ghost use Rattle.run_report.specs.declared.note_list.Note.{Note};

    ghost Value = { List Note };

    ghost view = { λ n. n.notes };
}

impl Notes {
    /// The messages of a module's operations. Of several operations with one number the first that has a message counts.
    ///
    /// # Errors
    ///
    /// Where memory runs out.
    pub fn of(alloc: Global, program: &Module) -> Result<Notes, AllocError>
        ensures { IfOk result (λ notes. notes ≡ notes_of program.now) }
    {
        let mut notes = Items::new(alloc);
        push_funcs(alloc, &mut notes, program.funcs.as_slice())?;
        Ok(Notes { notes })
    }

    /// The message of the operation of this number; empty where it has none.
    pub fn message(&self, op: u32) -> &[u8]
        ensures { result.now ≡ message_of self.now op }
    {
        for note in self.notes.as_slice() {
            if note.op == op {
                return note.text.as_slice();
            }
        }
        b""
    }
}

fn push_funcs(alloc: Global, notes: &mut Items<Note>, funcs: &[Func]) -> Result<(), AllocError>
    ensures { OnOk result (notes.new ≡ notes.old ++ notes_in_funcs funcs.now) }
{
    for func in funcs {
        push_inside(alloc, notes, &func.body)?;
    }
    Ok(())
}

/// Adds the messages of a region's operations.
#[cycle(note_list)]
#[tactic(auto, using(crate::proofs::NoteLemmas::notes_in_out))]
fn push_inside(alloc: Global, notes: &mut Items<Note>, region: &Region) -> Result<(), AllocError>
    ensures { OnOk result (notes.new ≡ notes.old ++ notes_in region.now) }
{
    for op in region.ops.as_slice() {
        push_at(alloc, notes, op)?;
    }
    Ok(())
}

/// Adds the operation's own message, and those in its regions.
#[cycle(note_list)]
#[tactic(auto, using(crate::proofs::NoteLemmas::notes_at_out))]
fn push_at(alloc: Global, notes: &mut Items<Note>, op: &Op) -> Result<(), AllocError>
    ensures { OnOk result (notes.new ≡ notes.old ++ notes_at op.now) }
{
    push_own(alloc, notes, op)?;
    for region in op.regions.as_slice() {
        push_inside(alloc, notes, region)?;
    }
    Ok(())
}

fn push_own(alloc: Global, notes: &mut Items<Note>, op: &Op) -> Result<(), AllocError>
    ensures { OnOk result (notes.new ≡ notes.old ++ own_note (number_of op.now) (kind_of op.now) (attr_of op.now)) }
{
    let Some(text) = message(op.kind, &op.attr) else {
        return Ok(());
    };
    let text = Items::from_slice(alloc, text)?;
    notes.push(Note { op: op.at, text })
}
