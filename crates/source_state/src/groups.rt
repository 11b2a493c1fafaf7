//! Groups by their names.
ghost use Rattle.std.specs.Prelude.{◌≡◌, cond, OnOk};
ghost use Rattle.std.specs.Option.{option_map};
ghost use Rattle.ir_forms.specs.Names.{same_made};
ghost use Rattle.ir_forms.specs.declared.names.MadeName.{MadeName};
ghost use Rattle.source_state.specs.Seen.{made_of, group_of, more};

use crate::names::Name;
use ir_forms::ElementName;
use lists::Items;
use std::alloc::AllocError;
use std::collections::BTreeMap;

/// A group: its size, and its elements in the order in which they were added.
#[derive(Drop)]
pub(crate) struct Group {
    pub(crate) size: u32,
    pub(crate) members: Items<ElementName>,
}

/// How many elements a group has, and how many it is to have.
#[derive(Clone, Copy)]
pub struct Fill {
    pub added: u64,
    pub size: u64,
}

/// Adds an element to a group, if it is there.
pub(crate) fn add_member(
    groups: &mut BTreeMap<Name, Group>,
    name: &Name,
    element: ElementName,
) -> Result<(), AllocError>
    ensures { OnOk result ((g : MadeName) → group_of groups.new.entries g ≡ cond (same_made (made_of name.now) g) (option_map (more element) (group_of groups.old.entries g)) (group_of groups.old.entries g)) }
{
    match groups.get_mut(name) {
        Some(group) => group.members.push(element),
        None => Ok(()),
    }
}
