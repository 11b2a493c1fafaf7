//! The values that names mean.
ghost use Rattle.std.specs.Prelude.{◌≡◌, ◌++◌, IfOk, OnOk, slice_get, bytes_eq};
ghost use Rattle.std.specs.List.{find};
ghost use Rattle.std.specs.Option.{option_copied};
ghost use Rattle.module_grammar.specs.State.{first_of, part_of, resolved, resolved_at, is_named, counted_from, values_of_name, values_of, with_names, count_of};

use crate::plain::counting::{number_up, up};
use crate::state::Name;
use ir_forms::ValueNo;
use lists::Items;
use name_lists::NameList;
use std::alloc::{AllocError, Global};

impl<'a> Name<'a> {
    /// The value of the name without `#`.
    fn first_value(&self) -> ValueNo
        ensures { result ≡ first_of self.now self.now.count }
    {
        match self.count {
            Some(0) => ValueNo::UNKNOWN,
            _ => ValueNo(self.first),
        }
    }

    /// The value of the name with `#at`, where `at` is none if it isn't below 2^64.
    fn part(&self, at: Option<u64>) -> ValueNo
        ensures { result ≡ part_of self.now self.now.count at }
    {
        match (self.count, at) {
            (Some(count), Some(at)) if at < count => ValueNo(number_up(self.first, at)),
            _ => ValueNo::UNKNOWN,
        }
    }

    /// How many values the name has.
    pub(crate) fn values(&self) -> u64
        ensures { result ≡ count_of self.now.count }
    {
        self.count.unwrap_or(1)
    }
}

/// The first of the names that is this one.
#[tactic(auto, using(crate::proofs::Named::found_at, crate::proofs::Named::found_none))]
fn found<'n, 'a>(names: &'n NameList<Name<'a>>, text: &[u8]) -> Option<&'n Name<'a>>
    ensures { option_copied result ≡ find (λ n. bytes_eq n.text text.now) names.now }
{
    match names.first(text) {
        Some(place) => name_at(names.as_slice(), place),
        None => None,
    }
}

fn name_at<'n, 'a>(names: &'n [Name<'a>], place: usize) -> Option<&'n Name<'a>>
    ensures { option_copied result ≡ slice_get names.now place }
{
    names.get(place)
}

/// The value that a use of a name means.
#[tactic(auto, using(crate::proofs::Named::resolved_found, crate::proofs::Named::resolved_none))]
pub fn resolve(names: &NameList<Name>, text: &[u8]) -> ValueNo
    ensures { result ≡ resolved names.now text.now }
{
    match found(names, text) {
        Some(name) => name.first_value(),
        None => ValueNo::UNKNOWN,
    }
}

/// The value that a use of a name with `#at` means.
#[tactic(auto, using(crate::proofs::Named::resolved_at_found, crate::proofs::Named::resolved_at_none))]
pub fn resolve_at(names: &NameList<Name>, text: &[u8], at: Option<u64>) -> ValueNo
    ensures { result ≡ resolved_at names.now text.now at }
{
    match found(names, text) {
        Some(name) => name.part(at),
        None => ValueNo::UNKNOWN,
    }
}

/// Whether one of the names is this one.
#[tactic(auto, using(crate::proofs::Named::named_first))]
pub fn is_named(names: &NameList<Name>, text: &[u8]) -> bool
    ensures { result ≡ is_named names.now text.now }
{
    names.first(text).is_some()
}

/// The count with these names.
pub fn with_names(counted: u64, names: &[Name]) -> u64
    ensures { result ≡ with_names counted names.now }
{
    let mut total = counted;
    for name in names {
        total = up(total, name.values());
    }
    total
}

/// Adds the values of a name to others.
fn add_values(values: &mut Items<ValueNo>, name: &Name) -> Result<(), AllocError>
    ensures { OnOk result (values.new ≡ values.old ++ values_of_name name.now name.now.count) }
{
    let mut number = name.first;
    for _ in 0..name.values() {
        values.push(ValueNo(number))?;
        number = number_up(number, 1);
    }
    Ok(())
}

/// The values of these names, in order.
pub fn values_of(alloc: Global, names: &[Name]) -> Result<Items<ValueNo>, AllocError>
    ensures { IfOk result (λ values. values ≡ values_of names.now) }
{
    let mut values = Items::new(alloc);
    for name in names {
        add_values(&mut values, name)?;
    }
    Ok(values)
}
