//! The registers of a frame.
ghost use Rattle.std.specs.Prelude.{◌≡◌, ◌≤◌, ◌<◌, ◌+◌, ◌-◌, ◌^◌, ◌∷◌, vec_len, length, [], true, false, IfOk, IfErr, OnOk, OnErr, ◌↔◌, IsTrue, vec_capacity};
ghost use Rattle.task_stack.specs.Registers.{held, put, bind, values_at, value, number, number_in};
ghost use Rattle.async_objects.specs.declared.kinds.Val.{Val};
ghost use Rattle.task_stack.specs.Room.{room_of};
ghost use Rattle.task_stack.specs.Shared.{CreateRefusal, AddRefusal};
ghost use Rattle.async_objects.specs.Objects.{object_at, is_group, takes_more, added};
ghost use Rattle.async_objects.specs.Counts.{count_at, live, IsThere};
ghost use Rattle.async_objects.specs.Reserved.{grown};
ghost use Rattle.async_objects.specs.Tables.{with_created, with_element};

use async_objects::{AddError, CreateError, Kind, Objects, Val, WokenList};
use ir_forms::ObjNo;
use low_forms::Reg;
use std::alloc::{AllocError, Global};
use std::marker::Model;

/// The registers of a frame, by number. One that was given no value reads as the number 0.
#[derive(Drop)]
pub struct Registers {
    values: Vec<Val>,
}

impl Model for Registers {
    ghost use Rattle.std.specs.Prelude.{List};
    ghost use Rattle.async_objects.specs.declared.kinds.Val.{Val};

    ghost Value = { List Val };

    ghost view = { λ r. r.values.items };
}

impl Registers {
    /// Registers that were given no value, with places for so many.
    pub(crate) fn with_capacity(alloc: Global, room: usize) -> Result<Registers, AllocError>
        ensures { IfOk result (λ regs. regs ≡ []) }
    {
        let values = Vec::with_capacity(alloc, room)?;
        Ok(Registers { values })
    }

    fn get(&self, reg: Reg) -> Val
        ensures { result ≡ held self.now reg.0 }
    {
        match self.values.get(reg.0 as usize) {
            Some(val) => *val,
            None => Val::Number(0),
        }
    }

    /// What one of these registers holds; one that is missing holds the number 0.
    #[tactic(auto, using(crate::proofs::Puts::value_of))]
    pub(crate) fn value(&self, regs: &[Reg], i: usize) -> Val
        ensures { result ≡ value (values_at self.now regs.now) i }
    {
        match regs.get(i) {
            Some(reg) => self.get(*reg),
            None => Val::Number(0),
        }
    }

    /// The number in it; what is no number reads as 0.
    pub(crate) fn number(&self, regs: &[Reg], i: usize) -> u64
        ensures { result ≡ number (values_at self.now regs.now) i }
    {
        number_in(self.value(regs, i))
    }

    /// What all of these registers hold.
    pub(crate) fn values(&self, alloc: Global, regs: &[Reg]) -> Result<Vec<Val>, AllocError>
        ensures { IfOk result (λ vals. vals.items ≡ values_at self.now regs.now) }
    {
        let mut vals = Vec::new(alloc);
        for reg in regs {
            vals.push(self.get(*reg))?;
        }
        Ok(vals)
    }

    /// Has the list hold what all of these registers hold.
    pub(crate) fn read(&self, regs: &[Reg], vals: &mut Vec<Val>) -> Result<(), AllocError>
        ensures { OnOk result (vals.new.items ≡ values_at self.now regs.now) }
    {
        vals.clear();
        for reg in regs {
            vals.push(self.get(*reg))?;
        }
        Ok(())
    }

    /// Gives these registers these values, one after another. Those before one that were given none are then the number
    /// 0. Without memory nothing has changed.
    pub(crate) fn bind(&mut self, regs: &[Reg], vals: &[Val]) -> Result<(), AllocError>
        ensures ok { OnOk result (self.new ≡ bind regs.now vals.now self.old) }
        ensures err { OnErr result (self.new ≡ self.old) }
    {
        reserve_to(&mut self.values, room_of(regs))?;
        put_all(&mut self.values, regs, vals);
        Ok(())
    }

    /// Makes an object and gives it to these registers, or does neither.
    pub(crate) fn bind_created(
        &mut self,
        objects: &mut Objects,
        kind: Kind,
        regs: &[Reg],
    ) -> Result<ObjNo, CreateError>
        requires { length objects.old.objects < 2 ^ 32 - 1 }
        ensures created { IfOk result (λ o. (o.0 ≡ length objects.old.objects) × (live objects.old.counts < objects.old.limit) × (objects.new ≡ with_created kind objects.old) × (self.new ≡ bind regs.now (Val.Object o ∷ []) self.old)) }
        ensures refused { IfErr result (λ why. CreateRefusal why objects.old × (objects.new ≡ objects.old) × (self.new ≡ self.old)) }
    {
        if reserve_to(&mut self.values, room_of(regs)).is_err() {
            return Err(CreateError::OutOfMemory);
        }
        match objects.create(kind) {
            Ok(o) => {
                put_all(&mut self.values, regs, &[Val::Object(o)]);
                Ok(o)
            }
            Err(refusal) => Err(refusal),
        }
    }

    /// Adds an element to a group and gives the number of those before it to these registers, or does neither.
    pub(crate) fn bind_added(
        &mut self,
        objects: &mut Objects,
        element: ObjNo,
        group: ObjNo,
        woken: &mut WokenList,
        regs: &[Reg],
    ) -> Result<u64, AddError>
        requires element { IsThere objects.old.counts element }
        requires single { is_group (object_at objects.old.objects element).kind ≡ false }
        requires group { IsThere objects.old.counts group }
        requires grouped { is_group (object_at objects.old.objects group).kind ≡ true }
        requires count { count_at objects.old.counts group.0 < 2 ^ 64 - 1 }
        requires woken { length (added element group objects.old.objects).tasks ≤ woken.old.room }
        ensures added { IfOk result (λ rank. (rank ≡ (object_at objects.old.objects group).members.added) × (takes_more (object_at objects.old.objects group) ≡ true) × (objects.new ≡ with_element element group objects.old) × (woken.new ≡ grown (added element group objects.old.objects).tasks woken.old) × (self.new ≡ bind regs.now (Val.Number rank ∷ []) self.old)) }
        ensures refused { IfErr result (λ why. AddRefusal why (object_at objects.old.objects group) × (objects.new ≡ objects.old) × (woken.new ≡ woken.old) × (self.new ≡ self.old)) }
    {
        if reserve_to(&mut self.values, room_of(regs)).is_err() {
            return Err(AddError::OutOfMemory);
        }
        match objects.add_to_group(element, group, woken) {
            Ok(rank) => {
                put_all(&mut self.values, regs, &[Val::Number(rank)]);
                Ok(rank)
            }
            Err(refusal) => Err(refusal),
        }
    }

    pub(crate) fn copy(&self, alloc: Global) -> Result<Registers, AllocError>
        ensures { IfOk result (λ copy. copy ≡ self.now) }
    {
        let values = Vec::from_slice(alloc, self.values.as_slice())?;
        Ok(Registers { values })
    }

    /// Whether both hold the same.
    pub(crate) fn same(&self, other: &Registers) -> bool
        ensures { IsTrue result ↔ (self.now ≡ other.now) }
    {
        same_values(self.values.as_slice(), other.values.as_slice())
    }
}

fn number_in(val: Val) -> u64
    ensures { result ≡ number_in val }
{
    match val {
        Val::Number(n) => n,
        _ => 0,
    }
}

/// With so many registers, each of these is there.
fn room_of(regs: &[Reg]) -> usize
    ensures { result ≡ room_of regs.now }
{
    let mut room = 0;
    for reg in regs {
        room = room.max(reg.0 as usize + 1);
    }
    room
}

/// Has places for so many values.
fn reserve_to(values: &mut Vec<Val>, room: usize) -> Result<(), AllocError>
    ensures same { values.new.items ≡ values.old.items }
    ensures room { OnOk result (room ≤ vec_capacity values.new) }
{
    if values.len() < room {
        values.reserve(room - values.len())?;
    }
    Ok(())
}

/// Lengthens the list to this length by numbers 0, which what isn't there reads as anyway.
#[tactic(auto, using(crate::proofs::Puts::put_padded))]
fn pad(values: &mut Vec<Val>, len: usize)
    requires { len ≤ vec_capacity values.old }
    ensures same { (v : Val) → put values.new.items len v ≡ put values.old.items len v }
    ensures long { len ≤ vec_len values.new }
    ensures capacity { vec_capacity values.new ≡ vec_capacity values.old }
{
    while values.len() < len {
        values.push_reserved(Val::Number(0));
    }
}

/// Gives a register a value, within the places that there are.
#[tactic(auto, using(crate::proofs::Puts::put_within, crate::proofs::Puts::put_last))]
fn put(values: &mut Vec<Val>, at: usize, val: Val)
    requires { at + 1 ≤ vec_capacity values.old }
    ensures value { values.new.items ≡ put values.old.items at val }
    ensures capacity { vec_capacity values.new ≡ vec_capacity values.old }
{
    pad(values, at);
    if at < values.len() {
        values[at] = val;
    } else {
        values.push_reserved(val);
    }
}

/// Gives these registers these values, within the places that there are.
#[tactic(auto, using(crate::proofs::Puts::room_at, crate::proofs::Puts::bind_end))]
fn put_all(values: &mut Vec<Val>, regs: &[Reg], vals: &[Val])
    requires { room_of regs.now ≤ vec_capacity values.old }
    ensures { values.new.items ≡ bind regs.now vals.now values.old.items }
{
    for i in 0..regs.len().min(vals.len()) {
        put(values, regs[i].0 as usize, vals[i]);
    }
}

fn same_value(left: Val, right: Val) -> bool
    ensures { IsTrue result ↔ (left ≡ right) }
{
    left == right
}

fn same_values(left: &[Val], right: &[Val]) -> bool
    ensures { IsTrue result ↔ (left.now ≡ right.now) }
{
    if left.len() != right.len() {
        return false;
    }
    for i in 0..left.len() {
        if !same_value(left[i], right[i]) {
            return false;
        }
    }
    true
}
