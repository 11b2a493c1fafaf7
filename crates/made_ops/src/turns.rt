//! The turns of a loop, by operations.
ghost use Rattle.std.specs.Prelude.{◌≡◌, ◌∷◌, [], IfOk, OnOk};
ghost use Rattle.made_ops.specs.Made as made;
ghost use Rattle.made_ops.specs.Made.{and_then, chooses, closed, constant, counted_turns, inside, turns, yielding, yields};

use crate::insertion::{Insertion, Operand};
use crate::types::one_type;
use ir_forms::{Attr, NumTy, Op, OpKind, Pred, Region, ValueNo};
use lists::Items;
use std::alloc::{AllocError, Global};

impl Insertion {
    /// What is made inside a region, before its first operation.
    pub fn inside(&self, alloc: Global) -> Result<Insertion, AllocError>
        ensures { IfOk result (λ inner. inner ≡ inside self.now) }
    {
        Ok(Insertion {
            ops: Items::new(alloc),
            known: Items::from_slice(alloc, self.known.as_slice())?,
            free: self.free,
            at: self.at,
        })
    }

    /// The region of what was made inside it.
    pub fn close(&mut self, alloc: Global, inner: Insertion) -> Region
        ensures { closed self.old inner ≡ (result, self.new) }
    {
        let Insertion { ops, free, .. } = inner;
        self.free = free;
        Region {
            params: Items::new(alloc),
            ops,
        }
    }

    /// Adds the end of a region that gives a number of this type.
    pub fn end_region(&mut self, alloc: Global, ty: NumTy, value: ValueNo) -> Result<(), AllocError>
        ensures { OnOk result (self.new ≡ yields ty value self.old) }
    {
        let written = one_type(alloc, ty)?;
        self.act(alloc, OpKind::ScfYield, &[value], written, Attr::None)
    }

    /// Adds what gives 0.
    fn yield_none(&mut self, alloc: Global) -> Result<(), AllocError>
        ensures { OnOk result (self.new ≡ and_then (constant NumTy.Index 0) (yields NumTy.Index) self.old) }
    {
        let none = self.constant(alloc, NumTy::Index, 0)?;
        self.end_region(alloc, NumTy::Index, none)
    }

    /// Adds what gives the turns of a loop whose upper bound is above the lower one.
    fn yield_turns(
        &mut self,
        alloc: Global,
        lower: ValueNo,
        upper: ValueNo,
        step: ValueNo,
    ) -> Result<(), AllocError>
        ensures { OnOk result (self.new ≡ and_then (counted_turns lower upper step) (yields NumTy.Index) self.old) }
    {
        let one = Operand::Number(1);
        let between = self.index(
            alloc,
            OpKind::ArithSubi,
            Operand::Value(upper),
            Operand::Value(lower),
        )?;
        let rest = self.index(alloc, OpKind::ArithSubi, Operand::Value(between), one)?;
        let steps = self.index(
            alloc,
            OpKind::ArithDivui,
            Operand::Value(rest),
            Operand::Value(step),
        )?;
        let turns = self.index(alloc, OpKind::ArithAddi, Operand::Value(steps), one)?;
        self.end_region(alloc, NumTy::Index, turns)
    }

    fn index(
        &mut self,
        alloc: Global,
        kind: OpKind,
        left: Operand,
        right: Operand,
    ) -> Result<ValueNo, AllocError>
        ensures { IfOk result (λ value. made.binary kind NumTy.Index left right self.old ≡ (value, self.new)) }
    {
        self.binary(alloc, kind, NumTy::Index, left, right)
    }

    fn no_turns_region(&mut self, alloc: Global) -> Result<Region, AllocError>
        ensures { IfOk result (λ region. yielding NumTy.Index (constant NumTy.Index 0) self.old ≡ (region, self.new)) }
    {
        let mut inner = self.inside(alloc)?;
        inner.yield_none(alloc)?;
        Ok(self.close(alloc, inner))
    }

    fn turns_region(
        &mut self,
        alloc: Global,
        lower: ValueNo,
        upper: ValueNo,
        step: ValueNo,
    ) -> Result<Region, AllocError>
        ensures { IfOk result (λ region. yielding NumTy.Index (counted_turns lower upper step) self.old ≡ (region, self.new)) }
    {
        let mut inner = self.inside(alloc)?;
        inner.yield_turns(alloc, lower, upper, step)?;
        Ok(self.close(alloc, inner))
    }

    /// Adds the choice between two regions that give a number of this type.
    pub fn choose(
        &mut self,
        alloc: Global,
        ty: NumTy,
        condition: ValueNo,
        value: ValueNo,
        first: Region,
        second: Region,
    ) -> Result<(), AllocError>
        ensures { OnOk result (self.new ≡ made.placed (made.made_op OpKind.ScfIf (condition ∷ []) [] (value ∷ []) (made.type_of ty ∷ []) Attr.None (first ∷ second ∷ []) self.old) self.old) }
    {
        let mut regions = Items::new(alloc);
        regions.push(first)?;
        regions.push(second)?;
        let operands = Items::from_slice(alloc, &[condition])?;
        let results = Items::from_slice(alloc, &[value])?;
        let types = one_type(alloc, ty)?;
        self.ops.push(Op {
            kind: OpKind::ScfIf,
            at: self.at,
            operands,
            groups: Items::new(alloc),
            written: Items::new(alloc),
            results,
            types,
            attr: Attr::None,
            regions,
        })
    }

    /// Adds what computes how many turns a loop has. It can't fail where the step isn't 0.
    pub fn turns(
        &mut self,
        alloc: Global,
        lower: ValueNo,
        upper: ValueNo,
        step: ValueNo,
    ) -> Result<ValueNo, AllocError>
        ensures { IfOk result (λ value. made.turns lower upper step self.old ≡ (value, self.new)) }
    {
        let none = self.compare(
            alloc,
            Pred::Sle,
            NumTy::Index,
            Operand::Value(upper),
            Operand::Value(lower),
        )?;
        let value = self.take_value()?;
        let first = self.no_turns_region(alloc)?;
        let second = self.turns_region(alloc, lower, upper, step)?;
        self.choose(alloc, NumTy::Index, none, value, first, second)?;
        Ok(value)
    }
}
