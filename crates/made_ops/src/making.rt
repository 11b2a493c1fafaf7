//! What extends an insertion.
ghost use Rattle.std.specs.Prelude.{◌≡◌, ◌+◌, ◌∷◌, [], IfOk, OnOk};
ghost use Rattle.made_ops.specs.Made as made;
ghost use Rattle.made_ops.specs.Made.{acts, asserts, begun, binary, compare, constant, dimension, found, found_or_new, gives, next_value, operand, type_of, new_constant};

use crate::insertion::{Insertion, Known, Operand};
use crate::types::{literal, one_type, same_number, two_types};
use ir_forms::{Attr, MemTy, NumTy, Op, OpKind, Pred, Ty, ValueNo, Width, copy_memref};
use lists::Items;
use std::alloc::{AllocError, Global};

impl Insertion {
    /// The insertion before its first operation, for the operation of this number, whose values are numbered from here on.
    pub fn begin(alloc: Global, at: u32, free: u32) -> Insertion
        ensures { result ≡ begun at free }
    {
        Insertion {
            ops: Items::new(alloc),
            known: Items::new(alloc),
            free,
            at,
        }
    }

    /// Takes the next value. Numbers past 2^32 are want of memory.
    pub fn take_value(&mut self) -> Result<ValueNo, AllocError>
        ensures { IfOk result (λ value. (value ≡ next_value self.old) × (self.new ≡ record self.old { free = self.old.free + 1 })) }
    {
        let value = ValueNo(self.free);
        self.free = self.free.checked_add(1).ok_or(AllocError)?;
        Ok(value)
    }

    /// Adds an operation without a result.
    pub(crate) fn act(
        &mut self,
        alloc: Global,
        kind: OpKind,
        operands: &[ValueNo],
        written: Items<Ty>,
        attr: Attr,
    ) -> Result<(), AllocError>
        ensures { OnOk result (self.new ≡ acts kind operands.now written attr self.old) }
    {
        let operands = Items::from_slice(alloc, operands)?;
        self.ops.push(Op {
            kind,
            at: self.at,
            operands,
            groups: Items::new(alloc),
            written,
            results: Items::new(alloc),
            types: Items::new(alloc),
            attr,
            regions: Items::new(alloc),
        })
    }

    /// Adds an operation with a result of this type.
    pub(crate) fn give(
        &mut self,
        alloc: Global,
        kind: OpKind,
        operands: &[ValueNo],
        written: Items<Ty>,
        ty: NumTy,
        attr: Attr,
    ) -> Result<ValueNo, AllocError>
        ensures { IfOk result (λ value. gives kind operands.now written (type_of ty) attr self.old ≡ (value, self.new)) }
    {
        let operands = Items::from_slice(alloc, operands)?;
        let types = one_type(alloc, ty)?;
        let value = self.take_value()?;
        let results = Items::from_slice(alloc, &[value])?;
        self.ops.push(Op {
            kind,
            at: self.at,
            operands,
            groups: Items::new(alloc),
            written,
            results,
            types,
            attr,
            regions: Items::new(alloc),
        })?;
        Ok(value)
    }

    fn find(&self, ty: NumTy, bits: u64) -> Option<ValueNo>
        ensures { result ≡ found ty bits self.now.known }
    {
        for known in self.known.as_slice() {
            if same_number(known.ty, ty) && known.bits == bits {
                return Some(known.value);
            }
        }
        None
    }

    fn new_constant(&mut self, alloc: Global, ty: NumTy, bits: u64) -> Result<ValueNo, AllocError>
        ensures { IfOk result (λ value. new_constant ty bits self.old ≡ (value, self.new)) }
    {
        let written = Items::new(alloc);
        let value = self.give(
            alloc,
            OpKind::ArithConstant,
            &[],
            written,
            ty,
            literal(ty, bits),
        )?;
        self.known.push(Known { ty, bits, value })?;
        Ok(value)
    }

    /// The constant of this type and these bits, one for all its uses: it is made where none is known.
    pub fn constant(&mut self, alloc: Global, ty: NumTy, bits: u64) -> Result<ValueNo, AllocError>
        ensures { IfOk result (λ value. constant ty bits self.old ≡ (value, self.new)) }
    {
        match self.find(ty, bits) {
            Some(value) => Ok(value),
            None => self.new_constant(alloc, ty, bits),
        }
    }

    /// The value that an operation reads.
    pub fn operand(
        &mut self,
        alloc: Global,
        ty: NumTy,
        operand: Operand,
    ) -> Result<ValueNo, AllocError>
        ensures { IfOk result (λ value. made.operand ty operand self.old ≡ (value, self.new)) }
    {
        match operand {
            Operand::Value(value) => Ok(value),
            Operand::Number(bits) => self.constant(alloc, ty, bits),
        }
    }

    /// Adds an operation on two numbers of the type.
    pub fn binary(
        &mut self,
        alloc: Global,
        kind: OpKind,
        ty: NumTy,
        left: Operand,
        right: Operand,
    ) -> Result<ValueNo, AllocError>
        ensures { IfOk result (λ value. binary kind ty left right self.old ≡ (value, self.new)) }
    {
        let left = self.operand(alloc, ty, left)?;
        let right = self.operand(alloc, ty, right)?;
        let written = two_types(alloc, ty)?;
        self.give(alloc, kind, &[left, right], written, ty, Attr::None)
    }

    /// Adds a comparison of two numbers of the type.
    pub fn compare(
        &mut self,
        alloc: Global,
        pred: Pred,
        ty: NumTy,
        left: Operand,
        right: Operand,
    ) -> Result<ValueNo, AllocError>
        ensures { IfOk result (λ value. compare pred ty left right self.old ≡ (value, self.new)) }
    {
        let left = self.operand(alloc, ty, left)?;
        let right = self.operand(alloc, ty, right)?;
        let written = two_types(alloc, ty)?;
        self.give(
            alloc,
            OpKind::ArithCmpi,
            &[left, right],
            written,
            NumTy::Int(Width::W1),
            Attr::Pred(pred),
        )
    }

    /// Adds the size of a buffer's dimension.
    pub fn dimension(
        &mut self,
        alloc: Global,
        memref: &MemTy,
        buffer: ValueNo,
        dimension: u64,
    ) -> Result<ValueNo, AllocError>
        ensures { IfOk result (λ value. made.dimension memref.now buffer dimension self.old ≡ (value, self.new)) }
    {
        let dimension = self.constant(alloc, NumTy::Index, dimension)?;
        let mut written = Items::new(alloc);
        written.push(Ty::Memref(copy_memref(alloc, memref)?))?;
        self.give(
            alloc,
            OpKind::MemrefDim,
            &[buffer, dimension],
            written,
            NumTy::Index,
            Attr::None,
        )
    }

    /// Adds an assertion.
    pub fn assert(
        &mut self,
        alloc: Global,
        text: &[u8],
        condition: ValueNo,
    ) -> Result<(), AllocError>
        ensures { OnOk result (self.new ≡ asserts text.now condition self.old) }
    {
        let text = Items::from_slice(alloc, text)?;
        let written = Items::new(alloc);
        self.act(
            alloc,
            OpKind::CfAssert,
            &[condition],
            written,
            Attr::Text(text),
        )
    }
}
