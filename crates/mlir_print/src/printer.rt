//! The walk over a module, which counts the operations of the text.
ghost use Rattle.std.specs.Prelude.{◌≡◌, ◌++◌, ◌∷◌, [], OnOk, IfOk, slice_get};
ghost use Rattle.op_table.specs.Rows.{name_of};
ghost use Rattle.ir_forms.specs.Ops.{results_of, kind_of};
ghost use Rattle.mlir_print.specs.Docs.{◌<>◌, Line, bytes_of, deeper, word, parens, commas};
ghost use Rattle.mlir_print.specs.Forms.{param, form};
ghost use Rattle.mlir_print.specs.Printed.{next, number_dict, op_number, func_number, results_doc, block_line, opening, shows_params, is_left_out, func_head, printed_op, printed_region, printed_func, printed_funcs};

use crate::commas::push_list;
use crate::forms::{push_form, push_results_if_any};
use crate::text::push_text;
use crate::tokens::{push_number, push_symbol};
use ir_forms::{Func, Op, OpKind, Region, Ty, ValueNo};
use op_table::row;
use std::alloc::{AllocError, Global};

/// The text so far, and the number of the last operation in it.
#[derive(Drop)]
pub(crate) struct Printer {
    text: Vec<u8>,
    last: u32,
}

/// The indentation of what stands in a region.
fn deeper(alloc: Global, indent: &[u8]) -> Result<Vec<u8>, AllocError>
    ensures { IfOk result (λ inner. inner.items ≡ deeper indent.now) }
{
    let mut inner = Vec::from_slice(alloc, indent)?;
    push_text(&mut inner, "  ")?;
    Ok(inner)
}

fn push_line(text: &mut Vec<u8>, indent: &[u8]) -> Result<(), AllocError>
    ensures { OnOk result (text.new.items ≡ text.old.items ++ bytes_of (Line indent.now)) }
{
    push_text(text, "\n")?;
    text.extend_from_slice(indent)
}

fn push_number_dict(text: &mut Vec<u8>, at: u32) -> Result<(), AllocError>
    ensures { OnOk result (text.new.items ≡ text.old.items ++ bytes_of (number_dict at)) }
{
    push_text(text, "{aio.at = ")?;
    push_number(text, u64::from(at))?;
    push_text(text, " : i64}")
}

/// Adds the number of an operation where it isn't the operation's place.
fn push_op_number(text: &mut Vec<u8>, at: u32, place: u32) -> Result<(), AllocError>
    ensures { OnOk result (text.new.items ≡ text.old.items ++ bytes_of (op_number at place)) }
{
    if at == place {
        return Ok(());
    }
    push_text(text, " ")?;
    push_number_dict(text, at)
}

fn push_func_number(text: &mut Vec<u8>, at: u32, place: u32) -> Result<(), AllocError>
    ensures { OnOk result (text.new.items ≡ text.old.items ++ bytes_of (func_number at place)) }
{
    if at == place {
        return Ok(());
    }
    push_text(text, " attributes ")?;
    push_number_dict(text, at)
}

fn push_results(text: &mut Vec<u8>, results: &[ValueNo]) -> Result<(), AllocError>
    ensures { OnOk result (text.new.items ≡ text.old.items ++ bytes_of (results_doc results.now)) }
{
    if results.is_empty() {
        return Ok(());
    }
    push_list(text, results)?;
    push_text(text, " = ")
}

/// Adds the line that gives a region's parameters their types, where the region shows them and has any.
fn push_block_line(
    text: &mut Vec<u8>,
    shows_params: bool,
    indent: &[u8],
    params: &[(ValueNo, Ty)],
) -> Result<(), AllocError>
    ensures { OnOk result (text.new.items ≡ text.old.items ++ bytes_of (block_line shows_params indent.now params.now)) }
{
    if !shows_params || params.is_empty() {
        return Ok(());
    }
    push_line(text, indent)?;
    push_text(text, "^b")?;
    push_params(text, params)?;
    push_text(text, " :")
}

/// What stands before the region at a place.
fn opening(kind: OpKind, place: usize) -> &'static str
    ensures { result.now ≡ bytes_of (opening kind place) }
{
    match kind {
        OpKind::ScfIf if 0 < place => " else ",
        OpKind::ScfWhile if 0 < place => " do ",
        _ => " ",
    }
}

/// Whether the region at a place shows its own parameters: those of the others stand in the form.
fn shows_params(kind: OpKind, place: usize) -> bool
    ensures { result ≡ shows_params kind place }
{
    kind == OpKind::ScfWhile && 0 < place
}

/// Whether the region at a place is the second one of a conditional without results, and has no operations.
fn is_left_out(kind: OpKind, place: usize, types: &[Ty], ops: &[Op]) -> bool
    ensures { result ≡ is_left_out kind place types.now ops.now }
{
    kind == OpKind::ScfIf && 0 < place && types.is_empty() && ops.is_empty()
}

/// Adds an operation up to its regions.
fn push_head(text: &mut Vec<u8>, op: &Op) -> Result<(), AllocError>
    ensures { OnOk result (text.new.items ≡ text.old.items ++ bytes_of (results_doc (results_of op.now) <> word (name_of (kind_of op.now)) <> form (kind_of op.now) op.now)) }
{
    push_results(text, op.results.as_slice())?;
    push_text(text, row(op.kind).name)?;
    push_form(text, op)
}

/// Adds what stands before a function's body.
fn push_func_head(text: &mut Vec<u8>, func: &Func, place: u32) -> Result<(), AllocError>
    ensures { OnOk result (text.new.items ≡ text.old.items ++ bytes_of (func_head func.now place)) }
{
    push_text(text, "func.func ")?;
    push_symbol(text, func.name.as_slice())?;
    push_params(text, func.params.as_slice())?;
    push_results_if_any(text, func.results.as_slice())?;
    push_func_number(text, func.at, place)?;
    push_text(text, " ")
}

/// Adds parameters in parentheses.
fn push_params(text: &mut Vec<u8>, params: &[(ValueNo, Ty)]) -> Result<(), AllocError>
    ensures { OnOk result (text.new.items ≡ text.old.items ++ bytes_of (parens (commas param params.now))) }
{
    push_text(text, "(")?;
    push_list(text, params)?;
    push_text(text, ")")
}

impl Printer {
    pub(crate) fn new(alloc: Global) -> Printer
        ensures text { result.text.items ≡ [] }
        ensures last { result.last ≡ 0 }
    {
        Printer {
            text: Vec::new(alloc),
            last: 0,
        }
    }

    pub(crate) fn into_text(self) -> Vec<u8>
        ensures { result ≡ self.text }
    {
        self.text
    }

    /// Counts one operation more.
    fn count(&mut self)
        ensures text { self.new.text.items ≡ self.old.text.items }
        ensures last { self.new.last ≡ next self.old.last }
    {
        self.last = self.last.saturating_add(1);
    }

    /// Adds an operation that stands this far in.
    #[cycle(walk)]
    fn push_op(&mut self, alloc: Global, op: &Op, indent: &[u8]) -> Result<(), AllocError>
        ensures text { OnOk result (self.new.text.items ≡ self.old.text.items ++ bytes_of (printed_op op.now indent.now self.old.last).doc) }
        ensures last { OnOk result (self.new.last ≡ (printed_op op.now indent.now self.old.last).last) }
    {
        self.count();
        let number = self.last;
        push_head(&mut self.text, op)?;
        let regions = op.regions.as_slice();
        for (place, region) in regions.iter().enumerate() {
            if is_left_out(op.kind, place, op.types.as_slice(), region.ops.as_slice()) {
                continue;
            }
            push_text(&mut self.text, opening(op.kind, place))?;
            self.push_region(alloc, region, shows_params(op.kind, place), indent)?;
        }
        push_op_number(&mut self.text, op.at, number)
    }

    /// Adds a region in braces, of an operation that stands this far in.
    #[cycle(walk)]
    fn push_region(
        &mut self,
        alloc: Global,
        region: &Region,
        shows_params: bool,
        indent: &[u8],
    ) -> Result<(), AllocError>
        ensures text { OnOk result (self.new.text.items ≡ self.old.text.items ++ bytes_of (printed_region region.now shows_params indent.now self.old.last).doc) }
        ensures last { OnOk result (self.new.last ≡ (printed_region region.now shows_params indent.now self.old.last).last) }
    {
        let inner = deeper(alloc, indent)?;
        push_text(&mut self.text, "{")?;
        push_block_line(
            &mut self.text,
            shows_params,
            inner.as_slice(),
            region.params.as_slice(),
        )?;
        let ops = region.ops.as_slice();
        for op in ops {
            push_line(&mut self.text, inner.as_slice())?;
            self.push_op(alloc, op, inner.as_slice())?;
        }
        push_line(&mut self.text, indent)?;
        push_text(&mut self.text, "}")
    }

    fn push_func(&mut self, alloc: Global, func: &Func) -> Result<(), AllocError>
        ensures text { OnOk result (self.new.text.items ≡ self.old.text.items ++ bytes_of (printed_func func.now self.old.last).doc) }
        ensures last { OnOk result (self.new.last ≡ (printed_func func.now self.old.last).last) }
    {
        self.count();
        push_func_head(&mut self.text, func, self.last)?;
        self.push_region(alloc, &func.body, false, &[])
    }

    /// Adds functions, each with the end of its line.
    pub(crate) fn push_funcs(&mut self, alloc: Global, funcs: &[Func]) -> Result<(), AllocError>
        ensures { OnOk result (self.new.text.items ≡ self.old.text.items ++ bytes_of (printed_funcs funcs.now self.old.last)) }
    {
        for func in funcs {
            self.push_func(alloc, func)?;
            push_text(&mut self.text, "\n")?;
        }
        Ok(())
    }
}
