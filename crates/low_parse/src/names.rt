//! The names and the types of what functions define, in the order of the text. No name is copied.
ghost use Rattle.std.specs.Prelude.{◌≡◌, ◌++◌, ◌∷◌, [], map, IfOk, OnOk};
ghost use Rattle.ir_forms.specs.Numbers.{joined};
ghost use Rattle.low_names.specs.Numbers as spec;

use ir_forms::{Ty, copy_type};
use lists::Items;
use low_grammar::{NameText, NamedBlock, NamedFunc, NamedInstr, NamedParam};
use module_grammar::Bytes;
use name_lists::NameList;
use std::alloc::{AllocError, Global};

/// Adds a name at the end.
fn add_name<'n>(
    alloc: Global,
    names: &mut NameList<NameText<'n>>,
    name: &'n Items<u8>,
) -> Result<(), AllocError>
    ensures { OnOk result (names.new ≡ names.old ++ name.now ∷ []) }
{
    names.push(alloc, NameText::new(Bytes::new(name.as_slice())))
}

fn add_params<'n>(
    alloc: Global,
    names: &mut NameList<NameText<'n>>,
    params: &'n [NamedParam],
) -> Result<(), AllocError>
    ensures { OnOk result (names.new ≡ names.old ++ spec.param_names params.now) }
{
    for param in params {
        add_name(alloc, names, &param.name)?;
    }
    Ok(())
}

fn add_results<'n>(
    alloc: Global,
    names: &mut NameList<NameText<'n>>,
    results: &'n [Items<u8>],
) -> Result<(), AllocError>
    ensures { OnOk result (names.new ≡ names.old ++ results.now) }
{
    for name in results {
        add_name(alloc, names, name)?;
    }
    Ok(())
}

fn add_instrs<'n>(
    alloc: Global,
    names: &mut NameList<NameText<'n>>,
    instrs: &'n [NamedInstr],
) -> Result<(), AllocError>
    ensures { OnOk result (names.new ≡ names.old ++ spec.results_of instrs.now) }
{
    for instr in instrs {
        add_results(alloc, names, instr.results.as_slice())?;
    }
    Ok(())
}

fn add_block<'n>(
    alloc: Global,
    names: &mut NameList<NameText<'n>>,
    block: &'n NamedBlock,
) -> Result<(), AllocError>
    ensures { OnOk result (names.new ≡ names.old ++ spec.block_names block.now) }
{
    add_params(alloc, names, block.params.as_slice())?;
    add_instrs(alloc, names, block.instrs.as_slice())
}

fn add_blocks<'n>(
    alloc: Global,
    names: &mut NameList<NameText<'n>>,
    blocks: &'n [NamedBlock],
) -> Result<(), AllocError>
    ensures { OnOk result (names.new ≡ names.old ++ joined (map spec.block_names blocks.now)) }
{
    for block in blocks {
        add_block(alloc, names, block)?;
    }
    Ok(())
}

/// The names of a function's registers.
pub fn register_names<'n>(
    alloc: Global,
    func: &'n NamedFunc,
) -> Result<NameList<NameText<'n>>, AllocError>
    ensures { IfOk result (λ names. names ≡ spec.register_names func.now) }
{
    let mut names = NameList::new(alloc);
    add_params(alloc, &mut names, func.params.as_slice())?;
    add_blocks(alloc, &mut names, func.blocks.as_slice())?;
    Ok(names)
}

/// The names of blocks.
pub fn labels<'n>(
    alloc: Global,
    blocks: &'n [NamedBlock],
) -> Result<NameList<NameText<'n>>, AllocError>
    ensures { IfOk result (λ names. names ≡ spec.labels blocks.now) }
{
    let mut names = NameList::new(alloc);
    for block in blocks {
        add_name(alloc, &mut names, &block.name)?;
    }
    Ok(names)
}

/// The names of functions.
pub fn func_names<'n>(
    alloc: Global,
    funcs: &'n [NamedFunc],
) -> Result<NameList<NameText<'n>>, AllocError>
    ensures { IfOk result (λ names. names ≡ spec.func_names funcs.now) }
{
    let mut names = NameList::new(alloc);
    for func in funcs {
        add_name(alloc, &mut names, &func.name)?;
    }
    Ok(names)
}

fn add_types(alloc: Global, list: &mut Items<Ty>, types: &[Ty]) -> Result<(), AllocError>
    ensures { OnOk result (list.new ≡ list.old ++ types.now) }
{
    for ty in types {
        list.push(copy_type(alloc, ty)?)?;
    }
    Ok(())
}

fn add_param_types(
    alloc: Global,
    list: &mut Items<Ty>,
    params: &[NamedParam],
) -> Result<(), AllocError>
    ensures { OnOk result (list.new ≡ list.old ++ spec.param_types params.now) }
{
    for param in params {
        list.push(copy_type(alloc, &param.ty)?)?;
    }
    Ok(())
}

fn add_instr_types(
    alloc: Global,
    list: &mut Items<Ty>,
    instrs: &[NamedInstr],
) -> Result<(), AllocError>
    ensures { OnOk result (list.new ≡ list.old ++ spec.types_of instrs.now) }
{
    for instr in instrs {
        add_types(alloc, list, instr.types.as_slice())?;
    }
    Ok(())
}

fn add_block_types(
    alloc: Global,
    list: &mut Items<Ty>,
    blocks: &[NamedBlock],
) -> Result<(), AllocError>
    ensures { OnOk result (list.new ≡ list.old ++ joined (map spec.block_types blocks.now)) }
{
    for block in blocks {
        add_param_types(alloc, list, block.params.as_slice())?;
        add_instr_types(alloc, list, block.instrs.as_slice())?;
    }
    Ok(())
}

/// The types of a function's registers.
pub fn register_types(alloc: Global, func: &NamedFunc) -> Result<Items<Ty>, AllocError>
    ensures { IfOk result (λ types. types ≡ spec.register_types func.now) }
{
    let mut types = Items::new(alloc);
    add_param_types(alloc, &mut types, func.params.as_slice())?;
    add_block_types(alloc, &mut types, func.blocks.as_slice())?;
    Ok(types)
}
