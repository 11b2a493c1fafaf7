//! Other registers, written in place.
ghost use Rattle.std.specs.Prelude.{◌≡◌, map};
ghost use Rattle.register_numbers.specs.FirstPlaces.{place_in};
ghost use Rattle.register_numbers.specs.Renumbered.{renamed_block, renamed_instr, renamed_regs, renamed_target, renamed_term};

use crate::places::Places;
use lists::Items;
use low_forms::{Block, Instr, Reg, Target, Term};

fn rename_each(regs: &mut [Reg], places: &Places)
    ensures { regs.new ≡ renamed_regs (place_in places.now) regs.old }
{
    for i in 0..regs.len() {
        regs[i].0 = places.place(regs[i].0 as u64);
    }
}

/// Gives each register its place as its number.
pub(crate) fn rename_regs(regs: &mut Items<Reg>, places: &Places)
    ensures { regs.new ≡ renamed_regs (place_in places.now) regs.old }
{
    rename_each(regs.as_mut_slice(), places);
}

fn rename_instr(instr: &mut Instr, places: &Places)
    ensures { instr.new ≡ renamed_instr (place_in places.now) instr.old }
{
    rename_regs(&mut instr.operands, places);
    rename_regs(&mut instr.results, places);
}

fn rename_each_instr(instrs: &mut [Instr], places: &Places)
    ensures { instrs.new ≡ map (renamed_instr (place_in places.now)) instrs.old }
{
    for i in 0..instrs.len() {
        rename_instr(&mut instrs[i], places);
    }
}

fn rename_instrs(instrs: &mut Items<Instr>, places: &Places)
    ensures { instrs.new ≡ map (renamed_instr (place_in places.now)) instrs.old }
{
    rename_each_instr(instrs.as_mut_slice(), places);
}

fn rename_each_target(targets: &mut [Target], places: &Places)
    ensures { targets.new ≡ map (renamed_target (place_in places.now)) targets.old }
{
    for i in 0..targets.len() {
        rename_regs(&mut targets[i].args, places);
    }
}

fn rename_targets(targets: &mut Items<Target>, places: &Places)
    ensures { targets.new ≡ map (renamed_target (place_in places.now)) targets.old }
{
    rename_each_target(targets.as_mut_slice(), places);
}

fn rename_term(term: &mut Term, places: &Places)
    ensures { term.new ≡ renamed_term (place_in places.now) term.old }
{
    rename_instr(&mut term.instr, places);
    rename_targets(&mut term.targets, places);
}

fn rename_block(block: &mut Block, places: &Places)
    ensures { block.new ≡ renamed_block (place_in places.now) block.old }
{
    rename_regs(&mut block.params, places);
    rename_instrs(&mut block.instrs, places);
    rename_term(&mut block.term, places);
}

fn rename_each_block(blocks: &mut [Block], places: &Places)
    ensures { blocks.new ≡ map (renamed_block (place_in places.now)) blocks.old }
{
    for i in 0..blocks.len() {
        rename_block(&mut blocks[i], places);
    }
}

pub(crate) fn rename_blocks(blocks: &mut Items<Block>, places: &Places)
    ensures { blocks.new ≡ map (renamed_block (place_in places.now)) blocks.old }
{
    rename_each_block(blocks.as_mut_slice(), places);
}
