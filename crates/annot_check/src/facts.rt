//! What is known of each instruction by its number: its operation, and the wave in which it stands.

ghost use Rattle.std.specs.Prelude.{◌≡◌, ◌+◌, ◌∷◌, ◌++◌, map, IfOk, OnOk, false, slice_index_or};
ghost use Rattle.ws_isa.specs.Image.{is_advance, is_advance_op};
ghost use Rattle.ws_isa.specs.View as view;
ghost use Rattle.ws_isa.specs.declared.instr.Op.TheVariants.{Halt};
ghost use Rattle.annot_check.specs.Facts.{ops_of, waves_of, advances_of};
ghost use Rattle.ws_words.specs.Items.{flag_at};

use crate::read::block;
use std::alloc::Global;
use ws_isa::{Block, Image, Op};
use ws_words::NoMemory;

/// Whether each instruction is an advance, and in which wave it stands, by its number.
#[derive(Drop)]
pub struct Facts {
    pub ops: Vec<Op>,
    pub advances: Vec<bool>,
    pub waves: Vec<u32>,
}

// The instructions of one more block.
fn add_block(facts: &mut Facts, block: &Block) -> Result<(), NoMemory>
    ensures ops { OnOk result (facts.new.ops.items ≡ facts.old.ops.items ++ map (λ i. i.op)
        (map view.instr block.now.instrs.items)) }
    ensures advances { OnOk result (facts.new.advances.items ≡ facts.old.advances.items ++ map
        (λ i. is_advance_op i.op) (map view.instr block.now.instrs.items)) }
    ensures waves { OnOk result (facts.new.waves.items ≡ facts.old.waves.items ++ map
        (λ i. block.now.wave) (map view.instr block.now.instrs.items)) }
{
    for instr in &block.instrs {
        facts.ops.push(instr.op)?;
        facts.advances.push(instr.op.is_advance())?;
        facts.waves.push(block.wave)?;
    }
    Ok(())
}

/// The facts of all instructions.
pub(crate) fn facts_of(alloc: Global, image: &Image) -> Result<Facts, NoMemory>
    ensures ops { IfOk result (λ facts. facts.ops.items ≡ Halt ∷ ops_of
        (map view.block image.now.blocks.items)) }
    ensures advances { IfOk result (λ facts. facts.advances.items ≡ false ∷ advances_of
        (map view.block image.now.blocks.items)) }
    ensures waves { IfOk result (λ facts. facts.waves.items ≡ 0 ∷ waves_of
        (map view.block image.now.blocks.items)) }
{
    let mut facts = Facts {
        ops: Vec::new(alloc),
        advances: Vec::new(alloc),
        waves: Vec::new(alloc),
    };
    facts.ops.push(Op::Halt)?;
    facts.advances.push(false)?;
    facts.waves.push(0)?;
    for block in &image.blocks {
        add_block(&mut facts, block)?;
    }
    Ok(facts)
}

impl Facts {
    pub(crate) fn is_advance(&self, op: u32) -> bool
        ensures { result ≡ flag_at self.now.advances.items op }
    {
        match self.advances.get(op as usize) {
            Some(advance) => *advance,
            None => false,
        }
    }

    pub(crate) fn wave(&self, op: u32) -> u32
        ensures { result ≡ slice_index_or self.now.waves.items op 0 }
    {
        match self.waves.get(op as usize) {
            Some(wave) => *wave,
            None => 0,
        }
    }

    pub fn op(&self, op: u32) -> Op
        ensures { result ≡ slice_index_or self.now.ops.items op Halt }
    {
        match self.ops.get(op as usize) {
            Some(op) => *op,
            None => Op::Halt,
        }
    }
}
