//! The least version whose limits an image keeps.

ghost use Rattle.std.specs.Prelude.{◌≡◌, ◌+◌, length, map, IfOk};
ghost use Rattle.std.specs.List.{list_all};
ghost use Rattle.ws_isa.specs.Image.{flat};
ghost use Rattle.ws_isa.specs.View as view;
ghost use Rattle.asm_text.specs.Printed as spec;

use ws_isa::{Block, Exit, Image};
use ws_words::NoMemory;

// A sum of counts. What passes 64 bits has no place in memory.
pub(crate) fn plus(a: u64, b: u64) -> Result<u64, NoMemory>
    ensures { IfOk result (λ n. n ≡ a + b) }
{
    match a.checked_add(b) {
        Some(n) => Ok(n),
        None => Err(NoMemory),
    }
}

// How many instructions the blocks have.
#[tactic(auto, using(crate::proofs::Scanning::Walks::walks))]
fn instr_count(blocks: &[Block]) -> Result<u64, NoMemory>
    ensures { IfOk result (λ n. n ≡ length (flat (map view.block blocks.now))) }
{
    let mut count: u64 = 0;
    for x in blocks {
        count = plus(count, x.instrs.len() as u64)?;
    }
    Ok(count)
}

#[tactic(auto, unfolding(crate::specs::Limits::first_most_landings))]
fn few_landings(exit: &Exit) -> bool
    ensures { result ≡ spec.few_landings (view.exit exit.now) }
{
    match exit {
        Exit::Send(_, landings) => landings.len() <= 1024,
        _ => true,
    }
}

#[tactic(auto, unfolding(crate::specs::Limits::first_most_waves))]
fn keeps_first_block(block: &Block) -> bool
    ensures { result ≡ spec.keeps_first_block (view.block block.now) }
{
    block.wave <= 65536 && few_landings(&block.exit)
}

fn keep_first_blocks(blocks: &[Block]) -> bool
    ensures { result ≡ list_all (λ b. spec.keeps_first_block (view.block b)) blocks.now }
{
    blocks.iter().all(|b| keeps_first_block(b))
}

// Whether the image keeps the limits of version 1.
#[tactic(auto, using(crate::proofs::Scanning::Walks::firsts), unfolding(crate::specs::Printed::keeps_first_limits, crate::specs::Limits::first_most_instrs, crate::specs::Limits::first_most_blocks))]
fn keeps_first_limits(image: &Image) -> Result<bool, NoMemory>
    ensures { IfOk result (λ b. b ≡ spec.keeps_first_limits (view.image image.now)) }
{
    let count = instr_count(&image.blocks)?;
    Ok(count <= 2_097_152 && image.blocks.len() <= 65536 && keep_first_blocks(&image.blocks))
}

// The least version whose limits the image keeps.
#[tactic(auto, unfolding(crate::specs::Printed::version))]
pub(crate) fn version(image: &Image) -> Result<u64, NoMemory>
    ensures { IfOk result (λ n. n ≡ spec.version (view.image image.now)) }
{
    if keeps_first_limits(image)? {
        Ok(1)
    } else {
        Ok(2)
    }
}
