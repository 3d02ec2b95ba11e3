//! Walks of an image with a branch.

use annot_check::check_image;
use asm_text::read_asm;
use std::alloc::Global;
use std::test::Fail;
use ws_isa::{Checked, walk_image};
use ws_words::{Cells, NoMemory, Words, World};

// Reads a word, stores 5 into cell 0 if the word isn't 0, and prints cell 0 and, between the two
// parts of the text, the cell that is named.
const FRONT: &str = "wavescalar 1\narray a 2\nwave 1\nblock 1\npad 0 1.0\n1: advance -> 2.0 3.0\n\
    2: in <., 1, ?>.1 -> 3.1\n3: steer -> 4.0 5.0 8.0 | 7.0 8.0\nif 2 2 3\n\
    block 2\n4: const 0 -> 6.0\n5: const 5 -> 6.1\n6: store 1 <1, 2, 4>.2\ngo 4\n\
    block 3\n7: nop <1, 3, 4>.1\ngo 4\n\
    block 4\n8: merge -> 9.0 10.0 15.0\n9: const 0 -> 11.0\n10: const ";

const BACK: &str = " -> 12.0\n11: load 1 <?, 4, 5>.2 -> 13.0\n12: load 1 <4, 5, 6>.2 -> 14.0\n\
    13: out <5, 6, 7>.6\n14: out <6, 7, 8>.7\n15: halt <7, 8, .>.8\nstop\nend\n";

// The image of this text.
#[tactic(auto, using(crate::proofs::Feeds::few_feeds))]
fn image_of(alloc: Global, text: &str) -> Option<Checked> {
    let bytes = text.as_bytes();
    if bytes.len() > 100_000 {
        return None;
    }
    match read_asm(alloc, bytes) {
        Ok(image) => check_image(alloc, image).ok(),
        Err(_) => None,
    }
}

// The printed words, the first cell, the number of instances, whether they are the whole walk, and
// the array of a fault.
fn told(alloc: Global, cell: u64, word: u64, firings: u64) -> Result<String, NoMemory> {
    let text = format!(in alloc; "{FRONT}{cell}{BACK}")?;
    let Some(image) = image_of(alloc, text.as_str()) else {
        return Ok(String::new(alloc));
    };
    let world = World {
        input: Words::from_slice(alloc, &[word])?,
        left: Cells::empty(alloc),
    };
    let walked = walk_image(alloc, &image, &world, firings)?;
    let printed = walked.printed.as_slice();
    let cell = walked.arrays.word(0, 0);
    let (fired, whole, fault) = (walked.fired, walked.whole, walked.fault);
    let told = format!(in alloc; "{printed:?} {cell} {fired} {whole} {fault:?}")?;
    Ok(told)
}

// A cell, of which 2 is out of bounds, a word that is read, the firings, and what is reported of the walk.
const ROWS: [(u64, u64, u64, &str); 6] = [
    (1, 1, 14, "[5, 0] 5 14 true None"),
    (1, 1, 13, "[5, 0] 5 13 false None"),
    (1, 0, 12, "[0, 0] 0 12 true None"),
    (2, 1, 14, "[5, 0] 5 14 true Some(1)"),
    (2, 1, 11, "[] 5 11 false Some(1)"),
    (2, 1, 10, "[] 5 10 false None"),
];

#[test]
fn images_are_walked(rt: HostRuntime) -> Result<(), Fail> {
    for (cell, word, firings, wanted) in ROWS {
        assert_eq!(rt; told(rt.alloc(), cell, word, firings)?.as_str(), wanted);
    }
    Ok(())
}
