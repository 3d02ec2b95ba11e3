//! The printed forms of images that are read.

use asm_text::{print_asm, read_asm};
use std::alloc::Global;
use std::test::Fail;
use ws_words::{Bytes, NoMemory};

// Reads a word, stores 5 into cell 0 if the word isn't 0, and prints cells 0 and 1.
const IMAGE_B: &str = "wavescalar 1\narray a 2\nwave 1\nblock 1\npad 0 1.0\n1: advance -> 2.0 3.0\n\
    2: in <., 1, ?>.1 -> 3.1\n3: steer -> 4.0 5.0 8.0 | 7.0 8.0\nif 2 2 3\nblock 2\n4: const 0 -> 6.0\n\
    5: const 5 -> 6.1\n6: store 1 <1, 2, 4>.2\ngo 4\nblock 3\n7: nop <1, 3, 4>.1\ngo 4\nblock 4\n\
    8: merge -> 9.0 10.0 15.0\n9: const 0 -> 11.0\n10: const 1 -> 12.0\n11: load 1 <?, 4, 5>.2 -> 13.0\n\
    12: load 1 <4, 5, 6>.2 -> 14.0\n13: out <5, 6, 7>.6\n14: out <6, 7, 8>.7\n15: halt <7, 8, .>.8\n\
    stop\nend\n";

// A text with the other forms of line.
const FORMS: &str =
    "wavescalar 1\nhidden 0\nwave 1\nblock 1\npad 0 1.0 2.0\npad 3\n1: phi -> 1.0 2.1\n2: send 15\n\
    3: shl ->\n4: give 7 <?, 1, ?>.0 ->\n5: take 1 <., 2, .>.4294967295\n6: steer -> | 1.0\nsend 1 2 1\n\
    wave 2\nblock 2\ngo 1\nend\n";

// Numbers, marks, blanks, carriage returns and comments may stand otherwise, and items have names.
const NAMED: &str =
    "\r\n# x\nwavescalar 2# @\r\nhidden 00\nwave\t1\nblock a\npad 0 in.0 2 . 0\r\npad 3\n\
    in:phi->in.0 b.1\nb: send 15\n\n3: shl ->\n4: give 7 <?,1,?>.0 ->\n\
    5: take 1 < . , 2 , . > . 4294967295\n6: steer->|in.0\nsend in b a\nwave 2\nblock b\ngo a\nend# \r";

// The printed form of the image of a text.
#[tactic(auto, using(crate::proofs::Feeds::few_feeds))]
fn printed(alloc: Global, text: &[u8]) -> Result<Bytes, Fail> {
    if text.len() > 10_000 {
        return Err(Fail::from(NoMemory));
    }
    let Ok(image) = read_asm(alloc, text) else {
        return Err(Fail::from(NoMemory));
    };
    Ok(print_asm(alloc, &image)?)
}

#[test]
fn images_have_a_printed_form(rt: HostRuntime) -> Result<(), Fail> {
    for (text, form) in [(IMAGE_B, IMAGE_B), (FORMS, FORMS), (NAMED, FORMS)] {
        let printed = printed(rt.alloc(), text.as_bytes())?;
        let alike = printed.as_slice() == form.as_bytes();
        assert!(rt; alike, "{text}");
    }
    Ok(())
}
