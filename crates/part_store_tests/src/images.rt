//! Images that the tests run.

use annot_check::check_image;
use asm_text::read_asm;
use std::alloc::Global;
use ws_isa::Checked;
use ws_words::NoMemory;

/// Reads a word, stores 5 into cell 0 if the word isn't 0, and prints cells 0 and 1.
pub const CELLS: &str =
    "wavescalar 1\narray a 2\nwave 1\nblock 1\npad 0 1.0\n1: advance -> 2.0 3.0\n\
    2: in <., 1, ?>.1 -> 3.1\n3: steer -> 4.0 5.0 8.0 | 7.0 8.0\nif 2 2 3\n\
    block 2\n4: const 0 -> 6.0\n5: const 5 -> 6.1\n6: store 1 <1, 2, 4>.2\ngo 4\n\
    block 3\n7: nop <1, 3, 4>.1\ngo 4\n\
    block 4\n8: merge -> 9.0 10.0 15.0\n9: const 0 -> 11.0\n10: const 1 -> 12.0\n\
    11: load 1 <?, 4, 5>.2 -> 13.0\n12: load 1 <4, 5, 6>.2 -> 14.0\n13: out <5, 6, 7>.6\n\
    14: out <6, 7, 8>.7\n15: halt <7, 8, .>.8\nstop\nend\n";

/// The same, but that the second load is out of bounds.
pub const PAST: &str =
    "wavescalar 1\narray a 2\nwave 1\nblock 1\npad 0 1.0\n1: advance -> 2.0 3.0\n\
    2: in <., 1, ?>.1 -> 3.1\n3: steer -> 4.0 5.0 8.0 | 7.0 8.0\nif 2 2 3\n\
    block 2\n4: const 0 -> 6.0\n5: const 5 -> 6.1\n6: store 1 <1, 2, 4>.2\ngo 4\n\
    block 3\n7: nop <1, 3, 4>.1\ngo 4\n\
    block 4\n8: merge -> 9.0 10.0 15.0\n9: const 0 -> 11.0\n10: const 2 -> 12.0\n\
    11: load 1 <?, 4, 5>.2 -> 13.0\n12: load 1 <4, 5, 6>.2 -> 14.0\n13: out <5, 6, 7>.6\n\
    14: out <6, 7, 8>.7\n15: halt <7, 8, .>.8\nstop\nend\n";

/// Stores 1 and then 2 into one cell, and prints it.
pub const TWICE: &str = "wavescalar 1\narray a 2\nwave 1\nblock 1\npad 0 1.0\n\
    1: advance -> 2.0 3.0 4.0 5.0 6.0 8.0\ngo 2\nblock 2\n2: const 1 -> 3.1\n\
    3: store 1 <., 1, 2>.1\n4: const 2 -> 5.1\n5: store 1 <1, 2, 3>.2\n6: load 1 <2, 3, 4>.2 -> 7.0\n\
    7: out <3, 4, 5>.4\n8: halt <4, 5, .>.5\nstop\nend\n";

/// Stores 1 out of bounds, and prints 7 before and after.
pub const BEYOND: &str = "wavescalar 1\narray a 1\nwave 1\nblock 1\npad 0 1.0\n\
    1: advance -> 2.0 3.0 4.0 8.0\n2: const 7 -> 5.0 7.0\n3: const 1 -> 6.1\n4: const 2 -> 6.0\n\
    5: out <., 1, 2>.1\n6: store 1 <1, 2, 3>.2\n7: out <2, 3, 4>.3\n8: halt <3, 4, .>.4\nstop\nend\n";

/// Reads four words in turn, stores each into one of two cells, adds it to the first, and adds both.
pub const MIXED: &str =
    "wavescalar 1\narray a 3\nwave 1\nblock 1\npad 0 1.0\n1: advance -> 5.0 2.0\n\
    go 2\nblock 2\n2: merge -> 4.0 3.0\n3: nop <., 1, .>.0\ngo 3\nwave 2\nblock 3\n\
    4: advance -> 6.0 8.0\n5: advance -> 7.0 9.0\n6: const 4 -> 7.1\n7: lt -> 8.1 9.1\n\
    8: steer -> 10.0 11.0 14.0 18.0 21.0 4.0 | 23.0 25.0 28.0\n9: steer -> 12.0 22.0 |\nif 7 4 5\n\
    block 4\n10: in <., 1, 2>.1 -> 13.1 15.1\n11: const 2 -> 12.1 16.0 17.0\n12: rem -> 13.0\n\
    13: store 1 <1, 2, 3>.2\n14: load 1 <2, 3, 4>.2 -> 15.0\n15: add -> 16.1\n\
    16: store 1 <3, 4, 5>.4\n17: load 1 <4, 5, 6>.4 -> 20.1\n18: const 1 -> 19.0 22.1\n\
    19: load 1 <5, 6, 7>.4 -> 20.0\n20: add -> 21.1\n21: store 1 <6, 7, .>.7\n22: add -> 5.0\ngo 3\n\
    block 5\n23: load 1 <., 8, 9>.0 -> 24.0\n24: out <8, 9, 10>.9\n25: const 2 -> 26.0\n\
    26: load 1 <9, 10, 11>.9 -> 27.0\n27: out <10, 11, 12>.11\n28: halt <11, 12, .>.12\nstop\nend\n";

/// Takes a word of port 2, stores it, and gives the cell to port 1, three times; the third cell is out
/// of bounds.
pub const PORTS: &str =
    "wavescalar 1\narray a 2\nwave 1\nblock 1\npad 0 1.0\n1: advance -> 5.0 2.0\n\
    go 2\nblock 2\n2: merge -> 4.0 3.0\n3: nop <., 1, .>.0\ngo 3\nwave 2\nblock 3\n\
    4: advance -> 6.0 8.0\n5: advance -> 7.0 9.0\n6: const 3 -> 7.1\n7: lt -> 8.1 9.1\n\
    8: steer -> 10.0 14.0 4.0 | 16.0\n9: steer -> 11.0 12.0 15.0 |\nif 7 4 5\nblock 4\n\
    10: give 2 <., 1, 2>.1 -> 11.1\n11: store 1 <1, 2, 3>.2\n12: load 1 <2, 3, 4>.2 -> 13.0\n\
    13: take 1 <3, 4, .>.4\n14: const 1 -> 15.1\n15: add -> 5.0\ngo 3\nblock 5\n16: halt <., 5, .>.5\n\
    stop\nend\n";

/// Reads a word, stores it into 17 cells, and prints the last.
pub const SEVENTEEN: &str = "wavescalar 1\narray a 17\nwave 1\nblock 1\npad 0 1.0\n\
    1: advance -> 2.0 3.0 5.0 7.0 9.0 11.0 12.0\ngo 2\nblock 2\n2: in <., 1, 2>.1 -> 3.1 4.0\n\
    3: store 1 <1, 2, 3>.2\n4: merge -> 6.1 8.1 10.1 13.1 15.1 16.0\n5: const 1 -> 6.0\n\
    6: store 1 <2, 3, 4>.3\n7: const 2 -> 8.0\n8: store 1 <3, 4, 5>.4\n9: const 3 -> 10.0\n\
    10: store 1 <4, 5, 6>.5\n11: const 4 -> 13.0\n12: merge -> 14.0 17.0 19.0 21.0 23.0 25.0 26.0\n\
    13: store 1 <5, 6, 7>.6\n14: const 5 -> 15.0\n15: store 1 <6, 7, 8>.7\n\
    16: merge -> 18.1 20.1 22.1 24.1 27.1 28.0\n17: const 6 -> 18.0\n18: store 1 <7, 8, 9>.8\n\
    19: const 7 -> 20.0\n20: store 1 <8, 9, 10>.9\n21: const 8 -> 22.0\n22: store 1 <9, 10, 11>.10\n\
    23: const 9 -> 24.0\n24: store 1 <10, 11, 12>.11\n25: const 10 -> 27.0\n\
    26: merge -> 29.0 31.0 33.0 35.0 37.0 39.0 43.0\n27: store 1 <11, 12, 13>.12\n\
    28: merge -> 30.1 32.1 34.1 36.1 38.1 40.1\n29: const 11 -> 30.0\n30: store 1 <12, 13, 14>.13\n\
    31: const 12 -> 32.0\n32: store 1 <13, 14, 15>.14\n33: const 13 -> 34.0\n\
    34: store 1 <14, 15, 16>.15\n35: const 14 -> 36.0\n36: store 1 <15, 16, 17>.16\n\
    37: const 15 -> 38.0\n38: store 1 <16, 17, 18>.17\n39: const 16 -> 40.0 41.0\n\
    40: store 1 <17, 18, 19>.18\n41: load 1 <18, 19, 20>.18 -> 42.0\n42: out <19, 20, 21>.20\n\
    43: halt <20, 21, .>.21\nstop\nend\n";

/// The image of a text.
pub fn image_of(alloc: Global, text: &str) -> Result<Checked, NoMemory> {
    if text.len() > 10_000 {
        return Err(NoMemory);
    }
    let Ok(image) = read_asm(alloc, text.as_bytes()) else {
        return Err(NoMemory);
    };
    match check_image(alloc, image) {
        Ok(image) => Ok(image),
        Err(_) => Err(NoMemory),
    }
}
