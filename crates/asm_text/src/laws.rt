//! Laws over the definitions of reading and printing.

ghost use Rattle.std.specs.Prelude.{◌≡◌, ℕ, ◌==◌, not, IsTrue, List, ◌++◌, codes, Ok, Some, false};
ghost use Rattle.std.specs.List.{flat_map, list_all};
ghost use Rattle.ws_isa.specs.Image.{Image};
ghost use Rattle.ws_isa.specs.Formed.{Formed};
ghost use Rattle.ws_isa.specs.Samples.{image_a, image_b};
ghost use Rattle.asm_text.specs.declared.lexeme.Lexeme.{Lexeme};
ghost use Rattle.asm_text.specs.Lexing.{lexed};
ghost use Rattle.asm_text.specs.Printed.{start, text_of, line_text, printed};
ghost use Rattle.asm_text.specs.Spelled.{AreLexemes, AllLexemes, texts};
ghost use Rattle.asm_text.specs.Reading.{lines_of, read};
ghost use Rattle.asm_text.specs.Samples.{text_a, text_b, text_named};
ghost use Rattle.asm_text.specs.Spelling.{Spelled};

/// The lexemes of a printed line are those that were printed, and the lines of a printed text are the
/// printed lines.
pub fn printed_lexemes_are_lexed()
    ensures lexemes { (ls : List Lexeme) → AreLexemes ls →
        lexed (text_of start ls) ≡ Some (record { items = ls; wide = false }) }
    ensures lines { (lines : List (List Lexeme)) → AllLexemes lines →
        lines_of (flat_map line_text lines) ≡ texts lines }
{}

/// The printed form of a formed image is read as that image.
pub fn printed_reads_again()
    ensures { (image : Image) → Formed image → read (printed image) ≡ Ok image }
{}

/// No byte of a printed text is `%`, with which the markers of sections begin, and its last byte is a
/// line feed.
pub fn printed_texts_have_no_marker()
    ensures bytes { (image : Image) → Formed image
        → IsTrue (list_all (λ b. not (b == 37)) (printed image)) }
    ensures end { (image : Image) → (front : List ℕ) × (printed image ≡ front ++ codes "\n") }
{}

/// The image of a text is formed: it is within the limits of version 2, its references are there,
/// its lists and annotations suit its instructions, and its pads and waves are in order.
pub fn read_images_are_formed()
    ensures { (text : List ℕ) (image : Image) → read text ≡ Ok image → Formed image }
{}

/// The lines of a text spell the items of its image one by one: the version, the arrays, each wave
/// with its blocks, each block with its pads, instructions and exit, and the end. In version 2
/// names may stand for the numbers of blocks and of instructions, each for one.
pub fn read_texts_spell()
    ensures { (text : List ℕ) (image : Image) → read text ≡ Ok image → Spelled text image }
{}

/// Each text whose lines spell the items of a formed image is read as that image.
pub fn spelled_texts_are_read()
    ensures { (text : List ℕ) (image : Image) → Formed image → Spelled text image →
        read text ≡ Ok image }
{}

/// Two small images are read from their texts, and the first of them from its text with names.
pub fn small_texts_are_read()
    ensures first { read text_a ≡ Ok image_a }
    ensures second { read text_b ≡ Ok image_b }
    ensures named { read text_named ≡ Ok image_a }
{}
