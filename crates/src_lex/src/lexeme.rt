//! One lexeme.

ghost use Rattle.std.specs.Prelude.{◌≡◌, ◌<◌, length, slice_index, true, false, IfOk, IfErr};
ghost use Rattle.ws_words.specs.Digits as digits;
ghost use Rattle.src_ast.specs.Lexemes as lexemes;
ghost use Rattle.src_lex.specs.Reads.{Reads, IsWrongHere, begins_gap};
ghost use Rattle.ws_words.specs.Letters.{is_letter};

use crate::class::{is_digit, is_letter, number_length, word_length};
use crate::mark::mark;
use src_ast::{MOST_NAME_BYTES, Place, Quantity, Refusal, RefusalKind, Shape, TextFault};
use std::alloc::Global;
use ws_io::decimal;
use ws_words::Bytes;

/// The word that the text begins with, and how many bytes it takes.
#[tactic(auto, using(crate::proofs::Words::words))]
fn word(alloc: Global, text: &[u8], place: Place) -> Result<(Shape, usize), TextFault>
    requires some { 0 < length text.now }
    requires letter { is_letter (slice_index text.now 0) ≡ true }
    ensures read { IfOk result (λ r. Reads r.0 r.1 text.now) }
    ensures short { IfOk result (λ r. lexemes.IsShort r.0) }
    ensures refused { IfErr result (λ e. IsWrongHere text.now place e) }
{
    let length = word_length(text);
    if length > MOST_NAME_BYTES {
        return Err(TextFault::Refused(Refusal {
            kind: RefusalKind::Limit(Quantity::NameBytes),
            place,
        }));
    }
    let (bytes, _) = text.split_at(length);
    match Bytes::from_slice(alloc, bytes) {
        Ok(name) => Ok((Shape::Word(name), length)),
        Err(_) => Err(TextFault::NoMemory),
    }
}

/// The number that the text begins with, and how many bytes it takes.
#[tactic(auto, using(crate::proofs::Words::words))]
fn number(text: &[u8], place: Place) -> Result<(Shape, usize), TextFault>
    requires some { 0 < length text.now }
    requires digit { digits.is_digit (slice_index text.now 0) ≡ true }
    ensures read { IfOk result (λ r. Reads r.0 r.1 text.now) }
    ensures short { IfOk result (λ r. lexemes.IsShort r.0) }
    ensures refused { IfErr result (λ e. IsWrongHere text.now place e) }
{
    let length = number_length(text);
    let (bytes, _) = text.split_at(length);
    match decimal(bytes) {
        Some(value) => Ok((Shape::Number(value), length)),
        None => Err(TextFault::Refused(Refusal {
            kind: RefusalKind::Wide,
            place,
        })),
    }
}

/// The mark that the text begins with, and how many bytes it takes.
#[tactic(auto, using(crate::proofs::Words::words))]
fn sign(text: &[u8], place: Place) -> Result<(Shape, usize), TextFault>
    requires some { 0 < length text.now }
    requires no_gap { begins_gap (slice_index text.now 0) ≡ false }
    requires no_letter { is_letter (slice_index text.now 0) ≡ false }
    requires no_digit { digits.is_digit (slice_index text.now 0) ≡ false }
    ensures read { IfOk result (λ r. Reads r.0 r.1 text.now) }
    ensures short { IfOk result (λ r. lexemes.IsShort r.0) }
    ensures refused { IfErr result (λ e. IsWrongHere text.now place e) }
{
    match mark(text) {
        Some((mark, length)) => Ok((Shape::Mark(mark), length)),
        None => Err(TextFault::Refused(Refusal {
            kind: RefusalKind::Byte,
            place,
        })),
    }
}

/// The lexeme that the text begins with, and how many bytes it takes.
pub fn read_shape(alloc: Global, text: &[u8], place: Place) -> Result<(Shape, usize), TextFault>
    requires some { 0 < length text.now }
    requires no_gap { begins_gap (slice_index text.now 0) ≡ false }
    ensures read { IfOk result (λ r. Reads r.0 r.1 text.now) }
    ensures short { IfOk result (λ r. lexemes.IsShort r.0) }
    ensures refused { IfErr result (λ e. IsWrongHere text.now place e) }
{
    let first = text[0];
    if is_letter(first) {
        word(alloc, text, place)
    } else if is_digit(first) {
        number(text, place)
    } else {
        sign(text, place)
    }
}
