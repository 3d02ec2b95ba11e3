//! The lexemes of a text.

ghost use Rattle.std.specs.Prelude.{◌-◌, ◌<◌, ◌^◌, length, List, IfOk, IfErr};
ghost use Rattle.src_ast.specs.Lexemes as lexemes;
ghost use Rattle.src_ast.specs.LexFaults.{IsLexFault, AnswersLexemes};
ghost use Rattle.src_ast.specs.declared.lexeme.Lexeme.{Lexeme};
ghost use Rattle.src_ast.specs.declared.lexeme.Place.{Place};

use crate::gap::{gap_length, is_end};
use crate::lexeme::read_shape;
use crate::limits::Counts;
use crate::place::place_after;
use src_ast::{Lexeme, Lexemes, Place, TextFault};
use std::alloc::Global;

/// The lexemes of a text, or its first fault.
fn read(alloc: Global, text: &[u8]) -> Result<Lexemes, TextFault>
    requires { length text.now < 2 ^ 32 - 1 }
    ensures found { IfOk result (λ l. lexemes.Lex text.now l.items.items l.finish) }
    ensures kept { IfOk result (λ l. lexemes.KeepLimits 0 0 l.items.items) }
    ensures refused { IfErr result (λ e. IsLexFault text.now e) }
{
    let mut items = Vec::new(alloc);
    let mut counts = Counts { depth: 0, row: 0 };
    let mut place = Place { line: 1, column: 1 };
    let mut rest = text;
    loop {
        let (gap, front) = rest.split_at(gap_length(rest));
        place = place_after(place, gap);
        if is_end(front) {
            let finish = place_after(place, front);
            return Ok(Lexemes { items, finish });
        }
        let (shape, length) = read_shape(alloc, front, place)?;
        counts = counts.past(&shape, place)?;
        if items.push(Lexeme { shape, place }).is_err() {
            return Err(TextFault::NoMemory);
        }
        let (bytes, following) = front.split_at(length);
        place = place_after(place, bytes);
        rest = following;
    }
}

/// The lexemes of a text, or its first fault: whichever it has, unless memory runs out.
pub fn lex(alloc: Global, text: &[u8]) -> Result<Lexemes, TextFault>
    requires { length text.now < 2 ^ 32 - 1 }
    // What is answered is the text's lexemes, within the limits.
    ensures found { IfOk result (λ l. lexemes.Lex text.now l.items.items l.finish) }
    ensures kept { IfOk result (λ l. lexemes.KeepLimits 0 0 l.items.items) }
    // A text's lexemes within the limits are answered, unless memory runs out.
    ensures only { (ls : List Lexeme) (finish : Place)
        → lexemes.Lex text.now ls finish → lexemes.KeepLimits 0 0 ls
        → AnswersLexemes result ls finish }
    // A refusal is the first fault of the text.
    ensures refused { IfErr result (λ e. IsLexFault text.now e) }
{
    read(alloc, text)
}
