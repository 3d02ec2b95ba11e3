//! The words of an input section.

ghost use Rattle.std.specs.Prelude.{◌≡◌, ℕ, ◌+◌, ◌<◌, ◌≤◌, ◌^◌, ◌++◌, List, length, not, IsTrue, IfOk, IfErr};
ghost use Rattle.std.specs.List.{list_all, prefix_len};
ghost use Rattle.src_ast.specs.Lexemes.{is_blank};
ghost use Rattle.asm_read.specs.Sections.{place_below, IsItem, InputWords, IsInputFault};
ghost use Rattle.asm_read.specs.Sections.{AnswersWords};
ghost use Rattle.asm_read.specs.Assembly.{assembly_limit};
ghost use Rattle.ws_words.specs.Letters.{starts_without};

use src_ast::{Place, Refusal, RefusalKind, TextFault};
use src_lex::{is_blank, place_after};
use std::alloc::Global;
use ws_io::decimal;
use ws_words::Words;

/// Where a text begins.
const START: Place = Place { line: 1, column: 1 };

// How many blanks the text begins with.
fn blanks_length(text: &[u8]) -> usize
    ensures longest { result ≡ prefix_len is_blank text.now }
    ensures within { result ≤ length text.now }
{
    text.iter().take_while(|b| is_blank(**b)).count()
}

// How many bytes that are no blanks the text begins with.
fn item_length(text: &[u8]) -> usize
    ensures longest { result ≡ prefix_len (λ b. not (is_blank b)) text.now }
    ensures within { result ≤ length text.now }
{
    text.iter().take_while(|b| !is_blank(**b)).count()
}

// The blanks that the text begins with, and what stands after them.
fn blanks(text: &[u8]) -> (&[u8], &[u8])
    ensures whole { text.now ≡ result.0.now ++ result.1.now }
    ensures blank { IsTrue (list_all is_blank result.0.now) }
    ensures longest { IsTrue (starts_without is_blank result.1.now) }
{
    text.split_at(blanks_length(text))
}

// The item that the text begins with, and what stands after it.
fn item(text: &[u8]) -> (&[u8], &[u8])
    requires some { 0 < length text.now }
    requires no_blank { IsTrue (starts_without is_blank text.now) }
    ensures whole { text.now ≡ result.0.now ++ result.1.now }
    ensures item { IsItem result.0.now result.1.now }
    ensures some { 0 < length result.0.now }
{
    text.split_at(item_length(text))
}

/// The words of an input section that begins at a place, or its first item that is no word.
fn words(alloc: Global, text: &[u8], at: Place) -> Result<Words, TextFault>
    requires line { 0 < at.line }
    requires column { 0 < at.column }
    requires room { at.line + at.column + length text.now ≤ 2 ^ 32 }
    ensures ok { IfOk result (λ words. InputWords at text.now words) }
    ensures only { (words : List ℕ) → InputWords at text.now words → AnswersWords result words }
    ensures refused { IfErr result (λ e. IsInputFault at text.now e) }
{
    let mut words = Words::empty(alloc);
    let mut place = at;
    let mut rest = text;
    'items: loop {
        let (blanks, front) = blanks(rest);
        place = place_after(place, blanks);
        if front.is_empty() {
            return Ok(words);
        }
        let (item, further) = item(front);
        let Some(word) = decimal(item) else {
            return Err(TextFault::Refused(Refusal {
                kind: RefusalKind::Input,
                place,
            }));
        };
        words.push(word)?;
        place = place_after(place, item);
        rest = further;
    }
}

/// The words of the input section behind this section and the marker.
pub fn input_words(alloc: Global, section: &[u8], input: &[u8]) -> Result<Words, TextFault>
    requires section { length section.now ≤ assembly_limit }
    requires input { length input.now ≤ assembly_limit }
    ensures ok { IfOk result (λ words. InputWords (place_below section.now) input.now words) }
    ensures only { (words : List ℕ) → InputWords (place_below section.now) input.now words
        → AnswersWords result words }
    ensures refused { IfErr result (λ e. IsInputFault (place_below section.now) input.now e) }
{
    let at = Place {
        line: place_after(START, section).line + 1,
        column: 1,
    };
    words(alloc, input, at)
}
