//! The texts of refusals.

ghost use Rattle.std.specs.Prelude.{◌≡◌, IfOk};
ghost use Rattle.annot_check.specs.declared.fault.Bad.TheVariants as bad;
ghost use Rattle.asm_read.specs.declared.assembly.AsmRefusal.TheVariants as refusal;
ghost use Rattle.asm_read.specs.Texts.{asm_word, broken_text, bad_text, asm_refusal_text, kind_word};
ghost use Rattle.asm_read.specs.Texts.{refusal_text};

use crate::assembly::AsmRefusal;
use annot_check::Bad;
use asm_text::AsmKind;
use src_ast::{Place, Quantity, Refusal, RefusalKind};
use std::alloc::Global;
use ws_io::put_decimal;
use ws_words::{Bytes, NoMemory};

// What is printed for a kind of refusal.
fn word(kind: RefusalKind) -> &'static [u8]
    ensures { result.now ≡ kind_word kind }
{
    match kind {
        RefusalKind::Byte => b"byte",
        RefusalKind::Wide => b"wide",
        RefusalKind::Syntax => b"syntax",
        RefusalKind::Unknown => b"unknown",
        RefusalKind::Twice => b"twice",
        RefusalKind::Kind => b"kind",
        RefusalKind::Count => b"count",
        RefusalKind::Main => b"main",
        RefusalKind::Limit(Quantity::NameBytes) => b"limit name",
        RefusalKind::Limit(Quantity::Depth) => b"limit depth",
        RefusalKind::Limit(Quantity::Lexemes) => b"limit lexemes",
        RefusalKind::Limit(Quantity::Arrays) => b"limit arrays",
        RefusalKind::Limit(Quantity::Length) => b"limit length",
        RefusalKind::Limit(Quantity::CellSum) => b"limit cells",
        RefusalKind::Limit(Quantity::Procs) => b"limit procs",
        RefusalKind::Limit(Quantity::Params) => b"limit params",
        RefusalKind::Limit(Quantity::Vars) => b"limit vars",
        RefusalKind::Limit(Quantity::Statements) => b"limit statements",
        RefusalKind::Limit(Quantity::PortNumber) => b"limit port",
        RefusalKind::TooLong => b"long",
        RefusalKind::Input => b"input",
    }
}

/// The answer where a text is refused so at this line and column.
pub fn refused_at(
    alloc: Global,
    line: u64,
    column: u64,
    kind: RefusalKind,
) -> Result<Bytes, NoMemory>
    ensures { IfOk result (λ text. text ≡ refusal_text
        (record { kind = kind; place = record { line = line; column = column } })) }
{
    let mut text = Bytes::from_slice(alloc, b"refused ")?;
    put_decimal(&mut text, line)?;
    text.push(b':')?;
    put_decimal(&mut text, column)?;
    text.push(b' ')?;
    text.extend(word(kind))?;
    text.push(b'\n')?;
    Ok(text)
}

/// The answer where a text is refused at a place.
pub fn refused(alloc: Global, refusal: Refusal) -> Result<Bytes, NoMemory>
    ensures { IfOk result (λ text. text ≡ refusal_text refusal) }
{
    let Place { line, column } = refusal.place;
    refused_at(alloc, u64::from(line), u64::from(column), refusal.kind)
}

// What is printed for a faulty line of an assembly.
fn asm_word(kind: AsmKind) -> &'static [u8]
    ensures { result.now ≡ asm_word kind }
{
    match kind {
        AsmKind::Line => b"line",
        AsmKind::Number => b"number",
        AsmKind::Limit => b"limit",
        AsmKind::Version => b"version",
        AsmKind::Name => b"name",
    }
}

// A refusal that names a rule and two numbers.
fn broken(alloc: Global, rule: &[u8], first: u64, second: u64) -> Result<Bytes, NoMemory>
    ensures { IfOk result (λ text. text ≡ broken_text rule.now first second) }
{
    let mut text = Bytes::from_slice(alloc, b"refused ")?;
    text.extend(rule)?;
    text.push(b' ')?;
    put_decimal(&mut text, first)?;
    text.push(b' ')?;
    put_decimal(&mut text, second)?;
    text.push(b'\n')?;
    Ok(text)
}

// A refusal that names a block.
fn shapeless(alloc: Global, block: u32) -> Result<Bytes, NoMemory>
    ensures { IfOk result (λ text. text ≡ bad_text (bad.Shape block)) }
{
    let mut text = Bytes::from_slice(alloc, b"refused shape ")?;
    put_decimal(&mut text, u64::from(block))?;
    text.push(b'\n')?;
    Ok(text)
}

// The answer where an image isn't sound.
fn unsound(alloc: Global, bad: Bad) -> Result<Bytes, NoMemory>
    ensures { IfOk result (λ text. text ≡ bad_text bad) }
{
    match bad {
        Bad::Port { instr, port } => broken(alloc, b"port", u64::from(instr), u64::from(port)),
        Bad::Pending { first, second } => {
            broken(alloc, b"pending", u64::from(first), u64::from(second))
        }
        Bad::Link { first, second } => broken(alloc, b"link", u64::from(first), u64::from(second)),
        Bad::Ripple { first, second } => {
            broken(alloc, b"ripple", u64::from(first), u64::from(second))
        }
        Bad::Shape { block } => shapeless(alloc, block),
    }
}

// The answer where a line of an assembly is faulty.
fn faulty(alloc: Global, kind: AsmKind, line: u32) -> Result<Bytes, NoMemory>
    ensures { IfOk result (λ text. text ≡ asm_refusal_text (refusal.Text kind line)) }
{
    let mut text = Bytes::from_slice(alloc, b"refused ")?;
    put_decimal(&mut text, u64::from(line))?;
    text.push(b' ')?;
    text.extend(asm_word(kind))?;
    text.push(b'\n')?;
    Ok(text)
}

/// The answer where an assembly is refused.
pub fn asm_refused(alloc: Global, why: AsmRefusal) -> Result<Bytes, NoMemory>
    ensures { IfOk result (λ text. text ≡ asm_refusal_text why) }
{
    match why {
        AsmRefusal::Text(kind, line) => faulty(alloc, kind, line),
        AsmRefusal::Unsound(bad) => unsound(alloc, bad),
        AsmRefusal::Input(place) => {
            let kind = RefusalKind::Input;
            refused(alloc, Refusal { kind, place })
        }
    }
}
