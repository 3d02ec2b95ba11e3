//! The texts of answers.

ghost use Rattle.std.specs.Prelude.{◌≡◌, ◌++◌, IfOk, OnOk};
ghost use Rattle.src_ast.specs.View as view;
ghost use Rattle.run_text.specs.Texts.{array_lines, ended_text, faulted_text};
ghost use Rattle.wsc_top.specs.Texts.{turns_line, names_of, array_name, going_text};

use run_text::{done, put_array_at, put_words};
use src_ast::{Item, Program};
use std::alloc::Global;
use ws_io::put_decimal;
use ws_words::{Bytes, Cells, NoMemory, Words};

// Puts a line for each array of a program that has cells after a text, in order of declaration.
fn put_arrays(text: &mut Bytes, items: &[Item], arrays: &Cells) -> Result<(), NoMemory>
    ensures { OnOk result
        (text.new ≡ text.old ++ array_lines (names_of (view.parts items.now)) arrays.now) }
{
    let mut count = 0;
    for item in items {
        if let Item::Array { name, .. } = item {
            put_array_at(text, &name.text, arrays, count)?;
            count += 1;
        }
    }
    Ok(())
}

// Puts a line for the turns of a run after a text.
fn put_turns(text: &mut Bytes, turns: u64) -> Result<(), NoMemory>
    ensures { OnOk result (text.new ≡ text.old ++ turns_line turns) }
{
    text.extend(b"turns ")?;
    put_decimal(text, turns)?;
    text.push(b'\n')
}

/// The answer of a sequential run that completed: a line for each word, and `halt`; then,
/// where they are asked for, a line for each array, and a line for the turns.
pub fn ended(
    alloc: Global,
    memory: bool,
    stats: bool,
    program: &Program,
    words: &Words,
    arrays: &Cells,
    turns: u64,
) -> Result<Bytes, NoMemory>
    ensures { IfOk result (λ text. text ≡ ended_text memory stats
        (names_of (view.parts program.now.items.items)) words.now arrays.now (turns_line turns)) }
{
    let mut text = done(alloc, words)?;
    if memory {
        put_arrays(&mut text, &program.items, arrays)?;
    }
    if stats {
        put_turns(&mut text, turns)?;
    }
    Ok(text)
}

// Puts the name of an array after a text, by its number from 1; nothing where there is no such
// array.
fn put_array_name(text: &mut Bytes, items: &[Item], array: u32) -> Result<(), NoMemory>
    ensures { OnOk result
        (text.new ≡ text.old ++ array_name (names_of (view.parts items.now)) array) }
{
    let mut before = array.saturating_sub(1);
    for item in items {
        if let Item::Array { name, .. } = item {
            if before == 0 {
                return text.extend(name.text.as_slice());
            }
            before -= 1;
        }
    }
    Ok(())
}

/// The answer of a sequential run that met an index fault on the array of this number, counted from
/// 1: a line for each word, and `fault` with the array's name; then, where they are asked for, a
/// line for each array.
pub fn faulted(
    alloc: Global,
    memory: bool,
    program: &Program,
    array: u32,
    words: &Words,
    arrays: &Cells,
) -> Result<Bytes, NoMemory>
    ensures { IfOk result (λ text. text ≡ faulted_text memory
        (array_name (names_of (view.parts program.now.items.items)) array)
        (names_of (view.parts program.now.items.items)) words.now arrays.now) }
{
    let mut text = Bytes::empty(alloc);
    put_words(&mut text, words)?;
    text.extend(b"fault ")?;
    put_array_name(&mut text, &program.items, array)?;
    text.push(b'\n')?;
    if memory {
        put_arrays(&mut text, &program.items, arrays)?;
    }
    Ok(text)
}

/// The answer of a sequential run that needs a further turn: a line for each word, and `turns`.
pub fn going(alloc: Global, words: &Words) -> Result<Bytes, NoMemory>
    ensures { IfOk result (λ text. text ≡ going_text words.now) }
{
    let mut text = Bytes::empty(alloc);
    put_words(&mut text, words)?;
    text.extend(b"turns\n")?;
    Ok(text)
}
