//! Lists of words and of bytes, which grow.

use std::alloc::Global;
use std::test::Fail;
use ws_words::{Bytes, Cells, NoMemory, Words};

fn words(alloc: Global) -> Result<Words, NoMemory> {
    let mut words = Words::zeros(alloc, 2)?;
    words.push(7)?;
    words.copy(alloc)
}

fn cells(alloc: Global) -> Result<Cells, NoMemory> {
    let mut cells = Cells::empty(alloc);
    cells.push(words(alloc)?)?;
    cells.set(0, 1, 9);
    cells.add(0, 5)?;
    cells.copy(alloc)
}

fn bytes(alloc: Global) -> Result<Bytes, NoMemory> {
    let mut bytes = Bytes::from_slice(alloc, b"ab")?;
    bytes.push(b'c')?;
    bytes.extend(b"de")?;
    bytes.copy(alloc)
}

#[test]
fn lists_grow(rt: HostRuntime) -> Result<(), Fail> {
    let alloc = rt.alloc();
    let cells = cells(alloc)?;
    assert_eq!(rt;
        cells.get(0).map(Words::as_slice),
        Some([0, 9, 7, 5].as_slice())
    );
    assert_eq!(rt; bytes(alloc)?.as_slice(), b"abcde".as_slice());
    Ok(())
}
