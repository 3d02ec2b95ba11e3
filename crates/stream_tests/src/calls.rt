//! Whole calls over memory.

ghost use Rattle.std.specs.Prelude.{◌<◌};

use std::alloc::Global;
use std::test::Fail;
use stream_run::Nobody;
use stream_top::wss;
use ws_io::{MemSink, MemSource};
use ws_words::{Bytes, NoMemory, Words};

// Prints 0, 1 and 2, stores 7 and prints it: 42 instances fire.
const LOOP: &[u8] =
    b"wavescalar 1\narray a 2\nwave 1\nblock 1\npad 0 1.0\n1: advance -> 5.0 2.0\ngo 2\n\
    block 2\n2: merge -> 4.0 3.0\n3: nop <., 1, .>.0\ngo 3\nwave 2\nblock 3\n4: advance -> 6.0 8.0\n\
    5: advance -> 7.0 9.0\n6: const 3 -> 7.1\n7: lt -> 8.1 9.1\n8: steer -> 11.0 4.0 | 13.0 14.0 18.0\n\
    9: steer -> 10.0 12.0 |\nif 7 4 5\nblock 4\n10: out <., 1, .>.1\n11: const 1 -> 12.1\n12: add -> 5.0\n\
    go 3\nblock 5\n13: const 1 -> 15.0 16.0\n14: const 7 -> 15.1\n15: store 1 <., 2, 3>.2\n\
    16: load 1 <2, 3, 4>.2 -> 17.0\n17: out <3, 4, 5>.4\n18: halt <4, 5, .>.5\nstop\nend\n";

// Prints 0, 1, 2 and so on without end, a word in eight firings.
const ENDLESS: &[u8] =
    b"wavescalar 1\nwave 1\nblock 1\npad 0 1.0\n1: advance -> 5.0 2.0\ngo 2\nblock 2\n2: merge -> 4.0 3.0\n\
    3: nop <., 1, .>.0\ngo 3\nwave 2\nblock 3\n4: advance -> 6.0 7.0\n5: advance -> 8.0\n\
    6: const 1 -> 7.1 8.1\n7: steer -> 10.0 4.0 | 12.0\n8: steer -> 9.0 11.0 |\nif 6 4 5\nblock 4\n\
    9: out <., 1, .>.1\n10: const 1 -> 11.1\n11: add -> 5.0\ngo 3\nblock 5\n12: halt <., 2, .>.2\n\
    stop\nend\n";

// What is asked of the program: its words, which spaces separate, and what it reads.
#[derive(Clone, Copy)]
struct Asked<'a> {
    line: &'a str,
    text: &'a [u8],
}

// How many bytes a call of the source or the sink moves, and which of their calls fail, counted from 1.
#[derive(Clone, Copy)]
struct Ends {
    piece: usize,
    read_fault: u64,
    write_fault: u64,
}

const SOUND: Ends = Ends {
    piece: 100_000,
    read_fault: 0,
    write_fault: 0,
};

fn words_of(alloc: Global, line: &str) -> Result<Vec<String>, NoMemory> {
    let mut words = Vec::new(alloc);
    for word in line.split(' ') {
        if !word.is_empty() {
            words.push(String::from_str(alloc, word)?)?;
        }
    }
    Ok(words)
}

// The status code of a call, and what went out.
fn heard(alloc: Global, asked: Asked<'_>, ends: Ends) -> Result<(u8, Bytes), NoMemory>
    requires { 0 < ends.piece }
{
    let words = words_of(alloc, asked.line)?;
    let read_faults = Words::from_slice(alloc, &[ends.read_fault])?;
    let mut source = MemSource::new(
        Bytes::from_slice(alloc, asked.text)?,
        ends.piece,
        read_faults,
    );
    let write_faults = Words::from_slice(alloc, &[ends.write_fault])?;
    let mut sink = MemSink::new(alloc, ends.piece, write_faults)?;
    let status = wss(alloc, &words, &mut source, &mut sink, &mut Nobody);
    Ok((status.code(), Bytes::from_slice(alloc, sink.held())?))
}

// Whether a call ends with this code and writes this.
fn comes(alloc: Global, asked: Asked<'_>, code: u8, wanted: &[u8]) -> Result<bool, NoMemory> {
    let (found, told) = heard(alloc, asked, SOUND)?;
    Ok(found == code && told.as_slice() == wanted)
}

// Whether a call with these words that reads LOOP does.
fn loops(alloc: Global, line: &str, code: u8, wanted: &[u8]) -> Result<bool, NoMemory> {
    comes(alloc, Asked { line, text: LOOP }, code, wanted)
}

#[test]
fn a_run_is_told(rt: HostRuntime) -> Result<(), Fail> {
    let alloc = rt.alloc();
    assert!(rt; loops(alloc, "", 0, b"0\n1\n2\n7\nhalt\n")?);
    let all = b"0\n1\n2\n7\nhalt\na = [0, 7]\nfirings 42\n";
    assert!(rt;
        loops(
            alloc,
            "--stats --memory --budget 18446744073709551615",
            0,
            all
        )?
    );
    assert!(rt; loops(alloc, "--budget=2", 3, b"budget\n")?);
    Ok(())
}

#[test]
fn other_words_and_texts_are_refused(rt: HostRuntime) -> Result<(), Fail> {
    let alloc = rt.alloc();
    let usage = b"usage: wss [--budget N] [--memory] [--stats]\n";
    assert!(rt; loops(alloc, "--budget 18446744073709551616", 1, usage)?);
    assert!(rt; loops(alloc, "--stats --stats", 1, usage)?);
    assert!(rt; loops(alloc, "exec", 1, usage)?);
    let old = Asked {
        line: "",
        text: b"wavescalar 3\n",
    };
    assert!(rt; comes(alloc, old, 2, b"refused 1 version\n")?);
    Ok(())
}

// Whether a call of which so many writes succeed, a byte each, and then none, has written a prefix.
fn cut(alloc: Global, fault: u64) -> Result<bool, NoMemory> {
    let asked = Asked {
        line: "",
        text: LOOP,
    };
    let ends = Ends {
        piece: 1,
        read_fault: 0,
        write_fault: fault,
    };
    let (code, told) = heard(alloc, asked, ends)?;
    Ok(code == 5 && b"0\n1\n2\n7\nhalt\n".starts_with(told.as_slice()))
}

// 13 bytes, and two flushes.
#[test]
fn each_write_may_fail(rt: HostRuntime) -> Result<(), Fail> {
    let alloc = rt.alloc();
    for fault in 1..16u64 {
        assert!(rt; cut(alloc, fault)?);
    }
    Ok(())
}

// Whether a run without end, whose call of the sink with this number fails, has written by then what one with
// this budget writes in front of its last line.
fn keeps_up(alloc: Global, fault: u64, budget: &str) -> Result<bool, NoMemory> {
    let endless = Asked {
        line: "",
        text: ENDLESS,
    };
    let ends = Ends {
        write_fault: fault,
        ..SOUND
    };
    let (code, mut told) = heard(alloc, endless, ends)?;
    told.extend(b"budget\n")?;
    let spent = Asked {
        line: budget,
        text: ENDLESS,
    };
    Ok(code == 5 && comes(alloc, spent, 3, told.as_slice())?)
}

// Each slice of 1,024 firings is a write and a flush.
#[test]
fn words_go_out_while_the_run_goes_on(rt: HostRuntime) -> Result<(), Fail> {
    let alloc = rt.alloc();
    assert!(rt; keeps_up(alloc, 1, "--budget 0")?);
    assert!(rt; keeps_up(alloc, 3, "--budget 1024")?);
    assert!(rt; keeps_up(alloc, 5, "--budget 2048")?);
    Ok(())
}

#[test]
fn a_read_that_fails_is_told(rt: HostRuntime) -> Result<(), Fail> {
    let alloc = rt.alloc();
    let asked = Asked {
        line: "",
        text: LOOP,
    };
    let ends = Ends {
        read_fault: 1,
        ..SOUND
    };
    let (code, told) = heard(alloc, asked, ends)?;
    assert!(rt; code == 4 && told.as_slice() == b"fault read\n".as_slice());
    Ok(())
}
