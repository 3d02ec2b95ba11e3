//! Buffers that stop.

use crate::compiled::compiled;
use crate::runs::{Answer, Past, let_go, past_of};
use crate::tapes::past_with;
use port_set::{Port, PortError, Slots, TapePort};
use std::alloc::Global;
use std::test::Fail;
use store_buf::BufFault;
use ws_isa::Checked;
use ws_words::{NoMemory, Words};

// How often each program is run.
const SEEDS: u64 = 10;

// A request is answered, or waits, and is kept then.
const KEPT: Answer = (None, Some(BufFault::Old));

// A port has found no memory.
const REFUSED: Answer = (Some(BufFault::NoMemory), Some(BufFault::Old));

// Gives and takes in turn.
const GIVES: &str =
    "proc main() { var x, y; print 5; give 2, x; take 1, x; give 2, y; take 1, y + 1; print x; }";

// The calls of ports 1 and 2 that fail, the port that has failed then, what was printed and taken by
// then, the words that port 2 has left, and those that it gave, in rising order.
struct Row {
    first: u64,
    second: u64,
    port: u8,
    printed: &'static [u64],
    took: &'static [u64],
    left: &'static [u64],
    words: &'static [u64],
}

const ROWS: &[Row] = &[
    Row {
        first: 0,
        second: 1,
        port: 2,
        printed: &[5],
        took: &[],
        left: &[6, 0, 11],
        words: &[],
    },
    Row {
        first: 1,
        second: 0,
        port: 1,
        printed: &[5],
        took: &[],
        left: &[0, 11],
        words: &[6],
    },
    Row {
        first: 0,
        second: 2,
        port: 2,
        printed: &[5],
        took: &[6],
        left: &[0, 11],
        words: &[6],
    },
    Row {
        first: 2,
        second: 0,
        port: 1,
        printed: &[5],
        took: &[6],
        left: &[11],
        words: &[0, 6],
    },
];

// Whether a tape has taken these words.
fn took_so(slot: &Option<TapePort>, words: &[u64]) -> bool {
    match slot {
        Some(tape) => tape.took() == words,
        None => false,
    }
}

// Whether a tape has these words left.
fn left_so(slot: &Option<TapePort>, words: &[u64]) -> bool {
    match slot {
        Some(tape) => tape.left() == words,
        None => false,
    }
}

// Whether a run has left what is said.
fn is_so(past: &Past<TapePort>, row: &Row) -> bool {
    past.end.printed.as_slice() == row.printed
        && past.words.as_slice() == row.words
        && took_so(&past.end.ports.first, row.took)
        && left_so(&past.end.ports.second, row.left)
}

// Whether a buffer has kept requests, then answered one so, and from then on so.
fn fails_so(past: &Past<TapePort>, fault: BufFault, stop: BufFault) -> bool {
    let stop = Some(stop);
    let answers = [KEPT, (Some(fault), stop), (stop, stop)];
    past.stop == stop && past.answers.len() >= 2 && answers.starts_with(&past.answers)
}

// Whether a buffer has reported a port that fails.
fn port_fails(past: &Past<TapePort>, port: u8) -> bool {
    fails_so(past, BufFault::Port { port }, BufFault::Stopped { port })
}

// Whether a buffer has reported an index fault.
fn index_fails(past: &Past<TapePort>, array: u32) -> bool {
    fails_so(past, BufFault::Index { array }, BufFault::Ended { array })
}

// Whether a port that fails stops the buffer.
fn port_stops(alloc: Global, image: &Checked, row: &Row, seed: u64) -> Result<bool, NoMemory> {
    let past = past_with(alloc, image, &[], (row.first, row.second), seed)?;
    let stops = port_fails(&past, row.port) && is_so(&past, row);
    let_go(past);
    Ok(stops)
}

#[test]
fn each_call_of_a_port_that_fails_stops_the_buffer(rt: HostRuntime) -> Result<(), Fail> {
    let alloc = rt.alloc();
    let image = compiled(alloc, GIVES)?;
    for row in ROWS {
        for seed in 0..SEEDS {
            let stops = port_stops(alloc, &image, row, seed)?;
            assert!(rt; stops, "{seed}");
        }
    }
    Ok(())
}

// Whether an out-of-bounds store of array 2 ends the buffer.
fn array_ends(alloc: Global, image: &Checked, seed: u64) -> Result<bool, NoMemory> {
    let past = past_with(alloc, image, &[], (0, 0), seed)?;
    let ends = index_fails(&past, 2) && past.end.printed.as_slice() == [5].as_slice();
    let_go(past);
    Ok(ends)
}

#[test]
fn an_index_fault_ends_the_buffer(rt: HostRuntime) -> Result<(), Fail> {
    let alloc = rt.alloc();
    let text = "array a[1]; array b[2]; proc main() { print 5; b[2] = 1; print 6; }";
    let image = compiled(alloc, text)?;
    for seed in 0..SEEDS {
        let ends = array_ends(alloc, &image, seed)?;
        assert!(rt; ends, "{seed}");
    }
    Ok(())
}

// A port that finds no memory at its first calls, so many.
#[derive(Drop)]
struct Scarce {
    calls: u64,
    took: u64,
    closed: bool,
}

impl Port for Scarce {
    ghost use Rattle.std.specs.Prelude.{Some, None, []};

    ghost tells = { λ port. record {
      left = Some [];
      took = None;
      faults = 0;
      closed = port.closed;
    } };

    fn give(&mut self) -> Result<u64, PortError> {
        Ok(0)
    }

    fn take(&mut self, word: u64) -> Result<(), PortError> {
        if self.calls > 0 {
            self.calls -= 1;
            return Err(PortError::NoMemory);
        }
        self.took = word;
        Ok(())
    }

    fn close(&mut self) {
        self.closed = true;
    }
}

// A run in which port 1 finds no memory at its first calls, so many.
fn starved(
    alloc: Global,
    image: &Checked,
    calls: u64,
    seed: u64,
) -> Result<Past<Scarce>, NoMemory> {
    let port = Scarce {
        calls,
        took: 0,
        closed: false,
    };
    let ports = Slots {
        first: Some(port),
        second: None,
        third: None,
        fourth: None,
        fifth: None,
        sixth: None,
        seventh: None,
    };
    past_of(alloc, image, Words::empty(alloc), ports, seed)
}

// Whether the request of a port that found no memory has waited.
fn waits(alloc: Global, image: &Checked, seed: u64) -> Result<bool, NoMemory> {
    let past = starved(alloc, image, 1_000, seed)?;
    let answers = [KEPT, REFUSED];
    Ok(
        past.stop == Some(BufFault::NoMemory)
            && past.answers.as_slice() == answers.as_slice()
            && past.end.printed.as_slice() == [5].as_slice(),
    )
}

// Whether it has waited until there was memory.
fn goes_on(alloc: Global, image: &Checked, seed: u64) -> Result<bool, NoMemory> {
    let past = starved(alloc, image, 1, seed)?;
    let answers = [KEPT, REFUSED, KEPT];
    let took = match &past.end.ports.first {
        Some(port) => port.took,
        None => 0,
    };
    Ok(
        past.stop.is_none()
            && past.answers.as_slice() == answers.as_slice()
            && past.end.printed.as_slice() == [5, 6].as_slice()
            && took == 7,
    )
}

#[test]
fn a_request_waits_while_a_port_finds_no_memory(rt: HostRuntime) -> Result<(), Fail> {
    let alloc = rt.alloc();
    let image = compiled(alloc, "proc main() { print 5; take 1, 7; print 6; }")?;
    let mut went_on = 0u32;
    for seed in 0..SEEDS {
        let waits = waits(alloc, &image, seed)?;
        assert!(rt; waits, "{seed}");
        if goes_on(alloc, &image, seed)? {
            went_on = went_on.wrapping_add(1);
        }
    }
    assert!(rt; went_on > 0);
    Ok(())
}
