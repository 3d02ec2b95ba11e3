//! How the parts of a run end.

ghost use Rattle.multi_wave.specs.Parts.{PortsReady, alone};

use multi_wave::{Each, Part, ThreadGate, multi_run};
use port_set::{Port, PortError, Slots};
use std::alloc::Global;
use std::sync::Wait;
use std::thread::Threads;
use store_buf::{RunEnd, RunFinish};
use ws_isa::Checked;
use ws_words::Words;

// A port of which each call fails.
#[derive(Drop)]
struct Broken {
    faults: u64,
    closed: bool,
}

impl Port for Broken {
    ghost use Rattle.std.specs.Prelude.{Some, None, []};

    ghost tells = { λ port. record {
      left = Some [];
      took = None;
      faults = port.faults;
      closed = port.closed;
    } };

    fn give(&mut self) -> Result<u64, PortError> {
        self.faults = self.faults.saturating_add(1);
        Err(PortError::Failed)
    }

    fn take(&mut self, _word: u64) -> Result<(), PortError> {
        self.faults = self.faults.saturating_add(1);
        Err(PortError::Failed)
    }

    fn close(&mut self) {
        self.closed = true;
    }
}

/// How a part ended: the first word that it printed, or 0, and how many fired, or which array or port.
#[derive(Clone, Copy, Debug, PartialEq, Eq)]
pub enum End {
    Absent,
    Done(u64, u64),
    Budget(u64, u64),
    Fault(u64, u32),
    Port(u64, u8),
    NoMemory,
}

// How a part ended.
fn finish_of(finish: &RunFinish) -> End {
    match finish {
        RunFinish::Done { printed, fired, .. } => End::Done(printed.word(0), *fired),
        RunFinish::Budget { printed, fired } => End::Budget(printed.word(0), *fired),
        RunFinish::Fault { array, printed, .. } => End::Fault(printed.word(0), *array),
        RunFinish::Port { port, printed } => End::Port(printed.word(0), *port),
        RunFinish::NoMemory => End::NoMemory,
    }
}

// The same of an end, which is released here, so that whoever has four needn't say how each is released.
fn end_of<P: Port>(end: Option<RunEnd<P>>) -> End {
    match end {
        Some(end) => finish_of(&end.finish),
        None => End::Absent,
    }
}

// The part with this image, if there is one. Each call of its port 1 fails.
fn part<'i>(alloc: Global, image: Option<&'i Checked>, budget: u64) -> Option<Part<'i, Broken>>
    ensures { PortsReady (alone ⟦<Broken as Port>⟧.tells result) }
{
    let Some(image) = image else {
        return None;
    };
    let port = Broken {
        faults: 0,
        closed: false,
    };
    Some(Part {
        image,
        input: Words::empty(alloc),
        ports: Slots {
            first: Some(port),
            second: None,
            third: None,
            fourth: None,
            fifth: None,
            sixth: None,
            seventh: None,
        },
        budget,
    })
}

/// How the parts with these images end, where each has this budget and a port 1 that fails.
pub fn run<G: ThreadGate, R: Threads + Wait + Sync>(
    rt: &R,
    alloc: Global,
    images: [Option<&Checked>; 4],
    budget: u64,
    workers: u32,
    gate: &G,
) -> [End; 4] {
    let parts = Each {
        first: part(alloc, images[0], budget),
        second: part(alloc, images[1], budget),
        third: part(alloc, images[2], budget),
        fourth: part(alloc, images[3], budget),
    };
    let ends = multi_run(rt, alloc, parts, workers.max(1).min(8), gate);
    let Each {
        first,
        second,
        third,
        fourth,
    } = ends;
    [end_of(first), end_of(second), end_of(third), end_of(fourth)]
}
