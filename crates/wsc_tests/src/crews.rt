//! Whole calls whose images a crew runs.

use crate::replies::{AskedCall, CallReply, SOUND, call};
use fire_crew::{Free, Gate};
use std::alloc::Global;
use std::sync::Wait;
use std::sync::atomic::{AtomicBool, Ordering};
use std::test::Fail;
use std::thread;
use std::thread::Threads;
use ws_words::NoMemory;
use wsc_top::Status;

// A call without ports, where this is to go out.
pub fn call_alone<G: Gate, R: Threads + Wait + Sync>(
    rt: &R,
    alloc: Global,
    line: &str,
    text: &str,
    wanted: &str,
    gate: &G,
) -> Result<CallReply, NoMemory> {
    let asked = AskedCall {
        line,
        text: text.as_bytes(),
        wanted,
    };
    call(rt, alloc, asked, SOUND, gate)
}

// Three tokens come in at once; 7 is printed.
const IMAGE: &str = "wavescalar 1\nwave 1\nblock 1\npad 0 1.0 2.0 3.0\n1: advance -> 4.0\n\
    2: advance -> 6.0\n3: advance ->\n4: const 7 -> 5.0\n5: out <., 1, 2>.1\n\
    6: halt <1, 2, .>.2\nstop\nend\n";

// A gate that holds the token of one of the first three instructions of that image until those of the
// other two have come, and how it was called.
#[derive(Drop)]
struct Held {
    instr: u32,
    turns: u32,
    came: [AtomicBool; 3],
    late: AtomicBool,
}

impl Held {
    // Holds the token of this instruction, for at most so many turns of its loop.
    fn new(instr: u32, turns: u32) -> Held {
        Held {
            instr,
            turns,
            came: [
                AtomicBool::new(false),
                AtomicBool::new(false),
                AtomicBool::new(false),
            ],
            late: AtomicBool::new(false),
        }
    }

    // Whether all three have come.
    fn have_come(&self) -> bool {
        self.came.iter().all(|came| came.load(Ordering::SeqCst))
    }

    // Whether its turns have passed before all three had come.
    fn was_late(&self) -> bool {
        self.late.load(Ordering::SeqCst)
    }

    // Waits until all three have come.
    fn hold(&self) {
        for _ in 0..self.turns {
            if self.have_come() {
                return;
            }
            thread::yield_now();
        }
        self.late.store(true, Ordering::SeqCst);
    }
}

impl Gate for Held {
    fn before(&self, wave: u64, instr: u32, port: u8) {
        if wave != 0 || port != 0 || instr == 0 {
            return;
        }
        if let Some(came) = self.came.get(instr as usize - 1) {
            came.store(true, Ordering::SeqCst);
            if instr == self.instr {
                self.hold();
            }
        }
    }
}

// Whether a gate released its token of that image before the others had come; nothing if the image
// wasn't run as it should be.
fn lateness(reply: CallReply, gate: &Held) -> Option<bool> {
    if reply.said && gate.have_come() {
        Some(gate.was_late())
    } else {
        None
    }
}

// The same of a run with this line, where the token of this instruction is held for so many turns.
fn was_late<R: Threads + Wait + Sync>(
    rt: &R,
    alloc: Global,
    line: &str,
    instr: u32,
    turns: u32,
) -> Result<Option<bool>, NoMemory> {
    let gate = Held::new(instr, turns);
    let reply = call_alone(rt, alloc, line, IMAGE, "7\nhalt\nfirings 6\n", &gate)?;
    Ok(lateness(reply, &gate))
}

// A worker whose token is held leaves the other tokens of its seat to the other worker.
#[test]
fn one_worker_steals_from_another(rt: HostRuntime) -> Result<(), Fail> {
    let alloc = rt.alloc();
    let line = "exec --workers 2 --budget 6 --stats";
    for instr in 1..4 {
        assert_eq!(rt; was_late(&rt, alloc, line, instr, 1_000_000)?, Some(false));
    }
    Ok(())
}

// One worker alone waits in vain, but where the token that is held comes last.
#[test]
fn one_worker_alone_waits_in_vain(rt: HostRuntime) -> Result<(), Fail> {
    let alloc = rt.alloc();
    let line = "exec --workers 1 --budget 6 --stats";
    let mut late = 0u32;
    for instr in 1..4 {
        match was_late(&rt, alloc, line, instr, 1_000)? {
            Some(true) => late = late.wrapping_add(1),
            Some(false) => {}
            None => late = 9,
        }
    }
    assert_eq!(rt; late, 2);
    Ok(())
}

pub const JOB: &str = "proc main() { print 7; }";

// Three lines that differ in their workers, a text, what is answered, and the status.
struct Row {
    lines: &'static [&'static str],
    text: &'static str,
    answer: &'static str,
    status: Status,
}

const RUNS: &[&str] = &["run --workers 1", "run --workers 2", "run --workers 8"];

const ROWS: &[Row] = &[
    Row {
        lines: RUNS,
        text: "proc main() { var i, s; i = 1; while (i <= 10) { s = s + i; i = i + 1; } print s; }",
        answer: "55\nhalt\n",
        status: Status::Done,
    },
    Row {
        lines: RUNS,
        text: "array a[4]; proc main() { a[1] = 3; a[1] = a[1] + 4; print a[1]; }",
        answer: "7\nhalt\n",
        status: Status::Done,
    },
    Row {
        lines: &[
            "run --budget 0 --workers 1",
            "run --budget 0 --workers 2",
            "run --budget 0 --workers 8",
        ],
        text: JOB,
        answer: "budget\n",
        status: Status::Budget,
    },
    Row {
        lines: &[
            "bench 0 --workers 1",
            "bench 0 --workers 2",
            "bench 0 --workers 8",
        ],
        text: "",
        answer: "halt\nwords 4\nsum 10058\n",
        status: Status::Done,
    },
    Row {
        lines: &[
            "bench 2 --workers 1",
            "bench 2 --workers 2",
            "bench 2 --workers 8",
        ],
        text: "",
        answer: "halt\nwords 16\nsum 152513\n",
        status: Status::Done,
    },
];

// Whether this is answered, with this status, and an image comes back.
fn is_answered<R: Threads + Wait + Sync>(
    rt: &R,
    alloc: Global,
    line: &str,
    row: &Row,
) -> Result<bool, NoMemory> {
    let reply = call_alone(rt, alloc, line, row.text, row.answer, &Free)?;
    Ok(reply.is(row.status) && reply.image)
}

#[test]
fn any_number_of_workers_answers_alike(rt: HostRuntime) -> Result<(), Fail> {
    let alloc = rt.alloc();
    for row in ROWS {
        for line in row.lines {
            assert!(rt; is_answered(&rt, alloc, line, row)?, "{line}");
        }
    }
    Ok(())
}

// An image that prints 7, and the first event of its run.
const REPLAYS: &str = "wavescalar 1\nwave 1\nblock 1\npad 0 1.0\n1: advance -> 2.0 4.0\n\
    2: const 7 -> 3.0\n3: out <., 1, 2>.1\n4: halt <1, 2, .>.2\nstop\nend\n%input\n%trace\n\
    match 0 1 0\n";

// A line and a text, and whether an image comes back.
const IMAGES: &[(&str, &str, bool)] = &[
    ("run", JOB, true),
    ("compile", JOB, true),
    ("plain", JOB, false),
    ("format", JOB, false),
    ("exec", IMAGE, true),
    ("decouple", IMAGE, true),
    ("grid", IMAGE, true),
    ("trace", IMAGE, true),
    ("check", IMAGE, false),
    ("list", IMAGE, false),
    ("replay", REPLAYS, true),
    ("bench 0", "", true),
    ("gen 0", "", false),
    ("run", "proc main() { print; }", false),
    ("exec", "wavescalar 1\nend\n", false),
    ("Run", JOB, false),
];

// Whether an image comes back.
fn gives_image<R: Threads + Wait + Sync>(
    rt: &R,
    alloc: Global,
    line: &str,
    text: &str,
) -> Result<bool, NoMemory> {
    Ok(call_alone(rt, alloc, line, text, "", &Free)?.image)
}

#[test]
fn an_image_that_was_run_or_printed_comes_back(rt: HostRuntime) -> Result<(), Fail> {
    let alloc = rt.alloc();
    for (line, text, image) in IMAGES {
        assert!(rt; gives_image(&rt, alloc, line, text)? == *image, "{line}");
    }
    Ok(())
}
