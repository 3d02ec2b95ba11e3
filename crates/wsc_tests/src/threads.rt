//! Whole calls with several threads, of which the first has the ports.

use crate::crews::call_alone;
use crate::replies::{AskedCall, call_with};
use crate::tapes::{LEFT, TapeRow, TapeTable, first_wrong, tapes};
use fire_crew::Gate;
use std::alloc::Global;
use std::sync::Wait;
use std::sync::atomic::{AtomicBool, AtomicU64, Ordering};
use std::test::Fail;
use std::thread;
use std::thread::Threads;
use ws_words::NoMemory;
use wsc_top::Status;

// Thread 1 uses ports 1 and 2; thread 2 never ends; thread 3 meets an index fault; and thread 4 gives
// words to a port that it doesn't have.
const JOBS: &str = "proc main() { var x; give 1, x; print x; take 2, x + 1; give 1, x; print x; }
%job
proc main() { print 1; while (1) { } }
%job
array a[1]; proc main() { print 2; a[1] = 2; }
%job
proc main() { var x; x = 3; take 1, 9; give 1, x; print x; }
";

// Rows as of ports.
const ROWS: &[TapeRow] = &[
    (
        [0, 0, 0],
        "thread 1\n5\n6\nhalt\nthread 2\n1\nbudget\nthread 3\n2\nfault a\nthread 4\n0\nhalt\n",
        Status::Budget,
        [&[7], &[], &[40], &[6], &[11], &[]],
    ),
    (
        [2, 0, 0],
        "thread 1\n5\nport 1\nthread 2\n1\nbudget\nthread 3\n2\nfault a\nthread 4\n0\nhalt\n",
        Status::PortFault(1),
        [&[6, 7], &[], &[40], &[6], &[11], &[]],
    ),
    (
        [0, 1, 0],
        "thread 1\n5\nport 2\nthread 2\n1\nbudget\nthread 3\n2\nfault a\nthread 4\n0\nhalt\n",
        Status::PortFault(2),
        [&[6, 7], &[], &[40], &[], &[11], &[]],
    ),
];

const TABLE: TapeTable = TapeTable {
    text: JOBS,
    left: LEFT,
    rows: ROWS,
};

const LINES: &[&str] = &[
    "multi --budget 3000",
    "multi --budget 3000 --workers 2",
    "multi --budget 3000 --workers 8",
];

// Each thread ends as it does alone, however the others end.
#[test]
fn no_thread_ends_another(rt: HostRuntime) -> Result<(), Fail> {
    let alloc = rt.alloc();
    for line in LINES {
        assert_eq!(rt; first_wrong(&rt, alloc, line, &TABLE, 4)?, None);
    }
    Ok(())
}

// Whether a call ends so, with no image of a thread, and this of an image.
fn has_no_threads<R: Threads + Wait + Sync>(
    rt: &R,
    alloc: Global,
    asked: AskedCall<'_>,
    status: Status,
    image: bool,
) -> Result<bool, NoMemory> {
    let (reply, _) = call_with(rt, alloc, asked, tapes(alloc, LEFT, [0, 0, 0])?)?;
    Ok(reply.is(status) && reply.threads == 0 && reply.image == image)
}

// A text that is refused has no image, and neither has another command's answer one for a thread.
#[test]
fn no_threads_without_jobs(rt: HostRuntime) -> Result<(), Fail> {
    let alloc = rt.alloc();
    let refused = AskedCall {
        line: "multi",
        text: b"proc main() { print 7; }\n%job\nproc main() { print x; }\n",
        wanted: "refused 3:21 unknown\n",
    };
    assert!(rt; has_no_threads(&rt, alloc, refused, Status::Refused, false)?);
    let run = AskedCall {
        line: "run",
        text: b"proc main() { print 7; }",
        wanted: "7\nhalt\n",
    };
    assert!(rt; has_no_threads(&rt, alloc, run, Status::Done, true)?);
    Ok(())
}

// A gate that holds the first token of the first of two threads with one image until that of the other has
// come, for at most so many turns of its loop, and whether these passed before.
#[derive(Drop)]
struct Meeting {
    came: AtomicU64,
    late: AtomicBool,
}

const TURNS: u32 = 1_000_000;

impl Meeting {
    // Whether both have come, and the first didn't wait in vain.
    fn was_held(&self) -> bool {
        self.came.load(Ordering::SeqCst) == 2 && !self.late.load(Ordering::SeqCst)
    }

    // Waits until the second has come.
    fn hold(&self) {
        for _ in 0..TURNS {
            if self.came.load(Ordering::SeqCst) > 1 {
                return;
            }
            thread::yield_now();
        }
        self.late.store(true, Ordering::SeqCst);
    }
}

impl Gate for Meeting {
    fn before(&self, wave: u64, instr: u32, port: u8) {
        if wave == 0 && instr == 1 && port == 0 && self.came.fetch_add(1, Ordering::SeqCst) == 0 {
            self.hold();
        }
    }
}

// One job twice.
const TWICE: &str = "proc main() { print 7; }\n%job\nproc main() { print 7; }\n";

const SEVENS: &str = "thread 1\n7\nhalt\nthread 2\n7\nhalt\n";

// Whether two workers of the command bring the first tokens of two threads at the same time.
fn meet<R: Threads + Wait + Sync>(rt: &R, alloc: Global) -> Result<bool, NoMemory> {
    let gate = Meeting {
        came: AtomicU64::new(0),
        late: AtomicBool::new(false),
    };
    let reply = call_alone(rt, alloc, "multi --workers 2", TWICE, SEVENS, &gate)?;
    Ok(reply.is(Status::Done) && gate.was_held())
}

#[test]
fn threads_of_one_call_run_side_by_side(rt: HostRuntime) -> Result<(), Fail> {
    let alloc = rt.alloc();
    assert!(rt; meet(&rt, alloc)?);
    Ok(())
}
