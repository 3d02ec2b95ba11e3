//! Whole calls in which a gate holds workers until others have come.

use crate::crews::call_alone;
use fire_crew::Gate;
use std::alloc::Global;
use std::sync::Wait;
use std::sync::atomic::{AtomicBool, AtomicU64, Ordering};
use std::test::Fail;
use std::thread;
use std::thread::Threads;
use ws_words::NoMemory;
use wsc_top::Status;

// Which tokens a gate holds: from that number on, of every so many in a row the first few, each until all of
// these few have come, for at most so many turns of its loop.
#[derive(Clone, Copy)]
struct Hold {
    from: u64,
    every: u64,
    few: u64,
    turns: u32,
}

// A gate that holds tokens so until one has seen its others come. It counts the tokens that came and those
// that waited in vain.
#[derive(Drop)]
struct Crowd {
    hold: Hold,
    came: AtomicU64,
    met: AtomicBool,
    late: AtomicU64,
}

// How often a token that is held looks for others before it gives its processor away.
const LOOKS: u32 = 2_000;

impl Crowd {
    // None has come.
    fn new(hold: Hold) -> Crowd {
        Crowd {
            hold,
            came: AtomicU64::new(0),
            met: AtomicBool::new(false),
            late: AtomicU64::new(0),
        }
    }

    // Whether so many come within a few looks.
    fn have_come(&self, count: u64) -> bool {
        for _ in 0..LOOKS {
            if self.came.load(Ordering::SeqCst) >= count {
                return true;
            }
        }
        false
    }

    // Waits until so many have come.
    fn wait(&self, count: u64) {
        for _ in 0..self.hold.turns {
            if self.have_come(count) {
                self.met.store(true, Ordering::SeqCst);
                return;
            }
            thread::yield_now();
        }
        let _ = self.late.fetch_add(1, Ordering::SeqCst);
    }
}

impl Gate for Crowd {
    fn before(&self, _wave: u64, _instr: u32, _port: u8) {
        let number = self.came.fetch_add(1, Ordering::SeqCst);
        if number < self.hold.from || self.met.load(Ordering::SeqCst) {
            return;
        }
        let place = number.wrapping_sub(self.hold.from) % self.hold.every.max(1);
        if place.saturating_add(1) < self.hold.few {
            self.wait(number.saturating_sub(place).saturating_add(self.hold.few));
        }
    }
}

// A loop of 24 chains, which need nothing of each other, so that many tokens are in flight.
const CHAINS: &str =
    "proc main() { var a, b, c, d, e, f, g, h, i, j, k, l, m, n, o, p, q, r, s, t, u, v, w, x, y; \
    while (y < 1600) { \
    a = (a * 3 + y) ^ (a >> 1); b = (b * 5 + y) ^ (b >> 2); c = (c * 7 + y) ^ (c >> 3); \
    d = (d * 9 + y) ^ (d >> 4); e = (e * 11 + y) ^ (e >> 5); f = (f * 13 + y) ^ (f >> 6); \
    g = (g * 15 + y) ^ (g >> 7); h = (h * 17 + y) ^ (h >> 1); i = (i * 19 + y) ^ (i >> 2); \
    j = (j * 21 + y) ^ (j >> 3); k = (k * 23 + y) ^ (k >> 4); l = (l * 25 + y) ^ (l >> 5); \
    m = (m * 27 + y) ^ (m >> 6); n = (n * 29 + y) ^ (n >> 7); o = (o * 31 + y) ^ (o >> 1); \
    p = (p * 33 + y) ^ (p >> 2); q = (q * 35 + y) ^ (q >> 3); r = (r * 37 + y) ^ (r >> 4); \
    s = (s * 39 + y) ^ (s >> 5); t = (t * 41 + y) ^ (t >> 6); u = (u * 43 + y) ^ (u >> 7); \
    v = (v * 45 + y) ^ (v >> 1); w = (w * 47 + y) ^ (w >> 2); x = (x * 49 + y) ^ (x >> 3); \
    y = y + 1; } print a ^ b ^ c ^ d ^ e ^ f ^ g ^ h ^ i ^ j ^ k ^ l ^ m ^ n ^ o ^ p ^ q ^ r ^ s ^ t ^ u \
    ^ v ^ w ^ x; }";

const SUM: &str = "4801167353592936236\nhalt\n";

// Eight tokens come in at once; 7 is printed.
const PAD: &str =
    "wavescalar 1\nwave 1\nblock 1\npad 0 1.0 2.0 3.0 4.0 5.0 6.0 7.0 8.0\n1: advance -> 9.0\n\
    2: advance -> 11.0\n3: advance ->\n4: advance ->\n5: advance ->\n6: advance ->\n7: advance ->\n\
    8: advance ->\n9: const 7 -> 10.0\n10: out <., 1, 2>.1\n11: halt <1, 2, .>.2\nstop\nend\n";

// Four jobs, each of which begins with one token.
const JOBS: &str = "proc main() { print 1; }\n%job\nproc main() { print 2; }\n%job\n\
    proc main() { print 3; }\n%job\nproc main() { print 4; }\n";

const WORDS: &str = "thread 1\n1\nhalt\nthread 2\n2\nhalt\nthread 3\n3\nhalt\nthread 4\n4\nhalt\n";

// A call, what it answers, and which of its tokens are held.
#[derive(Clone, Copy)]
struct HeldCall {
    line: &'static str,
    text: &'static str,
    answer: &'static str,
    hold: Hold,
}

// How a call went: whether it answered so, whether a token that was held saw its others come, and how many
// waited in vain.
#[derive(Clone, Copy)]
struct Meeting {
    answered: bool,
    met: bool,
    late: u64,
}

// How a call with this gate goes.
fn held_call<R: Threads + Wait + Sync>(
    rt: &R,
    alloc: Global,
    held: HeldCall,
) -> Result<Meeting, NoMemory> {
    let gate = Crowd::new(held.hold);
    let reply = call_alone(rt, alloc, held.line, held.text, held.answer, &gate)?;
    Ok(Meeting {
        answered: reply.is(Status::Done),
        met: gate.met.load(Ordering::SeqCst),
        late: gate.late.load(Ordering::SeqCst),
    })
}

// The first phase of two workers brings 32,768 tokens at most, so all that is held comes behind it. A later
// phase may begin at token 266,240, or up to 65,536 tokens behind it.
const LATER: HeldCall = HeldCall {
    line: "run --workers 2",
    text: CHAINS,
    answer: SUM,
    hold: Hold {
        from: 266_240,
        every: 1_000,
        few: 2,
        turns: 30,
    },
};

// How often it is tried: where phases begin is left to the threads, and there no phase begins if few tokens
// are in flight.
const TRIES: u32 = 12;

// Whether two workers are at work at once, behind the first phase of a run, in one of a few runs.
fn are_later_at_work<R: Threads + Wait + Sync>(rt: &R, alloc: Global) -> Result<bool, NoMemory> {
    for _ in 0..TRIES {
        let meeting = held_call(rt, alloc, LATER)?;
        if !meeting.answered {
            return Ok(false);
        }
        if meeting.met {
            return Ok(true);
        }
    }
    Ok(false)
}

#[test]
fn two_workers_share_more_than_the_first_phase(rt: HostRuntime) -> Result<(), Fail> {
    let alloc = rt.alloc();
    assert!(rt; are_later_at_work(&rt, alloc)?);
    Ok(())
}

// One worker alone.
const ALONE: HeldCall = HeldCall {
    line: "run --workers 1",
    text: CHAINS,
    answer: SUM,
    hold: Hold {
        from: 0,
        every: 10_000,
        few: 2,
        turns: 2,
    },
};

#[test]
fn one_worker_waits_in_vain(rt: HostRuntime) -> Result<(), Fail> {
    let alloc = rt.alloc();
    let meeting = held_call(&rt, alloc, ALONE)?;
    assert!(rt; meeting.answered && !meeting.met && meeting.late > 0);
    Ok(())
}

// The first eight tokens wait for one another, or the first four.
const EIGHT: Hold = Hold {
    from: 0,
    every: 1_000_000,
    few: 8,
    turns: 200_000,
};

const FOUR: Hold = Hold {
    from: 0,
    every: 1_000_000,
    few: 4,
    turns: 200_000,
};

// As many tokens at once as there are workers or threads.
const AT_ONCE: &[HeldCall] = &[
    HeldCall {
        line: "exec --workers 8",
        text: PAD,
        answer: "7\nhalt\n",
        hold: EIGHT,
    },
    HeldCall {
        line: "multi --workers 8",
        text: JOBS,
        answer: WORDS,
        hold: FOUR,
    },
];

#[test]
fn as_many_workers_are_at_work_as_are_asked_for(rt: HostRuntime) -> Result<(), Fail> {
    let alloc = rt.alloc();
    for held in AT_ONCE {
        let meeting = held_call(&rt, alloc, *held)?;
        assert!(rt;
            meeting.answered && meeting.met && meeting.late == 0,
            "{}",
            held.line
        );
    }
    Ok(())
}
