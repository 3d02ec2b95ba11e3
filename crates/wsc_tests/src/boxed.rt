//! Whole calls with boxed ports.

ghost use Rattle.std.specs.Prelude.{◌≡◌, [], ◌∷◌, false, IfOk};
ghost use Rattle.port_set.specs.Slots.{AllOpen, contents};
ghost use Rattle.wsc_top.specs.Answers.{TellWords};

use crate::replies::{AskedCall, SOUND, call_with_any};
use fire_crew::Free;
use port_set::{Port, PortError, PortSet, Slots, TapePort};
use std::alloc::Global;
use std::sync::Wait;
use std::test::Fail;
use std::thread::Threads;
use ws_words::{NoMemory, Words};
use wsc_top::Status;

type Boxed = Box<dyn Port + Send>;

const ONE: &str = "run --workers 1";

const EIGHT: &str = "run --workers 8";

// Whether a run of this text with these ports, which then are closed, says what is wanted and ends so.
fn ends_so<P: Port + Send, R: Threads + Wait + Sync>(
    rt: &R,
    alloc: Global,
    asked: AskedCall<'_>,
    ports: Slots<P>,
    status: Status,
) -> Result<bool, NoMemory>
    requires told { TellWords (contents P.tells ports) }
    requires open { AllOpen (contents P.tells ports) }
{
    let (reply, ports) = call_with_any(rt, alloc, asked, SOUND, ports, &Free)?;
    ports.finish();
    Ok(reply.is(status))
}

// Gives the word 6, and then none.
fn giver(alloc: Global) -> Result<TapePort, NoMemory>
    ensures left { IfOk result (λ tape. tape.left ≡ 6 ∷ []) }
    ensures open { IfOk result (λ tape. tape.closed ≡ false) }
{
    let left = Words::from_slice(alloc, &[6])?;
    Ok(TapePort::new(alloc, left, Words::empty(alloc)))
}

fn gives_and_takes<R: Threads + Wait + Sync>(
    rt: &R,
    alloc: Global,
    line: &str,
) -> Result<bool, NoMemory> {
    let asked = AskedCall {
        line,
        text: b"proc main() { var x; give 2, x; print x; give 2, x; print x; give 4, x; print x; \
            take 2, 7; }",
        wanted: "6\n0\n0\nhalt\n",
    };
    let boxed: Boxed = Box::new(alloc, giver(alloc)?)?;
    let mut ports = PortSet::none();
    ports.second = Some(boxed);
    ends_so(rt, alloc, asked, ports, Status::Done)
}

#[test]
fn a_boxed_port_gives_and_takes(rt: HostRuntime) -> Result<(), Fail> {
    let alloc = rt.alloc();
    assert!(rt; gives_and_takes(&rt, alloc, ONE)?);
    assert!(rt; gives_and_takes(&rt, alloc, EIGHT)?);
    Ok(())
}

// Its second call fails.
fn failing(alloc: Global) -> Result<TapePort, NoMemory>
    ensures left { IfOk result (λ tape. tape.left ≡ []) }
    ensures open { IfOk result (λ tape. tape.closed ≡ false) }
{
    let fails = Words::from_slice(alloc, &[2])?;
    Ok(TapePort::new(alloc, Words::empty(alloc), fails))
}

fn fails<R: Threads + Wait + Sync>(rt: &R, alloc: Global, line: &str) -> Result<bool, NoMemory> {
    let asked = AskedCall {
        line,
        text: b"proc main() { take 3, 8; take 3, 9; print 1; }",
        wanted: "port 3\n",
    };
    let boxed: Boxed = Box::new(alloc, failing(alloc)?)?;
    let mut ports = PortSet::none();
    ports.third = Some(boxed);
    ends_so(rt, alloc, asked, ports, Status::PortFault(3))
}

#[test]
fn a_boxed_port_fails(rt: HostRuntime) -> Result<(), Fail> {
    let alloc = rt.alloc();
    assert!(rt; fails(&rt, alloc, ONE)?);
    assert!(rt; fails(&rt, alloc, EIGHT)?);
    Ok(())
}

// A port that finds no memory for a word.
#[derive(Drop)]
struct Full {
    closed: bool,
}

impl Port for Full {
    ghost use Rattle.std.specs.Prelude.{Some, []};

    ghost tells = { λ port. record { left = Some []; took = Some []; faults = 0; closed = port.closed } };

    fn give(&mut self) -> Result<u64, PortError> {
        Ok(0)
    }

    fn take(&mut self, _word: u64) -> Result<(), PortError> {
        Err(PortError::NoMemory)
    }

    fn close(&mut self) {
        self.closed = true;
    }
}

fn finds_no_memory<R: Threads + Wait + Sync>(
    rt: &R,
    alloc: Global,
    line: &str,
) -> Result<bool, NoMemory> {
    let asked = AskedCall {
        line,
        text: b"proc main() { print 1; take 1, 5; }",
        wanted: "",
    };
    let boxed: Boxed = Box::new(alloc, Full { closed: false })?;
    let mut ports = PortSet::none();
    ports.first = Some(boxed);
    ends_so(rt, alloc, asked, ports, Status::NoMemory)
}

#[test]
fn a_port_finds_no_memory(rt: HostRuntime) -> Result<(), Fail> {
    let alloc = rt.alloc();
    assert!(rt; finds_no_memory(&rt, alloc, ONE)?);
    assert!(rt; finds_no_memory(&rt, alloc, EIGHT)?);
    Ok(())
}
