//! Whole calls with ports: tapes that give words, keep what they take, and fail at a call.

ghost use Rattle.std.specs.Prelude.{◌≡◌, false, IfOk};
ghost use Rattle.std.specs.List.{AllByRecursion};
ghost use Rattle.port_set.specs.Slots.{IsOpen, contents};
ghost use Rattle.port_set.specs.Tape.{tape_tells};

use crate::replies::{AskedCall, call_with};
use port_set::{Slots, TapePort};
use std::alloc::Global;
use std::sync::Wait;
use std::test::Fail;
use std::thread::Threads;
use ws_words::{NoMemory, Words};
use wsc_top::Status;

// A tape that has these words left, and whose call with this number, counted from 1, fails.
fn tape(alloc: Global, left: &[u64], fails: u64) -> Result<TapePort, NoMemory>
    ensures { IfOk result (λ tape. tape.closed ≡ false) }
{
    Ok(TapePort::new(
        alloc,
        Words::from_slice(alloc, left)?,
        Words::from_slice(alloc, &[fails])?,
    ))
}

// What tapes in the first three slots have left.
pub type TapesLeft = [&'static [u64]; 3];

// Such tapes, with one call of each that fails.
pub fn tapes(alloc: Global, left: TapesLeft, fails: [u64; 3]) -> Result<Slots<TapePort>, NoMemory>
    ensures { IfOk result (λ ports. AllByRecursion IsOpen (contents tape_tells ports)) }
{
    let first = tape(alloc, left[0], fails[0])?;
    let second = tape(alloc, left[1], fails[1])?;
    let third = tape(alloc, left[2], fails[2])?;
    Ok(Slots {
        first: Some(first),
        second: Some(second),
        third: Some(third),
        fourth: None,
        fifth: None,
        sixth: None,
        seventh: None,
    })
}

// Of each of the first three ports the words that it has left, and those that it took.
type Lists = [&'static [u64]; 6];

// Whether the tape in a slot has left and took these words.
fn is_at(slot: &Option<TapePort>, left: &[u64], took: &[u64]) -> bool {
    match slot {
        Some(tape) => tape.left() == left && tape.took() == took,
        None => false,
    }
}

fn are_at(ports: &Slots<TapePort>, lists: &Lists) -> bool {
    is_at(&ports.first, lists[0], lists[1])
        && is_at(&ports.second, lists[2], lists[3])
        && is_at(&ports.third, lists[4], lists[5])
}

// How often the tape in a slot has failed.
fn faults_in(slot: &Option<TapePort>) -> u64 {
    match slot {
        Some(tape) => tape.faults(),
        None => 0,
    }
}

// How often tapes have failed, all together.
fn faults(ports: &Slots<TapePort>) -> u64 {
    faults_in(&ports.first)
        .wrapping_add(faults_in(&ports.second))
        .wrapping_add(faults_in(&ports.third))
}

const ONE: &str = "run --workers 1";

const FOUR: &str = "run --workers 4";

// Port 1 gives, gives and takes; port 2 takes three times; port 3 gives; slot 5 is empty.
const JOB: &str = "proc main() { var x, y; give 1, x; print x; take 2, x + 1; give 1, y; \
    take 1, x * y; print y; take 2, y + 10; take 5, 9; give 3, x; print x; take 2, x + y; \
    print 8; }";

// Of each port the number of the call that fails; what goes out, the status, and where the ports are.
pub type TapeRow = ([u64; 3], &'static str, Status, Lists);

// A job, what the ports have left before it, and its rows.
pub struct TapeTable {
    pub text: &'static str,
    pub left: TapesLeft,
    pub rows: &'static [TapeRow],
}

pub const LEFT: TapesLeft = [&[5, 6, 7], &[40], &[11]];

const ROWS: &[TapeRow] = &[
    (
        [4, 4, 2],
        "5\n6\n11\n8\nhalt\n",
        Status::Done,
        [&[7], &[30], &[40], &[6, 16, 17], &[], &[]],
    ),
    (
        [1, 0, 0],
        "port 1\n",
        Status::PortFault(1),
        [&[5, 6, 7], &[], &[40], &[], &[11], &[]],
    ),
    (
        [0, 1, 0],
        "5\nport 2\n",
        Status::PortFault(2),
        [&[6, 7], &[], &[40], &[], &[11], &[]],
    ),
    (
        [2, 0, 0],
        "5\nport 1\n",
        Status::PortFault(1),
        [&[6, 7], &[], &[40], &[6], &[11], &[]],
    ),
    (
        [3, 0, 0],
        "5\nport 1\n",
        Status::PortFault(1),
        [&[7], &[], &[40], &[6], &[11], &[]],
    ),
    (
        [0, 2, 0],
        "5\n6\nport 2\n",
        Status::PortFault(2),
        [&[7], &[30], &[40], &[6], &[11], &[]],
    ),
    (
        [0, 0, 1],
        "5\n6\nport 3\n",
        Status::PortFault(3),
        [&[7], &[30], &[40], &[6, 16], &[11], &[]],
    ),
    (
        [0, 3, 0],
        "5\n6\n11\nport 2\n",
        Status::PortFault(2),
        [&[7], &[30], &[40], &[6, 16], &[], &[]],
    ),
    (
        [2, 2, 1],
        "5\nport 1\n",
        Status::PortFault(1),
        [&[6, 7], &[], &[40], &[6], &[11], &[]],
    ),
];

// Port 1 gives a word that port 2 takes, port 2 takes 5, and port 1 gives a word that is printed.
const PASSES: &str = "proc main() { var x; give 1, x; take 2, x; take 2, 5; give 1, x; print x; }";

const TWO_LEFT: TapesLeft = [&[4, 6], &[], &[]];

const TABLES: &[TapeTable] = &[
    TapeTable {
        text: JOB,
        left: LEFT,
        rows: ROWS,
    },
    TapeTable {
        text: PASSES,
        left: TWO_LEFT,
        rows: &[
            (
                [0, 0, 0],
                "6\nhalt\n",
                Status::Done,
                [&[], &[], &[], &[4, 5], &[], &[]],
            ),
            (
                [1, 0, 0],
                "port 1\n",
                Status::PortFault(1),
                [&[4, 6], &[], &[], &[], &[], &[]],
            ),
            (
                [2, 0, 0],
                "port 1\n",
                Status::PortFault(1),
                [&[6], &[], &[], &[4, 5], &[], &[]],
            ),
            (
                [0, 1, 0],
                "port 2\n",
                Status::PortFault(2),
                [&[6], &[], &[], &[], &[], &[]],
            ),
            (
                [0, 2, 0],
                "port 2\n",
                Status::PortFault(2),
                [&[6], &[], &[], &[4], &[], &[]],
            ),
        ],
    },
    TapeTable {
        text: "proc main() { take 3, 8; take 3, 9; print 1; }",
        left: [&[], &[], &[]],
        rows: &[(
            [0, 0, 2],
            "port 3\n",
            Status::PortFault(3),
            [&[], &[], &[], &[], &[], &[8]],
        )],
    },
    TapeTable {
        text: "proc main() { var x; give 2, x; print x; give 2, x; print x; give 4, x; print x; take 2, 7; }",
        left: [&[], &[6], &[]],
        rows: &[(
            [0, 0, 0],
            "6\n0\n0\nhalt\n",
            Status::Done,
            [&[], &[], &[], &[7], &[], &[]],
        )],
    },
];

// Whether a call ends as a row says, and hands so many images of threads back, or if there are none, one
// image.
fn ends_so<R: Threads + Wait + Sync>(
    rt: &R,
    alloc: Global,
    asked: AskedCall<'_>,
    left: TapesLeft,
    row: &TapeRow,
    threads: usize,
) -> Result<bool, NoMemory> {
    let (fails, _, status, lists) = row;
    let failed = match status {
        Status::PortFault(_) => 1,
        _ => 0,
    };
    let (reply, ports) = call_with(rt, alloc, asked, tapes(alloc, left, *fails)?)?;
    let images = reply.threads == threads && reply.image == (threads == 0);
    Ok(reply.is(*status) && images && are_at(&ports, lists) && faults(&ports) == failed)
}

// What the first call should say that doesn't end as its row says.
pub fn first_wrong<R: Threads + Wait + Sync>(
    rt: &R,
    alloc: Global,
    line: &str,
    table: &TapeTable,
    threads: usize,
) -> Result<Option<&'static str>, NoMemory> {
    for row in table.rows {
        let asked = AskedCall {
            line,
            text: table.text.as_bytes(),
            wanted: row.1,
        };
        if !ends_so(rt, alloc, asked, table.left, row, threads)? {
            return Ok(Some(row.1));
        }
    }
    Ok(None)
}

// A run ends at the first call of a port that fails, with what came before it.
#[test]
fn ports_give_and_take_until_one_fails(rt: HostRuntime) -> Result<(), Fail> {
    let alloc = rt.alloc();
    for table in TABLES {
        assert_eq!(rt; first_wrong(&rt, alloc, ONE, table, 0)?, None);
        assert_eq!(rt; first_wrong(&rt, alloc, FOUR, table, 0)?, None);
    }
    Ok(())
}

// Puts a tape into slot 1, and hands out what was there.
fn swapped(ports: &mut Slots<TapePort>, tape: TapePort) -> Option<TapePort>
    requires open { AllByRecursion IsOpen (contents tape_tells ports.old) }
    requires tape { tape.closed ≡ false }
    ensures { AllByRecursion IsOpen (contents tape_tells ports.new) }
{
    ports.swap(1, Some(tape))
}

// A word from port 1 goes to port 2.
const STEP: &str = "proc main() { var x; give 1, x; take 2, x; print x; }";

// Whether a run of a job answers so, and the ports that it hands back.
fn stepped<R: Threads + Wait + Sync>(
    rt: &R,
    alloc: Global,
    asked: AskedCall<'_>,
    ports: Slots<TapePort>,
) -> Result<(bool, Slots<TapePort>), NoMemory>
    requires { AllByRecursion IsOpen (contents tape_tells ports) }
    ensures { IfOk result (λ answer. AllByRecursion IsOpen (contents tape_tells answer.1)) }
{
    let (reply, ports) = call_with(rt, alloc, asked, ports)?;
    Ok((reply.said, ports))
}

// What is asked of a run of a job.
fn asked<'a>(line: &'a str, text: &'a str, wanted: &'a str) -> AskedCall<'a> {
    AskedCall {
        line,
        text: text.as_bytes(),
        wanted,
    }
}

// Whether a run goes on, with another tape in slot 1.
fn goes_on_with<R: Threads + Wait + Sync>(
    rt: &R,
    alloc: Global,
    line: &str,
    ports: Slots<TapePort>,
) -> Result<bool, NoMemory>
    requires { AllByRecursion IsOpen (contents tape_tells ports) }
{
    let mut ports = ports;
    let other = tape(alloc, &[9], 0)?;
    let old = is_at(&swapped(&mut ports, other), &[6], &[]);
    let (zero, ports) = stepped(rt, alloc, asked(line, PASSES, "0\nhalt\n"), ports)?;
    Ok(old && zero && are_at(&ports, &[&[], &[], &[], &[4, 5, 9, 5], &[], &[]]))
}

// Two runs over the same ports, but for the one that fails in the first, which is swapped.
fn goes_on<R: Threads + Wait + Sync>(rt: &R, alloc: Global, line: &str) -> Result<bool, NoMemory> {
    let ports = tapes(alloc, TWO_LEFT, [2, 0, 0])?;
    let (failed, ports) = stepped(rt, alloc, asked(line, PASSES, "port 1\n"), ports)?;
    Ok(goes_on_with(rt, alloc, line, ports)? && failed)
}

// Two runs over the same ports, where port 2 fails in the first.
fn goes_on_after_a_fault<R: Threads + Wait + Sync>(
    rt: &R,
    alloc: Global,
    line: &str,
) -> Result<bool, NoMemory> {
    let ports = tapes(alloc, LEFT, [0, 1, 0])?;
    let (failed, ports) = stepped(rt, alloc, asked(line, STEP, "port 2\n"), ports)?;
    let (six, ports) = stepped(rt, alloc, asked(line, STEP, "6\nhalt\n"), ports)?;
    Ok(failed && six && are_at(&ports, &[&[7], &[], &[40], &[6], &[11], &[]]))
}

#[test]
fn a_second_run_goes_on_where_the_first_left_the_ports(rt: HostRuntime) -> Result<(), Fail> {
    let alloc = rt.alloc();
    assert!(rt; goes_on(&rt, alloc, ONE)? && goes_on_after_a_fault(&rt, alloc, ONE)?);
    assert!(rt; goes_on(&rt, alloc, FOUR)? && goes_on_after_a_fault(&rt, alloc, FOUR)?);
    Ok(())
}
