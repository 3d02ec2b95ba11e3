//! Ports, and sets of them.

ghost use Rattle.std.specs.Prelude.{◌≡◌, false, IfOk};

use port_set::{LinePort, OpenSet, Port, PortError, PortSet, Slots, TapePort};
use std::alloc::Global;
use std::sync::Arc;
use std::sync::atomic::{AtomicU64, Ordering};
use std::test::*;
use ws_io::MemSink;
use ws_words::{NoMemory, Words};

fn tape(alloc: Global, left: &[u64], fail_at: &[u64]) -> Result<TapePort, NoMemory>
    ensures { IfOk result (λ tape. tape.closed ≡ false) }
{
    Ok(TapePort::new(
        alloc,
        Words::from_slice(alloc, left)?,
        Words::from_slice(alloc, fail_at)?,
    ))
}

#[test]
fn a_tape_gives_and_takes(rt: HostRuntime) -> Result<(), Fail> {
    let mut port = tape(rt.alloc(), &[4, 5], &[])?;
    let answers = (
        port.give(),
        port.take(7),
        port.give(),
        port.give(),
        port.take(8),
    );
    assert_eq!(rt; answers, (Ok(4), Ok(()), Ok(5), Ok(0), Ok(())));
    assert_eq!(rt;
        (port.left(), port.took()),
        ([].as_slice(), [7, 8].as_slice())
    );
    let before = port.is_closed();
    port.close();
    assert_eq!(rt; (port.faults(), before, port.is_closed()), (0, false, true));
    Ok(())
}

#[test]
fn each_failing_call_leaves_the_lists(rt: HostRuntime) -> Result<(), Fail> {
    for number in 1..5u64 {
        let mut port = tape(rt.alloc(), &[4, 5], &[number])?;
        let gives = (port.give().is_err(), port.take(7).is_err());
        let takes = (port.give().is_err(), port.take(8).is_err());
        let wanted = ((number == 1, number == 2), (number == 3, number == 4));
        assert_eq!(rt; (gives, takes), wanted);
        let lists = (
            port.left().len() as u64,
            port.took().len() as u64,
            port.faults(),
        );
        assert_eq!(rt; lists, (number % 2, 1 + number % 2, 1));
    }
    Ok(())
}

#[test]
fn a_line_each(rt: HostRuntime) -> Result<(), Fail> {
    let sink = MemSink::new(rt.alloc(), 3, Words::empty(rt.alloc()))?;
    let mut port = LinePort::new(sink);
    let answers = (
        port.take(0),
        port.take(42),
        port.give(),
        port.take(u64::MAX),
    );
    assert_eq!(rt; answers, (Ok(()), Ok(()), Ok(0), Ok(())));
    assert_eq!(rt;
        port.sink.held(),
        b"0\n42\n18446744073709551615\n".as_slice()
    );
    Ok(())
}

#[test]
fn each_failing_call_of_the_sink(rt: HostRuntime) -> Result<(), Fail> {
    // The call of the sink that fails, and what it holds afterwards.
    let cases: [(u64, &[u8]); 4] = [(1, b""), (2, b"4"), (3, b"42"), (4, b"42\n")];
    for (number, held) in cases {
        let fail_at = Words::from_slice(rt.alloc(), &[number])?;
        let sink = MemSink::new(rt.alloc(), 1, fail_at)?;
        let mut port = LinePort::new(sink);
        let first = port.take(42);
        assert_eq!(rt; (port.sink.held(), port.sink.faults()), (held, 1));
        assert_eq!(rt; (first, port.take(43)), (Err(PortError::Failed), Ok(())));
    }
    Ok(())
}

// What a slot gives before a port is put there and then, whether it was empty before and at the end,
// and the port that comes back.
fn swapped(port: TapePort) -> ([Result<u64, PortError>; 2], [bool; 2], Option<TapePort>)
    requires { port.closed ≡ false }
{
    let mut ports: Slots<TapePort> = Slots::none();
    let before = ports.give(3);
    let first = ports.swap(3, Some(port));
    let then = ports.give(3);
    let back = ports.swap(3, None);
    let last = ports.swap(3, None);
    ports.finish();
    ([before, then], [first.is_none(), last.is_none()], back)
}

#[test]
fn a_slot_is_swapped(rt: HostRuntime) -> Result<(), Fail> {
    let (words, empty, back) = swapped(tape(rt.alloc(), &[4], &[])?);
    assert_eq!(rt; (words, empty), ([Ok(0), Ok(4)], [true, true]));
    let Some(back) = back else {
        assert!(rt; false);
        return Ok(());
    };
    assert_eq!(rt; back.left(), [].as_slice());
    Ok(())
}

// Whether each slot of a set gives what it has and takes a word, what the third gives then, and its
// port.
fn given(port: TapePort) -> (bool, [Result<u64, PortError>; 2], Option<TapePort>)
    requires { port.closed ≡ false }
{
    let mut ports: Slots<TapePort> = Slots::none();
    ports.third = Some(port);
    let mut open = OpenSet::new(ports);
    let mut alike = true;
    for slot in 1..8u8 {
        let word = if slot == 3 { 4 } else { 0 };
        alike &= (open.give(slot), open.take(slot, 9)) == (Ok(word), Ok(()));
    }
    let then = [open.give(3), open.give(3)];
    let mut slots = open.into_slots();
    let back = slots.swap(3, None);
    slots.finish();
    (alike, then, back)
}

#[test]
fn open_slots_give_and_take(rt: HostRuntime) -> Result<(), Fail> {
    let (alike, then, back) = given(tape(rt.alloc(), &[4, 5], &[3])?);
    assert_eq!(rt; (alike, then), (true, [Err(PortError::Failed), Ok(5)]));
    let Some(back) = back else {
        assert!(rt; false);
        return Ok(());
    };
    assert_eq!(rt; back.took(), [9].as_slice());
    Ok(())
}

// Puts its number behind the digits of a number when it is closed.
#[derive(Drop)]
struct Watched {
    number: u64,
    closes: Arc<AtomicU64, Global>,
    closed: bool,
}

impl Port for Watched {
    ghost use Rattle.std.specs.Prelude.{None};

    ghost tells = { λ port. record { left = None; took = None; faults = 0; closed = port.closed } };

    fn give(&mut self) -> Result<u64, PortError> {
        Ok(self.number)
    }

    fn take(&mut self, _word: u64) -> Result<(), PortError> {
        Err(PortError::NoMemory)
    }

    fn close(&mut self) {
        let before = self.closes.load(Ordering::SeqCst);
        self.closes.store(
            before.wrapping_mul(10).wrapping_add(self.number),
            Ordering::SeqCst,
        );
        self.closed = true;
    }
}

#[test]
fn boxed_ports_are_closed_and_dropped_once(rt: HostRuntime) -> Result<(), Fail> {
    let alloc = rt.alloc();
    let closes = Arc::new(alloc, AtomicU64::new(0))?;
    let mut ports = PortSet::none();
    for slot in [5, 2, 7] {
        let port = Watched {
            number: slot as u64,
            closes: closes.clone()?,
            closed: false,
        };
        let mut boxed: Box<dyn Port + Send> = Box::new(alloc, port)?;
        let answers = (boxed.give(), boxed.take(1));
        assert_eq!(rt; answers, (Ok(slot as u64), Err(PortError::NoMemory)));
        assert!(rt; ports.swap(slot, Some(boxed)).is_none());
    }
    let before = (closes.load(Ordering::SeqCst), Arc::strong_count(&closes));
    ports.finish();
    let after = (closes.load(Ordering::SeqCst), Arc::strong_count(&closes));
    assert_eq!(rt; (before, after), ((0, 4), (257, 1)));
    Ok(())
}
