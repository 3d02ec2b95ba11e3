//! Threads that put, take and steal.

ghost use Rattle.std.specs.Prelude.{◌≡◌, ◌≤◌, ◌<◌, ℕ, IfOk, length, slice_index_or};
ghost use Rattle.ready_pool.specs.Settling.{SameSeat};

use ready_pool::{Seat, SeatList, seats, seats_stay_together, settle_all};
use std::alloc::{AllocError, Global};
use std::sync::Wait;
use std::sync::atomic::{AtomicU64, Ordering};
use std::test::*;
use std::thread;
use std::thread::Threads;
use ws_words::NoMemory;

// How many items were found, and their sum.
#[derive(Drop)]
struct Tally {
    count: AtomicU64,
    sum: AtomicU64,
}

// Puts the numbers from 1 to 1000, and then takes until nothing is found, and puts the half of each
// even item.
fn work<R: Wait>(rt: &R, seat: Seat<u64>, tally: &Tally) -> Seat<u64>
    ensures { SameSeat seat result }
{
    let mut seat = seat;
    for item in 1..1001 {
        let _ = seat.put(item);
    }
    for _ in rt.forever() {
        let Some(item) = seat.find(rt) else {
            break;
        };
        tally.count.fetch_add(1, Ordering::SeqCst);
        tally.sum.fetch_add(item, Ordering::SeqCst);
        if item % 2 == 0 {
            let _ = seat.put(item / 2);
        }
    }
    seat
}

// Each seat works in a thread of its own.
fn work_all<R: Threads + Wait + Sync>(
    rt: &R,
    seats: SeatList<u64>,
    tally: &Tally,
) -> Result<SeatList<u64>, AllocError>
    ensures len { IfOk result (λ back. length back.items ≡ length seats.items) }
    ensures same { IfOk result (λ back. (i : ℕ) (d : _) → i < length seats.items
        → SameSeat (slice_index_or seats.items i d) (slice_index_or back.items i d)) }
{
    thread::map_vec(
        rt,
        seats,
        &|seat: Seat<u64>| -> Seat<u64>
            ensures { SameSeat seat result }
        { work(rt, seat, tally) },
    )
}

// How many items are left in each deque once all seats have worked.
fn work_and_settle<R: Threads + Wait + Sync>(
    rt: &R,
    alloc: Global,
    count: u32,
    tally: &Tally,
) -> Result<Vec<usize>, NoMemory>
    requires { (1 ≤ count) × (count ≤ 8) }
{
    let seats = seats(alloc, count)?;
    let seats = work_all(rt, seats, tally)?;
    seats_stay_together::<u64>();
    settle_all(alloc, seats)
}

// Whether each item that so many threads put has left once, and none is left.
fn each_leaves_once<R: Threads + Wait + Sync>(
    rt: &R,
    alloc: Global,
    count: u32,
) -> Result<bool, NoMemory>
    requires { (1 ≤ count) × (count ≤ 8) }
{
    let tally = Tally {
        count: AtomicU64::new(0),
        sum: AtomicU64::new(0),
    };
    let left = work_and_settle(rt, alloc, count, &tally)?;
    let found = (
        tally.count.load(Ordering::SeqCst),
        tally.sum.load(Ordering::SeqCst),
    );
    let wanted = (1994 * count as u64, 667604 * count as u64);
    Ok(left.len() == count as usize && [0usize; 8].starts_with(&left) && found == wanted)
}

#[test]
fn each_item_leaves_once(rt: HostRuntime) -> Result<(), Fail> {
    for count in 1..9 {
        let once = each_leaves_once(&rt, rt.alloc(), count)?;
        assert!(rt; once, "{count}");
    }
    Ok(())
}

#[test]
fn first_in_first_out(rt: HostRuntime) -> Result<(), Fail> {
    let mut seats: SeatList<u64> = seats(rt.alloc(), 2)?;
    let put = (seats[0].put(3).is_ok(), seats[0].put(5).is_ok());
    let first = (seats[1].drain(), seats[1].find(&rt));
    let second = (seats[0].drain(), seats[0].find(&rt));
    assert_eq!(rt; put, (true, true));
    assert_eq!(rt; (first, second), ((None, Some(3)), (Some(5), None)));
    Ok(())
}
