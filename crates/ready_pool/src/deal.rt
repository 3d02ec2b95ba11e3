//! Items are dealt to seats.

ghost use Rattle.std.specs.Prelude.{◌<◌, ◌∷◌, [], length};
ghost use Rattle.ready_pool.specs.Dealt.{Dealt};

use crate::seat::SeatList;

/// Puts an item into the seat of this number, or into the first where there are no more. One that the seat's
/// deque refuses is released. Answers which seat comes next.
pub fn put_next<T: Drop>(seats: &mut SeatList<T>, at: usize, item: T) -> usize
    ensures { Dealt seats.old.items (item ∷ []) seats.new.items }
{
    let at = if at < seats.len() { at } else { 0 };
    if at >= seats.len() {
        return 0;
    }
    put_at(seats, at, item);
    at + 1
}

// Puts an item into the seat of this number.
fn put_at<T: Drop>(seats: &mut SeatList<T>, at: usize, item: T)
    requires { at < length seats.old.items }
    ensures { Dealt seats.old.items (item ∷ []) seats.new.items }
{
    let _ = seats[at].put(item);
}
