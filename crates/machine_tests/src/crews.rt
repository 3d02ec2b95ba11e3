//! Sixteen tables of a phase, each within its quota.

ghost use Rattle.std.specs.Prelude.{◌≡◌, length};
ghost use Rattle.match_table.specs.Rows.{Fits, contents};

use crate::tables::{DOUBLES, image_of, take_all};
use df_core::{Code, Job, Token, start};
use match_table::{Offer, Quotas, Results, Row, Tables, Took, count_of, table_at};
use std::alloc::Global;
use std::marker::Brand;
use std::sync::Wait;
use std::test::*;
use ws_isa::Checked;
use ws_words::NoMemory;

// How many instances have fired, and how many tokens were released.
type Count = (usize, usize);

// What comes of a token. The tokens that are sent stand behind others.
fn offered<J: Job, Q: Quotas, R: Wait>(
    rt: &R,
    row: &Row<J, Q>,
    code: &Code<'_, J>,
    token: Token<J>,
    way: &mut Vec<Token<J>>,
    alloc: Global,
) -> Result<Count, NoMemory> {
    let mut results = Results::none();
    let offer = row.offer(rt, code, &token, &mut results);
    take_all(results.sent.listed(alloc), way)?;
    match offer {
        Offer::Took(Took::Waits) => Ok((0, 0)),
        Offer::Took(Took::Fires) | Offer::Took(Took::Asks) => Ok((1, 0)),
        Offer::Took(Took::Old) | Offer::Took(Took::NoMemory) => Err(NoMemory),
        Offer::Spent => Ok((0, 1)),
    }
}

// Fires what can be fired.
fn fire_all<J: Job, Q: Quotas, R: Wait>(
    rt: &R,
    row: &Row<J, Q>,
    code: &Code<'_, J>,
    way: &mut Vec<Token<J>>,
    alloc: Global,
) -> Result<Count, NoMemory> {
    let (mut fired, mut spent) = (0usize, 0usize);
    for _ in 0..10_000 {
        let Some(token) = way.pop() else {
            break;
        };
        let count = offered(rt, row, code, token, way, alloc)?;
        fired = fired.wrapping_add(count.0);
        spent = spent.wrapping_add(count.1);
    }
    Ok((fired, spent))
}

// How many the table fired that fired the most.
fn most_of<J: Job>(tables: &Tables<J>) -> usize {
    let mut most = 0;
    for number in 0..count_of(tables) {
        most = table_at(tables, number).fired_count().max(most);
    }
    most
}

// Fires what can be fired in one phase with these quotas, and how many the table fired that fired the most.
fn counted<J: Job, Q: Quotas, R: Wait>(
    rt: &R,
    alloc: Global,
    tables: Tables<J>,
    limits: &[usize],
    code: &Code<'_, J>,
    way: &mut Vec<Token<J>>,
) -> (Result<Count, NoMemory>, usize)
    requires limits { (limits.now ≡ Q.most) × (length limits.now ≡ 16) }
    requires fits { Fits tables limits.now }
    requires began { contents tables ≡ Q.began }
{
    let row: Row<J, Q> = match Row::new(alloc, tables, limits) {
        Ok(row) => row,
        Err(_) => return (Err(NoMemory), 0),
    };
    let count = fire_all(rt, &row, code, way, alloc);
    (count, most_of(&row.gather()))
}

// Fires what can be fired in one phase of a job with these quotas.
fn phase<J: Job, R: Wait>(
    rt: &R,
    alloc: Global,
    image: &Checked,
    limits: &[usize],
) -> Result<(Count, usize), NoMemory>
    requires image { image.now ≡ J.image }
    requires limits { length limits.now ≡ 16 }
{
    let code: Code<'_, J> = Code::of(alloc, image)?;
    let mut way: Vec<Token<J>> = Vec::new(alloc);
    take_all(start(alloc, &code)?, &mut way)?;
    let tables: Tables<J> = Tables::new(alloc)?;
    let (count, most) = counted::<J, Brand, R>(rt, alloc, tables, limits, &code, &mut way);
    Ok((count?, most))
}

#[test]
fn tables_fire_within_their_quotas(rt: HostRuntime) -> Result<(), Fail> {
    let Some(image) = image_of(rt.alloc(), DOUBLES) else {
        assert!(rt; false);
        return Ok(());
    };
    let limits = [3usize; 16];
    let ((fired, spent), most) = phase::<Brand, _>(&rt, rt.alloc(), &image, &limits)?;
    assert!(rt; fired > 16 && fired <= 48 && spent > 0 && most <= 3);
    Ok(())
}
