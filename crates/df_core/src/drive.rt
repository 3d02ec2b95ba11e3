//! The core: events until none is left.

ghost use Rattle.std.specs.Prelude.{◌≡◌, ◌<◌, ◌≤◌, ◌+◌, ◌-◌, ◌*◌, ◌^◌, ℕ, [], length, true, false};
ghost use Rattle.std.specs.Prelude.{is_some, ◌⊎◌, IfOk, OnOk, vec_len};
ghost use Rattle.df_core.specs.Places.{image_of};
ghost use Rattle.df_core.specs.Flows.{Going, RunsOn, weight, FlowRoom};
ghost use Rattle.df_core.specs.Finishes.{Ended, is_budget, is_fault, stopped_at};

use crate::flow::Flow;
use crate::program::Program;
use ws_words::NoMemory;

/// How a run ended: nothing more can happen, or as many instances have fired as may, or the chain
/// is stopped at an index fault, on an array by its number from 1.
#[derive(Clone, Copy, Debug, PartialEq, Eq)]
pub enum Finish {
    Rest,
    Budget,
    Fault { array: u32 },
}

// For so many firings room is made at once.
const AHEAD: u64 = 1024;

// So many loads are at most issued before their turn: each operation looks through them.
const MOST_EARLY: usize = 16;

/// Makes events until none is left or so many instances have fired, and then issues what may be
/// issued. Takes no memory.
pub fn run(program: &Program<'_>, flow: &mut Flow<'_>, budget: u64) -> Finish
    requires going { Going (image_of program.now) [] flow.old }
    requires fired { flow.old.fired ≤ budget }
    requires room { FlowRoom flow.old 0 (budget - flow.old.fired) }
    ensures within { flow.new.fired ≤ budget }
    ensures room { (n m : ℕ) → m + flow.new.fired ≡ n + flow.old.fired → FlowRoom flow.old 0 n →
        FlowRoom flow.new 0 m }
    ensures spent { is_budget result ≡ true → flow.new.fired ≡ budget }
    ensures stopped { is_some flow.new.fault ≡ is_fault result }
    ensures gone { flow.new.memory.gone ≡ flow.old.memory.gone }
    ensures finish { Ended (image_of program.now) budget flow.old flow.new result }
{
    loop {
        if let Some(array) = flow.fault {
            return Finish::Fault { array };
        }
        if is_still(flow, budget) {
            match flow.issuable(program) {
                Some(place) => flow.issue(program, place),
                None => return stopped_at(flow),
            }
        } else {
            match_next(program, flow);
        }
    }
}

/// The same, and takes the memory that it needs as it goes.
pub fn run_on(program: &Program<'_>, flow: &mut Flow<'_>, budget: u64) -> Result<Finish, NoMemory>
    requires going { Going (image_of program.now) [] flow.old }
    requires fired { flow.old.fired ≤ budget }
    ensures within { OnOk result (flow.new.fired ≤ budget) }
    ensures gone { flow.new.memory.gone ≡ flow.old.memory.gone }
    ensures finish { IfOk result (Ended (image_of program.now) budget flow.old flow.new) }
{
    loop {
        let until = budget.min(flow.fired.saturating_add(AHEAD));
        flow.prepare(until - flow.fired)?;
        let finish = run(program, flow, until);
        if until >= budget || !is_budget(finish) {
            return Ok(finish);
        }
    }
}

fn is_budget(finish: Finish) -> bool
    ensures { result ≡ is_budget finish }
{
    match finish {
        Finish::Budget => true,
        _ => false,
    }
}

// Whether no more instances may fire: nothing is in flight, or so many have.
fn is_still(flow: &Flow<'_>, budget: u64) -> bool
    ensures still { result ≡ true →
        (vec_len flow.now.way.now + vec_len flow.now.way.later ≡ 0) ⊎ (budget ≤ flow.now.fired) }
    ensures going { result ≡ false →
        (0 < vec_len flow.now.way.now + vec_len flow.now.way.later) × (flow.now.fired < budget) }
{
    flow.way.is_empty() || flow.fired >= budget
}

// Rest where nothing is in flight.
fn stopped_at(flow: &Flow<'_>) -> Finish
    ensures { result ≡ stopped_at flow.now }
{
    if flow.way.is_empty() {
        Finish::Rest
    } else {
        Finish::Budget
    }
}

// Matches the next token in flight, and issues the operations that then are next.
fn match_next(program: &Program<'_>, flow: &mut Flow<'_>)
    requires going { Going (image_of program.now) [] flow.old }
    requires fired { flow.old.fired + 1 < 2 ^ 64 }
    requires some { 0 < vec_len flow.old.way.now + vec_len flow.old.way.later }
    requires running { is_some flow.old.fault ≡ false }
    requires room { FlowRoom flow.old 0 1 }
    ensures follows { RunsOn (image_of program.now) flow.old flow.new }
    ensures room { (n m : ℕ) → m + flow.new.fired ≡ n + flow.old.fired → FlowRoom flow.old 0 n →
        FlowRoom flow.new 0 m }
    ensures weight { weight flow.new + 9 * flow.old.fired < weight flow.old + 9 * flow.new.fired }
    ensures count { (flow.old.fired ≤ flow.new.fired) × (flow.new.fired ≤ flow.old.fired + 1) }
    ensures gone { flow.new.memory.gone ≡ flow.old.memory.gone }
{
    let waiting = flow.asked.len();
    match flow.way.take() {
        Some(token) => flow.arrive(program, token),
        None => unreachable!(),
    }
    if flow.asked.len() > waiting {
        issue_last(program, flow);
        issue_next(program, flow);
    }
}

// Issues the last request if it may be issued, and few were issued early.
fn issue_last(program: &Program<'_>, flow: &mut Flow<'_>)
    requires going { Going (image_of program.now) [] flow.old }
    requires fired { flow.old.fired < 2 ^ 64 }
    requires running { is_some flow.old.fault ≡ false }
    requires some { 0 < length flow.old.asked.items }
    requires room { FlowRoom flow.old 0 0 }
    ensures follows { RunsOn (image_of program.now) flow.old flow.new }
    ensures room { (n : ℕ) → FlowRoom flow.old 0 n → FlowRoom flow.new 0 n }
    ensures weight { weight flow.new ≤ weight flow.old }
    ensures count { flow.new.fired ≡ flow.old.fired }
    ensures gone { flow.new.memory.gone ≡ flow.old.memory.gone }
{
    let place = flow.asked.len() - 1;
    if flow.early.len() < MOST_EARLY && flow.may_issue(program, flow.asked[place]) {
        flow.issue(program, place);
    }
}

// Issues the requests that are next, one after another, as far as hints of them go.
fn issue_next(program: &Program<'_>, flow: &mut Flow<'_>)
    requires going { Going (image_of program.now) [] flow.old }
    requires fired { flow.old.fired < 2 ^ 64 }
    requires room { FlowRoom flow.old 0 0 }
    ensures follows { RunsOn (image_of program.now) flow.old flow.new }
    ensures room { (n : ℕ) → FlowRoom flow.old 0 n → FlowRoom flow.new 0 n }
    ensures weight { weight flow.new ≤ weight flow.old }
    ensures count { flow.new.fired ≡ flow.old.fired }
    ensures gone { flow.new.memory.gone ≡ flow.old.memory.gone }
{
    while let Some(place) = flow.next_up(program) {
        flow.issue(program, place);
    }
}
