//! A crew of workers that fire the instances of a job, the outstanding tokens between phases, and the run.
//!
//! - `phase` returns tables and buffer: whatever the workers did, each table serves its own instances, within
//!   its limit, and lost nothing (`AllGrow`).
//! - `unknown` gives nothing only if the buffer knows the request of every instance that has fired. `missing`
//!   gives tokens that no table has had; where it gives fewer than asked for, they cover what is owed
//!   (`Paid`).
//! - `limits` shares out all firings, at least a sixteenth, rounded down, to each table. `deal` puts each
//!   token into a worker's queue, unless a queue is full (`Dealt`). n instances have at most 3 n tokens
//!   (`few_tokens`). If `share` reports no phase, no table has changed.
//! - `run_image`, with 1 to 8 workers (`Crew`), a hook (`Gate`) and a budget, returns the ports. **Whatever
//!   the workers did** (`RunTells`): `Done` has the words, cells and ports of the whole walk, which has no
//!   index fault and fits the budget; `Budget` comes only if exactly the budget has fired and the walk has
//!   more, with a prefix within bounds; `Fault` only at its first index fault; `Port` only if its next
//!   operation is on a port whose count of faults rose; at `NoMemory` the ports are a prefix's, or as handed
//!   in. `run_job` and `crew_run` return the tables too (`LeavesAll`, `EndsSo`, `ends_are_told`).
//! - **Every phase makes progress**: a token that no table has had begins it; after `turn` a table has had
//!   it, or no more may fire (`MovedOn`, `find_course`). `run_on` reports at most 3 n + 1 phases.
//! - **One worker** (`run_solo`, and `go_alone` between phases) waits for nothing, so it returns.
//! - No clause says that `run_on` returns (workers may wait), that a second phase follows, or that tokens
//!   were brought and the hook called (tested).
#![tactic(auto)]

mod crew;
mod ends;
mod finish;
mod follow;
mod gate;
mod hand;
mod judge;
mod laws;
mod missing;
mod owed;
mod own;
mod phase;
mod pouring;
mod run;
mod share;
mod shares;
mod solo;
mod told;
mod turn;
mod unknown;
mod work;

pub use crew::{Crew, no_tables};
pub use ends::few_tokens;
pub use finish::{CrewEnd, crew_end};
pub use follow::{Next, carry_on};
pub use gate::{Free, Gate};
pub use hand::{Bare, InHand, Wrap};
pub use judge::{Ending, Verdict, find_course};
pub use laws::ends_are_told;
pub use own::see_brought;
pub use pouring::pour;
pub use run::crew_run;
pub use shares::{fitting, limits};
pub use store_buf::RunFinish as CrewFinish;
pub use turn::deal;
