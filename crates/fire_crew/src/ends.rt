//! What is known where a run ends.

ghost use Rattle.std.specs.Prelude.{◌≡◌, ◌*◌, ◌≤◌, ℕ, Some};
ghost use Rattle.ws_words.specs.Outside.{Outside};
ghost use Rattle.ws_isa.specs.Walk.{CostAtMost, Ports};
ghost use Rattle.df_core.specs.Shown.{owed};
ghost use Rattle.store_buf.specs.Contents.{buffer_in};
ghost use Rattle.match_table.specs.Together.{AllServe, part_of};
ghost use Rattle.match_table.specs.Coming.{Came};
ghost use Rattle.fire_crew.specs.Owing.{AllKnown, HaveCome, IsMissing};
ghost use Rattle.fire_crew.specs.Ends.{AllRun, FaultRun, FrontRun, IsGoing, PortRun, SomeRun};

use df_core::{
    Code, Job, Token, counts, every_list_of_events, owing_nothing_is_rest, shown_is_fit,
};
use match_table::{Tables, facts};
use port_set::Port;
use store_buf::{Buffer, MemoryOrder};

/// If tables and a buffer have no outstanding tokens, the whole walk has been run.
pub fn all_run<J: Job, P: Port>(code: &Code<'_, J>, tables: &Tables<J>, buffer: &Buffer<J, P>)
    requires serve { AllServe tables.now }
    requires going { IsGoing buffer.now }
    requires known { AllKnown J.image (part_of tables.now) buffer.now.kept }
    requires come { (m : Outside) → HaveCome (part_of tables.now).held
        (owed J.image (part_of tables.now) (buffer_in J.image buffer.now m)) }
    ensures { AllRun J.image J.world J.began (part_of tables.now).fired buffer.now.outside }
{
    facts(tables);
    buffer.facts();
    code.facts();
    shown_is_fit();
    owing_nothing_is_rest();
    every_list_of_events();
    counts();
}

/// Where a token hasn't come the walk has more instances than have fired.
pub fn some_run<J: Job, P: Port>(
    code: &Code<'_, J>,
    tables: &Tables<J>,
    buffer: &Buffer<J, P>,
    token: &Token<J>,
)
    requires serve { AllServe tables.now }
    requires going { IsGoing buffer.now }
    requires known { AllKnown J.image (part_of tables.now) buffer.now.kept }
    requires missing { IsMissing (part_of tables.now).held token.now }
    ensures { SomeRun J.image J.world J.began (part_of tables.now).fired buffer.now.outside }
{
    facts(tables);
    buffer.facts();
    code.facts();
    token.facts();
    shown_is_fit();
    counts();
}

/// Where the chain is stopped it is so at the walk's first out-of-bounds load or store.
pub fn fault_run<J: Job, P: Port>(
    code: &Code<'_, J>,
    tables: &Tables<J>,
    buffer: &Buffer<J, P>,
    array: u32,
)
    requires serve { AllServe tables.now }
    requires fault { buffer.now.fault ≡ Some array }
    ensures { FaultRun J.image J.world J.began array buffer.now.outside }
{
    facts(tables);
    buffer.facts();
    code.facts();
    shown_is_fit();
    every_list_of_events();
    counts();
}

/// Where a port has failed the walk's next operation is on it.
pub fn port_run<J: Job, P: Port>(code: &Code<'_, J>, buffer: &Buffer<J, P>, port: u8)
    requires failed { buffer.now.failed ≡ Some port }
    ensures { PortRun J.image J.world J.began port buffer.now.outside }
{
    buffer.facts();
    code.facts();
}

/// What is outside is at all times what the walk leaves with its first operations, none of them past
/// the end.
pub fn front_run<J: Job, P: Port>(buffer: &Buffer<J, P>)
    ensures { FrontRun J.image J.world J.began buffer.now.outside }
{
    buffer.facts();
}

/// Where the walk has at most so many instances, no more than three tokens for each have come.
pub fn few_tokens<J: Job>(code: &Code<'_, J>, tables: &Tables<J>)
    requires { AllServe tables.now }
    ensures { (old : Ports) (count cost : ℕ) → Came old (part_of tables.now).held count
        → CostAtMost J.image J.world cost → count ≤ 3 * cost }
{
    facts(tables);
    code.facts();
}
