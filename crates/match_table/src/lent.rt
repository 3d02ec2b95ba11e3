//! Tables that leave their list for a phase, and come back.

ghost use Rattle.std.specs.Prelude.{◌≡◌, ◌+◌, ◌<◌, length, slice_index};
ghost use Rattle.match_table.specs.Rows.{RestOf, contents};

use crate::Table;
use crate::limit::{Limited, Quotas};
use crate::tables::Tables;
use df_core::Job;
use std::alloc::Global;
use std::mem;

/// Takes the table with this number out of its list for one phase. An empty one stands there for it.
pub fn take_out<J: Job, Q: Quotas, const NUMBER: u64>(
    alloc: Global,
    tables: &mut Tables<J>,
    most: usize,
) -> Limited<J, Q, NUMBER>
    requires rest { RestOf Q.began Q.most NUMBER (contents tables.old) }
    requires there { NUMBER < length Q.began }
    requires most { most ≡ slice_index Q.most NUMBER }
    ensures { RestOf Q.began Q.most (NUMBER + 1) (contents tables.new) }
{
    let table = mem::replace(&mut tables.all[NUMBER as usize], Table::new(alloc));
    Limited::<J, Q, NUMBER>::new(table, most)
}

/// Puts the table with this number back into its list.
pub fn put_back<J: Job, Q: Quotas, const NUMBER: u64>(
    tables: &mut Tables<J>,
    table: Limited<J, Q, NUMBER>,
)
    requires rest { RestOf Q.began Q.most (NUMBER + 1) (contents tables.old) }
    requires there { NUMBER < length Q.began }
    ensures { RestOf Q.began Q.most NUMBER (contents tables.new) }
{
    tables.all[NUMBER as usize] = table.into_table();
}
