// Document 01, "States": START and SETPRIORITY.
ghost use Rattle.std.specs.Prelude.{◌≡◌};
ghost use Rattle.rtms.specs.Calls.{answer_of, START, SETPRIORITY};

use crate::guard::guarded;
use table::{Outcome, Table};

// The operator's START of a level with a priority.
pub fn start(table: Table, level: u16, priority: u16) -> Outcome
    ensures { result ≡ answer_of (START level priority) table }
{
    guarded(table, |table| starting::start(table, level, priority))
}

pub fn set_priority(table: Table, caller: u8, priority: u16) -> Outcome
    ensures { result ≡ answer_of (SETPRIORITY caller priority) table }
{
    guarded(
        table,
        |table| starting::set_priority(table, caller, priority),
    )
}
