// Document 01, "Timer orders": SCHEDULE, CANCELSCHEDULE, SHUTDOWN, the start of the scheduler, READTIME, and the ticks.
ghost use Rattle.std.specs.Prelude.{◌≡◌};
ghost use Rattle.rtms.specs.Calls.{answer_of, SCHEDULE, CANCELSCHEDULE, SHUTDOWN, STARTSCHEDULER, READTIME, TICK, TICKS};

use crate::guard::guarded;
use table::{Outcome, Table};
use timers::NewOrder;

pub fn schedule(table: Table, caller: u8, new: NewOrder) -> Outcome
    ensures { result ≡ answer_of (SCHEDULE caller new) table }
{
    guarded(table, |table| timers::schedule(table, caller, new))
}

pub fn cancel_schedule(table: Table, caller: u8, sender: u16, receiver: u16) -> Outcome
    ensures { result ≡ answer_of (CANCELSCHEDULE caller sender receiver) table }
{
    guarded(
        table,
        |table| timers::cancel_schedule(table, caller, sender, receiver),
    )
}

pub fn shutdown(table: Table, caller: u8) -> Outcome
    ensures { result ≡ answer_of (SHUTDOWN caller) table }
{
    guarded(table, |table| timers::shutdown(table, caller))
}

pub fn start_scheduler(table: Table) -> Outcome
    ensures { result ≡ answer_of STARTSCHEDULER table }
{
    guarded(table, timers::start_scheduler)
}

pub fn read_time(table: Table, caller: u8) -> Outcome
    ensures { result ≡ answer_of (READTIME caller) table }
{
    guarded(table, |table| timers::read_time(table, caller))
}

// One tick of the clock.
pub fn tick(table: Table) -> Outcome
    ensures { result ≡ answer_of TICK table }
{
    guarded(table, ticking::tick)
}

// So many ticks, one after the other.
pub fn ticks(table: Table, count: u32) -> Outcome
    ensures { result ≡ answer_of (TICKS count) table }
{
    guarded(table, |table| ticking::ticks(table, count))
}
