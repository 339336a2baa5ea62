// Document 01, "Semaphores", and document 02, §3: REQSEMA and RELSEMA.
ghost use Rattle.std.specs.Prelude.{◌≡◌};
ghost use Rattle.rtms.specs.Calls.{answer_of, REQSEMA, RELSEMA};

use crate::guard::guarded;
use table::{Outcome, Table};

// REQSEMA.
pub fn request(table: Table, caller: u8, number: u16) -> Outcome
    ensures { result ≡ answer_of (REQSEMA caller number) table }
{
    guarded(table, |table| holding::request(table, caller, number))
}

// RELSEMA: one number, or all with -1. Answered 37, the result's number is the level that holds the semaphore, or 255.
pub fn release(table: Table, caller: u8, number: u16) -> Outcome
    ensures { result ≡ answer_of (RELSEMA caller number) table }
{
    guarded(table, |table| holding::release(table, caller, number))
}
