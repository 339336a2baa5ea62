// Document 01, "Inputs": ENABLE, DISABLE, AWAITINTERRUPT, RESETINT and the event from outside.
ghost use Rattle.std.specs.Prelude.{◌≡◌};
ghost use Rattle.rtms.specs.Calls.{answer_of, ENABLE, DISABLE, AWAITINTERRUPT, RESETINT, EVENT};

use crate::guard::guarded;
use table::{Outcome, Table};

pub fn enable(table: Table, caller: u8, input: u16) -> Outcome
    ensures { result ≡ answer_of (ENABLE caller input) table }
{
    guarded(table, |table| interrupts::enable(table, caller, input))
}

pub fn disable(table: Table, caller: u8, input: u16) -> Outcome
    ensures { result ≡ answer_of (DISABLE caller input) table }
{
    guarded(table, |table| interrupts::disable(table, caller, input))
}

pub fn await_interrupt(table: Table, caller: u8) -> Outcome
    ensures { result ≡ answer_of (AWAITINTERRUPT caller) table }
{
    guarded(table, |table| interrupts::await_interrupt(table, caller))
}

// RESETINT.
pub fn reset_interrupt(table: Table, caller: u8, input: u16) -> Outcome
    ensures { result ≡ answer_of (RESETINT caller input) table }
{
    guarded(
        table,
        |table| interrupts::reset_interrupt(table, caller, input),
    )
}

// An event from outside on an input.
pub fn event(table: Table, input: u16) -> Outcome
    ensures { result ≡ answer_of (EVENT input) table }
{
    guarded(table, |table| interrupts::event(table, input))
}
