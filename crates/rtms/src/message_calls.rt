// Document 01, "Messages": SEND, RECEIVE, AWAITMESSAGE and CLEARMESSAGE.
ghost use Rattle.std.specs.Prelude.{◌≡◌};
ghost use Rattle.rtms.specs.Calls.{answer_of, SEND, RECEIVE, AWAITMESSAGE, CLEARMESSAGE};

use crate::guard::guarded;
use process::Condition;
use process::buffers::Message;
use table::{Outcome, Table};

// To one receiver, or to all with -1.
pub fn send(
    table: Table,
    caller: u8,
    receiver: u16,
    condition: Condition,
    message: Message,
) -> Outcome
    ensures { result ≡ answer_of (SEND caller receiver condition message) table }
{
    guarded(
        table,
        |table| messages::send(table, caller, receiver, condition, message),
    )
}

pub fn receive(table: Table, caller: u8) -> Outcome
    ensures { result ≡ answer_of (RECEIVE caller) table }
{
    guarded(table, |table| messages::receive(table, caller))
}

pub fn await_message(table: Table, caller: u8) -> Outcome
    ensures { result ≡ answer_of (AWAITMESSAGE caller) table }
{
    guarded(table, |table| messages::await_message(table, caller))
}

pub fn clear_message(table: Table, caller: u8, receiver: u16) -> Outcome
    ensures { result ≡ answer_of (CLEARMESSAGE caller receiver) table }
{
    guarded(
        table,
        |table| messages::clear_message(table, caller, receiver),
    )
}
