// The calls of messages: SEND, RECEIVE, AWAITMESSAGE and CLEARMESSAGE, for a table that is known to be sound.
#![tactic(auto)]

ghost use Rattle.std.specs.Prelude.{◌≡◌};
ghost use Rattle.calls.specs.Effects.{outcome_of, Has};
ghost use Rattle.calls.specs.Levels.{process_of};
ghost use Rattle.calls.specs.Verdicts.{after, by_caller};
ghost use Rattle.posting.specs.Posting.{delivered_in, posting_of};
ghost use Rattle.process.specs.declared.Target.TheVariants.{All};
ghost use Rattle.messages.specs.Sending.{send_posted, broadcast_posted, sent_of, send_of};
ghost use Rattle.messages.specs.Receiving.{named_checked, receive_checks, took_of, received_of, receive_of, awaited_of, await_message_of, cleared_for, clear_message_of};

use calls::{Caller, Decided, check};
use inputs::InputSet;
use posting::{Origin, Posting};
use process::buffers::Message;
use process::states::Cause;
use process::{Condition, Process, Taken, Target};
use table::answers::Answer;
use table::configs::Config;
use table::{Outcome, Said, Shown, Table, wakes};

// A message for every configured level, in rising order, the sender's own included.
fn broadcast(
    config: Config,
    processes: &mut [Process; 12],
    condition: Condition,
    message: Message,
) -> Posting
    ensures { delivered_in processes.new result ≡ posting_of (broadcast_posted config condition message processes.old) }
{
    let places = config.places as usize;
    let mut posting = Posting::begin();
    for receiver in 0..12 {
        if config.has_level(receiver as u16) {
            posting.post(
                processes,
                Origin::Sent,
                places,
                receiver,
                condition,
                message,
            );
        }
    }
    posting
}

// A message for whoever is named.
fn posted(
    config: Config,
    processes: &mut [Process; 12],
    target: Target,
    condition: Condition,
    message: Message,
) -> Posting
    ensures { delivered_in processes.new result ≡ posting_of (send_posted config target condition message processes.old) }
{
    match target {
        Target::All => broadcast(config, processes, condition, message),
        Target::Level(level) => {
            let places = config.places as usize;
            let mut posting = Posting::begin();
            posting.post(processes, Origin::Sent, places, level, condition, message);
            posting
        }
        Target::Unknown => Posting::begin(),
    }
}

// SEND to somebody there is: with WAITING refused where nobody waited (which changes nothing), with ALWAYS where a full buffer lost the message.
fn sent(table: &mut Table, target: Target, condition: Condition, message: Message) -> Said
    ensures { Has (sent_of table.old target condition message) result table.new }
{
    let config = table.config;
    let Posting { wakes, full } = posted(config, &mut table.processes, target, condition, message);
    match condition {
        Condition::Waiting if wakes.count == 0 => {
            calls::said(Answer::ReceiverNotReady, wakes::none())
        }
        Condition::Waiting => calls::said(Answer::Ok, wakes),
        Condition::Always if full => calls::said(Answer::ReceiverBufferOverflow, wakes),
        Condition::Always => calls::said(Answer::Ok, wakes),
    }
}

// The checks of a call that names receivers: the caller may call, and there is such a receiver.
#[tactic(auto, unfolding(calls::specs::Verdicts::also_of))]
fn named_checked(table: &Table, caller: u8, target: Target) -> Result<(), Answer>
    ensures { result ≡ named_checked table.now.config (process_of table.now caller) caller target }
{
    calls::may_call(table, caller)?;
    check(target.is_known(), Answer::ReceiverUnknown)
}

pub fn send(
    table: Table,
    caller: u8,
    receiver: u16,
    condition: Condition,
    message: Message,
) -> Outcome
    ensures { result ≡ outcome_of (send_of table caller receiver condition message) }
{
    let target = table.config.receiver(receiver);
    let checked = named_checked(&table, caller, target);
    calls::obeyed(
        table,
        checked,
        |table| sent(table, target, condition, message),
    )
}

// The oldest message of a process is handed to it.
fn took(process: Process) -> Decided<Process>
    ensures { result ≡ took_of process }
{
    let Taken {
        told,
        message,
        process,
    } = process.taken();
    Decided {
        answer: told.into(),
        shown: Shown::Message(message),
        part: process,
    }
}

// The checks of RECEIVE, on the record of the caller.
#[tactic(auto, unfolding(calls::specs::Verdicts::also_of))]
fn receive_checked(caller: &Caller) -> Result<(), Answer>
    ensures { result ≡ after (by_caller caller.now.config caller.now.process caller.now.level) (receive_checks caller.now.process) }
{
    caller.checked()?;
    check(caller.process.buffer.list.count != 0, Answer::BufferEmpty)
}

// RECEIVE, decided on the caller's record.
pub fn received(caller: Caller) -> Decided<Process>
    ensures { result ≡ received_of caller.config caller.process caller.level }
{
    calls::ruled(
        receive_checked(&caller),
        &caller.process,
        || took(caller.process),
    )
}

pub fn receive(table: Table, level: u8) -> Outcome
    ensures { result ≡ outcome_of (receive_of table level) }
{
    calls::on_record(table, level as u16, |config, process| {
        received(Caller {
            config,
            process,
            level,
        })
    })
}

// AWAITMESSAGE, decided on the caller's record.
pub fn awaited(caller: Caller) -> Decided<Process>
    ensures { result ≡ awaited_of caller.config caller.process caller.level }
{
    calls::ruled(caller.checked(), &caller.process, || {
        if caller.process.buffer.list.count == 0 {
            Decided::alone(
                Answer::Suspended,
                caller.process.moved(Cause::WaitForMessage),
            )
        } else {
            took(caller.process)
        }
    })
}

pub fn await_message(table: Table, level: u8) -> Outcome
    ensures { result ≡ outcome_of (await_message_of table level) }
{
    calls::on_record(table, level as u16, |config, process| {
        awaited(Caller {
            config,
            process,
            level,
        })
    })
}

// Every configured level's buffer is emptied. (By index: nothing is known of what is written through an element that is lent.)
fn all_cleared(config: Config, mut processes: [Process; 12]) -> [Process; 12]
    ensures { result ≡ cleared_for config All processes }
{
    for level in 0..12u8 {
        if config.has_level(level as u16) {
            processes[level as usize] = processes[level as usize].cleared();
        }
    }
    processes
}

// The buffers of whoever is named are emptied.
fn cleared(config: Config, processes: [Process; 12], target: Target) -> [Process; 12]
    ensures { result ≡ cleared_for config target processes }
{
    match target {
        Target::All => all_cleared(config, processes),
        Target::Level(level) => {
            let process = calls::process_at(&processes, level as u16).cleared();
            calls::with_process(processes, level as u16, process)
        }
        Target::Unknown => processes,
    }
}

pub fn clear_message(table: Table, caller: u8, receiver: u16) -> Outcome
    ensures { result ≡ outcome_of (clear_message_of table caller receiver) }
{
    let target = table.config.receiver(receiver);
    let checked = named_checked(&table, caller, target);
    calls::obeyed(table, checked, |table| {
        table.processes = cleared(table.config, table.processes, target);
        calls::done()
    })
}
