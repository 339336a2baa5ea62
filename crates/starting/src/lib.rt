// START and SETPRIORITY, for a table that is known to be sound.
#![tactic(auto)]

ghost use Rattle.std.specs.Prelude.{◌≡◌, Ok};
ghost use Rattle.calls.specs.Effects.{outcome_of};
ghost use Rattle.calls.specs.Verdicts.{after, by_caller};
ghost use Rattle.starting.specs.Starting.{start_of, set_priority_of, start_checks, started_of, priority_checks, prioritized_of};

use calls::{Caller, Decided, check};
use process::Process;
use process::states::{Cause, State};
use table::answers::Answer;
use table::configs::Config;
use table::{Outcome, Table};

// The highest priority number.
pub const LAST_PRIORITY: u16 = 63;

// The checks of START, on the record of the level.
#[tactic(auto, using(process::proofs::Moves::same_state), unfolding(calls::specs::Verdicts::also_of))]
fn start_checked(config: Config, process: Process, level: u16, priority: u16) -> Result<(), Answer>
    ensures { result ≡ after (Ok tt) (start_checks config process level priority) }
{
    check(config.has_level(level), Answer::NoUser)?;
    check(priority <= LAST_PRIORITY, Answer::ParameterError)?;
    check(process.state == State::Inactive, Answer::Started)
}

// START of a level with this record.
pub fn started(config: Config, process: Process, level: u16, priority: u16) -> Decided<Process>
    ensures { result ≡ started_of config process level priority }
{
    let checked = start_checked(config, process, level, priority);
    calls::ruled(checked, &process, || {
        let process = process.moved(Cause::Start).with_priority(priority as u8);
        Decided::alone(Answer::Ok, process)
    })
}

// The operator's START of a level with a priority.
pub fn start(table: Table, level: u16, priority: u16) -> Outcome
    ensures { result ≡ outcome_of (start_of table level priority) }
{
    calls::on_record(table, level, |config, process| {
        started(config, process, level, priority)
    })
}

// The checks of SETPRIORITY, on the record of the caller.
#[tactic(auto, unfolding(calls::specs::Verdicts::also_of))]
fn priority_checked(caller: &Caller, priority: u16) -> Result<(), Answer>
    ensures { result ≡ after (by_caller caller.now.config caller.now.process caller.now.level) (priority_checks priority) }
{
    caller.checked()?;
    check(priority <= LAST_PRIORITY, Answer::ParameterError)
}

// SETPRIORITY by this caller.
pub fn prioritized(caller: Caller, priority: u16) -> Decided<Process>
    ensures { result ≡ prioritized_of caller.config caller.process caller.level priority }
{
    let checked = priority_checked(&caller, priority);
    calls::ruled(checked, &caller.process, || {
        Decided::alone(Answer::Ok, caller.process.with_priority(priority as u8))
    })
}

pub fn set_priority(table: Table, caller: u8, priority: u16) -> Outcome
    ensures { result ≡ outcome_of (set_priority_of table caller priority) }
{
    calls::on_record(table, caller as u16, |config, process| {
        prioritized(
            Caller {
                config,
                process,
                level: caller,
            },
            priority,
        )
    })
}
