// What all calls share: their checks in order, the process at a level, and how an answer is given.
#![tactic(auto)]

ghost use Rattle.std.specs.Prelude.{◌≡◌, Ok, min, set};
ghost use Rattle.std.specs.Borrow.{MutBor};
ghost use Rattle.table.specs.declared.answers.Answer.{Answer};
ghost use Rattle.table.specs.Wakes.{no_wakes_of};
ghost use Rattle.calls.specs.Decisions.{decided, decided_by, told_of, looked_at, decided_at};
ghost use Rattle.calls.specs.declared.Decided.{Decided};
ghost use Rattle.calls.specs.Effects.{Effect, nothing, outcome_of, Has};
ghost use Rattle.calls.specs.Levels.{process_at, process_of};
ghost use Rattle.calls.specs.Verdicts.{check_of, by_caller, caller_of, obeyed};
ghost use Rattle.calls.specs.Outcomes.{answered_of, saying, carries_number, replied_of};

use process::Process;
use process::states::State;
use table::answers::Answer;
use table::configs::Config;
use table::wakes::{self, Wakes};
use table::{Outcome, Said, Shown, Table};

// One check of a call: what must hold, and the number that refuses the call where it does not. A call makes its checks in their order, each by
// a `?`, so that the first that fails refuses it.
pub fn check(holds: bool, answer: Answer) -> Result<(), Answer>
    ensures { result ≡ check_of holds answer }
{
    if holds { Ok(()) } else { Err(answer) }
}

// The process at a level; one that was never started where there is no such level.
pub fn process_at(processes: &[Process], level: u16) -> Process
    ensures { result ≡ process_at processes.now level }
{
    processes
        .get(level as usize)
        .copied()
        .unwrap_or_else(Process::fresh)
}

// The processes with another one at a level.
pub fn with_process(processes: [Process; 12], level: u16, process: Process) -> [Process; 12]
    ensures { result ≡ set processes level process }
{
    let mut changed = processes;
    // Through `get_mut` the proof didn't close: nothing is known of a local array after a write through what it lends.
    if level < 12 {
        changed[level as usize] = process;
    }
    changed
}

// Who calls: its level, the record that stands for it, and the configuration. What a call decides, it decides on these first.
#[derive(Clone, Copy)]
pub struct Caller {
    pub config: Config,
    pub process: Process,
    pub level: u8,
}

impl Caller {
    // The two checks of every process's call: the caller is configured, and it is neither INACT nor waits.
    #[tactic(auto, using(process::proofs::Moves::same_state), unfolding(crate::specs::Verdicts::also_of))]
    pub fn checked(&self) -> Result<(), Answer>
        ensures { result ≡ by_caller self.now.config self.now.process self.now.level }
    {
        check(self.config.has_level(self.level as u16), Answer::NoUser)?;
        check(self.process.state == State::Ready, Answer::NotReady)
    }
}

// The caller at a level of a table; one that was never started where there is no such level.
pub fn caller_at(table: &Table, level: u8) -> Caller
    ensures { result ≡ caller_of table.now level }
{
    Caller {
        config: table.config,
        process: process_at(&table.processes, level as u16),
        level,
    }
}

// The checks of a process's call, where no other check looks at the caller.
pub fn may_call(table: &Table, level: u8) -> Result<(), Answer>
    ensures { result ≡ by_caller table.now.config (process_of table.now level) level }
{
    caller_at(table, level).checked()
}

// What is said by an answer that carries nothing, and who wakes.
pub fn said(answer: Answer, wakes: Wakes) -> Said
    ensures { result ≡ saying answer wakes }
{
    Said {
        answer,
        shown: Shown::Nothing,
        wakes,
    }
}

// 0, and nothing else.
pub fn done() -> Said
    ensures { result ≡ saying Answer.Ok no_wakes_of }
{
    said(Answer::Ok, wakes::none())
}

// A call on a table, by what became of its checks: where all of them passed, it changes the table in place, which is copied once in and once out;
// else the first that failed refuses it. Whatever effect the call has on the table, obeyed it has that.
pub fn obeyed<F: FnOnce(&mut Table) -> Said>(
    table: Table,
    checked: Result<(), Answer>,
    call: F,
) -> Outcome
    requires { checked ≡ Ok tt → (lent : MutBor Table) → lent.now ≡ table → F.pre call lent }
    ensures { (effect : Effect) → ((lent left : MutBor Table) (said : Said) → checked ≡ Ok tt → lent.now ≡ table
        → F.FnOnce.post call (lent, tt) (said, (left, tt)) → Has effect said left.now) → result ≡ outcome_of (obeyed checked table effect) }
{
    let mut after = table;
    let said = match checked {
        Ok(()) => call(&mut after),
        Err(answer) => said(answer, wakes::none()),
    };
    Outcome {
        answer: said.answer,
        shown: said.shown,
        wakes: said.wakes,
        table: after,
    }
}

// What a call decides that changes one part of a table and nothing else: the answer, what it carries, and that part, as the record of one process.
// Decided on small parts, it is then put into a table in place, which is copied once in and once out.
#[derive(Clone, Copy)]
pub struct Decided<T> {
    pub answer: Answer,
    pub shown: Shown,
    pub part: T,
}

impl<T: Copy> Decided<T> {
    // An answer that carries nothing.
    pub fn alone(answer: Answer, part: T) -> Decided<T>
        ensures { result ≡ decided answer nothing part }
    {
        Decided {
            answer,
            shown: Shown::Nothing,
            part,
        }
    }
}

// What a call decides on a part, by what became of its checks: where one failed, the first that did refuses it, and the part stays as it is.
// Whatever is decided where all of them passed, ruled it is that.
// The part is lent: handed over by value and on to the closure, it was copied once more for each record of a listing (1 to 3 of 100 instructions).
pub fn ruled<T: Copy, F: FnOnce() -> Decided<T>>(
    checked: Result<(), Answer>,
    part: &T,
    decide: F,
) -> Decided<T>
    requires { checked ≡ Ok tt → F.pre decide }
    ensures { (comes : Decided T) → ((decided : Decided T) → checked ≡ Ok tt → F.post decide decided → decided ≡ comes) → result ≡ decided_by checked part.now comes }
{
    match checked {
        Ok(()) => decide(),
        Err(answer) => Decided::alone(answer, *part),
    }
}

// What was decided, beside a table in which the part stands.
#[tactic(auto, unfolding(crate::specs::Decisions::told_of))]
pub fn told<T: Copy>(table: Table, decided: Decided<T>) -> Outcome
    ensures { result ≡ told_of table decided }
{
    replied(table, decided.answer, decided.shown, wakes::none())
}

// The place of the record on which a level's call is decided: the level's own. A level above 11 has none, and is refused whatever record stands in for it:
// the last one, which is put back as it was.
pub fn place_of(level: u16) -> usize
    ensures { result ≡ min level 11 }
{
    (level as usize).min(11)
}

// A call that changes the record at a level, and nothing else of the table. What it comes to is decided on small parts, and the table is changed
// in place: it is copied once in and once out.
// (The closure takes the two parts and no `Caller`: START calls it with a level of 16 bits, and nobody calls START.)
pub fn on_record<F: FnOnce(Config, Process) -> Decided<Process>>(
    table: Table,
    level: u16,
    decide: F,
) -> Outcome
    requires { F.pre decide table.config (looked_at table level) }
    ensures { (decided : Decided Process) × F.post decide table.config (looked_at table level) decided
        × (result ≡ decided_at table (min level 11) decided) }
{
    let mut after = table;
    let at = place_of(level);
    let decided = decide(after.config, after.processes[at]);
    after.processes[at] = decided.part;
    told(after, decided)
}

// The number and the wakes, and nothing else.
pub fn answered(table: Table, answer: Answer, wakes: Wakes) -> Outcome
    ensures { result ≡ answered_of table answer wakes }
{
    let mut outcome = table.refused(answer);
    outcome.wakes = wakes;
    outcome
}

// An answer, what it carries, and who wakes.
pub fn replied(table: Table, answer: Answer, shown: Shown, wakes: Wakes) -> Outcome
    ensures { result ≡ replied_of table answer shown wakes }
{
    Outcome {
        answer,
        shown,
        wakes,
        table,
    }
}

// 0 with a number, and who wakes.
pub fn with_number(table: Table, number: u64, wakes: Wakes) -> Outcome
    ensures { result ≡ carries_number table number wakes }
{
    replied(table, Answer::Ok, Shown::Number(number), wakes)
}
