// The table that holds all areas, what makes one sound, and what every call answers with.
#![tactic(auto)]

ghost use Rattle.std.specs.Prelude.{◌≡◌};
ghost use Rattle.table.specs.Table.{fresh_of, refused_of, said_of};

pub mod answers;
pub mod configs;
pub mod soundness;
pub mod wakes;

use answers::Answer;
use configs::Config;
use day::TimeOfDay;
use inputs::InputSet;
use orders::Orders;
use pool::Control;
use process::Process;
use process::buffers::Message;
use semaphores::Semaphores;
use wakes::Wakes;

#[derive(Clone, Copy)]
pub struct Scheduler {
    pub running: bool,
    // SHUTDOWN's switch: the next tick stops the scheduler.
    pub switch: bool,
}

#[derive(Clone, Copy)]
pub struct Table {
    pub config: Config,
    pub clock: TimeOfDay,
    pub scheduler: Scheduler,
    // By level. What stands at a level that is not configured makes no difference.
    pub processes: [Process; 12],
    pub orders: Orders,
    pub semaphores: Semaphores,
    // Which inputs are enabled, and which events came.
    pub mask: InputSet,
    pub latch: InputSet,
    // Who uses the common data pool. Its bytes are lent beside the table: four kilobytes here would be copied with every call.
    pub pool: Control,
}

// What an answer carries, besides its number.
#[derive(Clone, Copy)]
pub enum Shown {
    Nothing,
    // A message that is handed over.
    Message(Message),
    // The inputs on which events came.
    Inputs(InputSet),
    // The milliseconds of READTIME, how many orders were carried out, or who holds what RELSEMA could not release.
    Number(u64),
    // So many bytes of the pool.
    Data(u64),
}

// The one result of every call, event and tick.
#[derive(Clone, Copy)]
pub struct Outcome {
    pub answer: Answer,
    pub shown: Shown,
    pub wakes: Wakes,
    pub table: Table,
}

// What an outcome says, without the table that it leaves. No field of the outcome: every caller of the library and every definition reads an answer,
// what it carries and the wakes of the outcome itself (`answer_of`).
#[derive(Clone, Copy)]
pub struct Said {
    pub answer: Answer,
    pub shown: Shown,
    pub wakes: Wakes,
}

impl Outcome {
    pub fn said(self) -> Said
        ensures { result ≡ said_of self }
    {
        Said {
            answer: self.answer,
            shown: self.shown,
            wakes: self.wakes,
        }
    }
}

impl Scheduler {
    pub const STOPPED: Scheduler = Scheduler {
        running: false,
        switch: false,
    };
}

impl Table {
    // As a good configuration begins.
    pub fn fresh(config: Config) -> Table
        ensures { result ≡ fresh_of config }
    {
        Table {
            config,
            clock: config.clock,
            scheduler: Scheduler::STOPPED,
            processes: [Process::fresh(); 12],
            orders: Orders::none(),
            semaphores: Semaphores::fresh(),
            mask: InputSet::empty(),
            latch: InputSet::empty(),
            pool: Control::fresh(),
        }
    }

    // The number and nothing else, and the table as it was: 35 and 36, told where no call is made. (A call that its own checks refuse comes to the same, by
    // `calls::obeyed` and `ruled`: of these a full buffer's 3 may wake, and 37 tells a level.)
    pub fn refused(self, answer: Answer) -> Outcome
        ensures { result ≡ refused_of self answer }
    {
        Outcome {
            answer,
            shown: Shown::Nothing,
            wakes: wakes::none(),
            table: self,
        }
    }
}
