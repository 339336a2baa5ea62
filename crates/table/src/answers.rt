// What a call is answered with: document 01's "Answer numbers", and those of document 02, §1 and §3.
ghost use Rattle.std.specs.Prelude.{◌≡◌};
ghost use Rattle.table.specs.Answers.{number_of, refusal_of, told_as, cancel_answer};

use orders::NotCancelled;
use process::marking::Told;

#[derive(Clone, Copy, PartialEq, Eq)]
pub enum Answer {
    Ok = 0,
    ReceiverUnknown = 1,
    ReceiverNotReady = 2,
    ReceiverBufferOverflow = 3,
    BufferEmpty = 4,
    BufferOverflow = 5,
    ParameterError = 6,
    NoTask = 7,
    NotFound = 8,
    CommandPrivileged = 9,
    NoUser = 10,
    IllegalInput = 11,
    TaskListOverflow = 13,
    TimeCondition = 14,
    NoSemaphoreNumber = 15,
    NoPoolInit = 16,
    PoolOverflow = 17,
    DataLengthFault = 18,
    PoolLengthFault = 19,
    Suspended = 32,
    NotReady = 33,
    Started = 34,
    BadConfig = 35,
    BadLog = 36,
    NotHolder = 37,
}

impl Answer {
    // The document's number.
    pub fn number(self) -> u8
        ensures { result ≡ number_of self }
    {
        self as u8
    }

    // Any answer but 0, 5, 14 and 32.
    pub fn is_refusal(self) -> bool
        ensures { result ≡ refusal_of self }
    {
        !matches!(
            self,
            Answer::Ok | Answer::BufferOverflow | Answer::TimeCondition | Answer::Suspended
        )
    }
}

// The answer with which a message is handed over.
impl From<Told> for Answer {
    ghost from_gives = { λ told answer. answer ≡ told_as told };

    fn from(told: Told) -> Answer {
        match told {
            Told::Nothing => Answer::Ok,
            Told::Overflow => Answer::BufferOverflow,
            Told::Time => Answer::TimeCondition,
        }
    }
}

// The answer of a CANCELSCHEDULE that is refused. The semaphores' refusals have no such `From`: an unusable number is answered 6 to REQSEMA and 15 to
// RELSEMA, and 37 goes with the level that it shows.
impl From<NotCancelled> for Answer {
    ghost from_gives = { λ why answer. answer ≡ cancel_answer why };

    fn from(why: NotCancelled) -> Answer {
        match why {
            NotCancelled::BadSender => Answer::ParameterError,
            NotCancelled::UnknownReceiver => Answer::ReceiverUnknown,
            NotCancelled::NoOrder => Answer::NoTask,
            NotCancelled::NotFound => Answer::NotFound,
            NotCancelled::NotTheirs => Answer::ParameterError,
        }
    }
}
