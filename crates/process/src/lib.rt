// One process: its state, priority, marks and message buffer, and how a message reaches it.
#![tactic(auto)]

ghost use Rattle.std.specs.Prelude.{◌≡◌};
ghost use Rattle.process.specs.Process.{fresh_of, moved_of, with_priority_of, cleared_of, overflow_marked_of, time_marked_of, delivery, handed_of, stored_of, deliver_of, taken_of, is_known};

pub mod buffers;
pub mod marking;
pub mod states;

use buffers::{Buffer, Message};
use marking::{Marks, Telling, Told};
use states::{Cause, State};

#[derive(Clone, Copy)]
pub struct Process {
    pub state: State,
    pub priority: u8,
    pub marks: Marks,
    pub buffer: Buffer,
}

// Whom a call names: all, one level, or nobody there is. No Option: `Orders::cancel` is handed what a call names, known or not, and answers an unknown
// sender and an unknown receiver apart (`cancel_of`), and `is_known` is promised of all three (the edit `nobody_is_known`).
#[derive(Clone, Copy)]
pub enum Target {
    All,
    Level(u8),
    Unknown,
}

// What a sender asks of the receiver: that it waits for a message, or nothing.
#[derive(Clone, Copy)]
pub enum Condition {
    Always,
    Waiting,
}

// What became of a message.
#[derive(Clone, Copy)]
pub enum Fate {
    // It was handed over and woke the process, which is told this of its marks.
    Handed(Told),
    Stored,
    // It was meant for a waiting process, and this one does not wait for a message.
    NotWaiting,
    // The buffer has no place left.
    Full,
}

// The oldest message, as its process has taken it.
#[derive(Drop)]
pub struct Taken {
    pub told: Told,
    pub message: Message,
    pub process: Process,
}

impl Target {
    // Somebody is named.
    pub fn is_known(self) -> bool
        ensures { result ≡ is_known self }
    {
        matches!(self, Target::All | Target::Level(_))
    }
}

impl Process {
    // As every process is before its START.
    pub fn fresh() -> Process
        ensures { result ≡ fresh_of }
    {
        Process {
            state: State::Inactive,
            priority: 32,
            marks: Marks::CLEAR,
            buffer: Buffer::empty(),
        }
    }

    // In the state that the cause leads to; the same where it leads nowhere.
    pub fn moved(self, cause: Cause) -> Process
        ensures { result ≡ moved_of self cause }
    {
        match self.state.next(cause) {
            Some(state) => Process { state, ..self },
            None => self,
        }
    }

    // SETPRIORITY's change to a record that is lent: its priority, and nothing more in it.
    pub fn set_priority(&mut self, priority: u8)
        ensures { self.new ≡ with_priority_of self.old priority }
    {
        self.priority = priority;
    }

    // The same for who holds the record by value.
    pub fn with_priority(mut self, priority: u8) -> Process
        ensures { result ≡ with_priority_of self priority }
    {
        self.set_priority(priority);
        self
    }

    // CLEARMESSAGE's change: the messages go, the marks stay.
    pub fn cleared(mut self) -> Process
        ensures { result ≡ cleared_of self }
    {
        self.buffer = Buffer::empty();
        self
    }

    // Marked because its full buffer lost a message that was sent. (Two functions: what differs is a field, and no parameter names a field.)
    pub fn mark_overflow(&mut self)
        ensures { self.new ≡ overflow_marked_of self.old }
    {
        self.marks.overflow = true;
    }

    // Marked because a timer order's message did not reach it.
    pub fn mark_time(&mut self)
        ensures { self.new ≡ time_marked_of self.old }
    {
        self.marks.time = true;
    }

    // A message on its way to this process, whether it was sent or a timer order's: handed over at once if the process
    // waits for one, else kept in one of so many places. Marks for a message that is lost are the sender's matter.
    pub fn deliver(&mut self, condition: Condition, places: usize, message: Message) -> Fate
        ensures { delivery result self.new ≡ deliver_of self.old condition places message }
    {
        match self.state.next(Cause::Message) {
            Some(state) => self.hand(state),
            None => match condition {
                Condition::Always => self.store(places, message),
                Condition::Waiting => Fate::NotWaiting,
            },
        }
    }

    // The oldest message is handed over on the process's own call, and one of its marks is told.
    pub fn taken(self) -> Taken
        ensures { result ≡ taken_of self }
    {
        let Telling { told, marks } = self.marks.tell();
        Taken {
            told,
            message: self.buffer.oldest(),
            process: Process {
                marks,
                buffer: self.buffer.rest(),
                ..self
            },
        }
    }

    // Woken by a message, and told one of its marks.
    fn hand(&mut self, state: State) -> Fate
        ensures { delivery result self.new ≡ handed_of self.old state }
    {
        let Telling { told, marks } = self.marks.tell();
        self.state = state;
        self.marks = marks;
        Fate::Handed(told)
    }

    // Kept, if one of so many places is left.
    fn store(&mut self, places: usize, message: Message) -> Fate
        ensures { delivery result self.new ≡ stored_of self.old places message }
    {
        match self.buffer.put(places, message) {
            Ok(()) => Fate::Stored,
            Err(_) => Fate::Full,
        }
    }
}
