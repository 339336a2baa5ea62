// Who wakes by a call, an event or a tick, and with what.
ghost use Rattle.std.specs.Prelude.{◌≡◌};
ghost use Rattle.table.specs.Wakes.{wake_number_of, no_wakes_of};

use common::filled::Filled;
use inputs::InputSet;
use process::buffers::Message;
use process::marking::Told;

// By what a process wakes.
#[derive(Clone, Copy)]
pub enum Woken {
    // A message, which is handed over with one mark told.
    ByMessage(Told, Message),
    // An event on one of its inputs.
    ByEvent(InputSet),
    // A semaphore that it waited for is its own now.
    ByHandover,
}

#[derive(Clone, Copy)]
pub struct Wake {
    pub level: u8,
    pub woken: Woken,
}

// In order: the first at place 0. Twelve are enough, since a process wakes at most once.
pub type Wakes = Filled<Wake, 12>;

impl Wake {
    // What lies in a free place.
    pub const NOBODY: Wake = Wake {
        level: 0,
        woken: Woken::ByEvent(InputSet { words: [0; 4] }),
    };

    // The answer number with which it wakes. A method, since a `From<Wake>` would not say which number it is.
    pub fn number(self) -> u8
        ensures { result ≡ wake_number_of self }
    {
        match self.woken {
            Woken::ByMessage(told, _) => told.number(),
            Woken::ByEvent(_) | Woken::ByHandover => 0,
        }
    }
}

// Nobody wakes.
pub fn none() -> Wakes
    ensures { result ≡ no_wakes_of }
{
    Filled::empty(Wake::NOBODY)
}
