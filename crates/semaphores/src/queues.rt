// Who waits for a semaphore, in order of arrival, and lists of levels.
ghost use Rattle.std.specs.Prelude.{◌≡◌};
ghost use Rattle.semaphores.specs.Queues.{leaving_of};

use common::filled::Filled;

#[derive(Clone, Copy)]
pub struct Waiter {
    pub level: u8,
    pub number: u8,
}

// Those that wait, the first at place 0. At most as many as there are levels: a process waits for one semaphore at a time. (Where all twelve places are
// taken, one more would be left out; no process waits twice, so that never happens.)
pub type Queue = Filled<Waiter, 12>;

// Levels in order: place 0 first.
pub type Levels = Filled<u8, 12>;

// Who waited first for a number, and the queue without it.
#[derive(Clone, Copy)]
pub struct Leaving {
    pub level: u8,
    pub queue: Queue,
}

impl Waiter {
    pub const NOBODY: Waiter = Waiter {
        level: 0,
        number: 0,
    };
}

// The first that waits for the number leaves, if there is one.
pub fn first_leaving(queue: Queue, number: u8) -> Option<Leaving>
    ensures { result ≡ leaving_of queue number }
{
    let mut first = None;
    let mut others = Queue::empty(Waiter::NOBODY);
    for waiter in queue.standing() {
        // The first with the number leaves, and every other stays.
        if first.is_some() | (waiter.number != number) {
            others = others.push(*waiter);
        } else {
            first = Some(waiter.level);
        }
    }
    let level = first?;
    Some(Leaving {
        level,
        queue: others,
    })
}
