// The semaphores: who holds each, and who waits for one, in order of arrival.
#![tactic(auto)]

ghost use Rattle.std.specs.Prelude.{◌≡◌};
ghost use Rattle.semaphores.specs.Semaphores.{requested_number, released_number, usable_of, checked_of, fresh_of, request_of, holds_of, release_of, also_of, release_all_of};

pub mod queues;

use queues::{Levels, Queue, Waiter};

// Stands for a holder where there is none. No Option: a release that is refused tells the holder's place as it is, and `ToldAsSeen` (runs/specs/Sight)
// says that it is `free`, 255, where nobody holds it; the edits `a_held_semaphore_told_as_free` and `all_of_nobody` hold that in this code.
pub const FREE: u8 = 255;

#[derive(Clone, Copy)]
pub struct Semaphores {
    // The level that holds each number, or FREE.
    pub holders: [u8; 96],
    // All that wait, for whichever number: a semaphore's own queue is the part with its number.
    pub queue: Queue,
}

// A number is none that processes may use.
#[derive(Clone, Copy)]
pub struct Unusable;

#[derive(Clone, Copy)]
pub enum Requested {
    Held,
    Waits,
}

#[derive(Drop)]
pub struct Request {
    pub requested: Requested,
    pub semaphores: Semaphores,
}

// Why a release is refused.
#[derive(Clone, Copy)]
pub enum NotReleased {
    Unusable,
    // The caller does not hold it: the level that does, or FREE.
    NotHolder(u8),
}

#[derive(Drop)]
pub struct Release {
    // The first that waited, which holds it now; where nobody waited it is free.
    pub handed_to: Option<u8>,
    pub semaphores: Semaphores,
}

#[derive(Drop)]
pub struct ReleaseAll {
    // Who holds one of them now, in the order of their numbers.
    pub woken: Levels,
    pub semaphores: Semaphores,
}

impl From<Unusable> for NotReleased {
    ghost use Rattle.semaphores.specs.declared.NotReleased.{NotReleased};

    ghost from_gives = { λ _ why. why ≡ NotReleased.Unusable };

    fn from(_: Unusable) -> NotReleased {
        NotReleased::Unusable
    }
}

// The answer number of REQSEMA. (It and RELSEMA's are promised by docs/PROMISES.md.)
pub fn request_number(requested: Result<Requested, Unusable>) -> u8
    ensures { result ≡ requested_number requested }
{
    match requested {
        Err(Unusable) => 6,
        Ok(Requested::Held) => 0,
        Ok(Requested::Waits) => 32,
    }
}

// The answer number of RELSEMA: to whom the semaphore was handed over makes no difference.
pub fn release_number(released: Result<Option<u8>, NotReleased>) -> u8
    ensures { result ≡ released_number released }
{
    match released {
        Err(NotReleased::Unusable) => 15,
        Err(NotReleased::NotHolder(_)) => 37,
        Ok(_) => 0,
    }
}

// A number that processes may use: 0..31 for devices, 50..95 for whatever else they share.
pub fn usable(number: u16) -> bool
    ensures { result ≡ usable_of number }
{
    (number <= 31) | ((50 <= number) & (number <= 95))
}

// The number, if it is usable.
fn checked(number: u16) -> Result<u8, Unusable>
    ensures { result ≡ checked_of number }
{
    if usable(number) {
        Ok(number as u8)
    } else {
        Err(Unusable)
    }
}

impl Semaphores {
    // All free, nobody waits.
    pub fn fresh() -> Semaphores
        ensures { result ≡ fresh_of }
    {
        Semaphores {
            holders: [FREE; 96],
            queue: Queue::empty(Waiter::NOBODY),
        }
    }

    // REQSEMA: a free semaphore is the caller's, its own stays so, and for another's it waits, last in that queue.
    pub fn request(self, level: u8, number: u16) -> Result<Request, Unusable>
        ensures { result ≡ request_of self level number }
    {
        let number = checked(number)?;
        let at = usize::from(number);
        let holder = self.holders[at];
        let mut semaphores = self;
        let requested = if holder == FREE {
            semaphores.holders[at] = level;
            Requested::Held
        } else if holder == level {
            Requested::Held
        } else {
            semaphores.queue = self.queue.push(Waiter { level, number });
            Requested::Waits
        };
        Ok(Request {
            requested,
            semaphores,
        })
    }

    // The number is usable, and the level holds it.
    pub fn holds(self, level: u8, number: u16) -> bool
        ensures { result ≡ holds_of self level number }
    {
        usable(number) && self.holders[usize::from(number)] == level
    }

    // RELSEMA of one number: the first that waits for it holds it now, or it is free. Where it is refused, an unusable number goes first, then who
    // holds it.
    pub fn release(self, level: u8, number: u16) -> Result<Release, NotReleased>
        ensures { result ≡ release_of self level number }
    {
        let number = checked(number)?;
        let at = usize::from(number);
        let holder = self.holders[at];
        if holder != level {
            return Err(NotReleased::NotHolder(holder));
        }
        let mut semaphores = self;
        let Some(leaving) = queues::first_leaving(self.queue, number) else {
            semaphores.holders[at] = FREE;
            return Ok(Release {
                handed_to: None,
                semaphores,
            });
        };
        semaphores.holders[at] = leaving.level;
        semaphores.queue = leaving.queue;
        Ok(Release {
            handed_to: Some(leaving.level),
            semaphores,
        })
    }

    // RELSEMA of -1: all that the caller holds, numbers rising.
    pub fn release_all(self, level: u8) -> ReleaseAll
        ensures { result ≡ release_all_of self level }
    {
        let mut all = ReleaseAll {
            woken: Levels::empty(0),
            semaphores: self,
        };
        for number in 0..96 {
            // Most numbers are another's or nobody's: these are passed over without a copy of anything.
            if all.semaphores.holders[usize::from(number)] == level {
                all = all.also(level, number);
            }
        }
        all
    }
}

impl ReleaseAll {
    // One number more is released, and whoever holds it then is woken after the others.
    fn also(self, level: u8, number: u16) -> ReleaseAll
        ensures { result ≡ also_of self level number }
    {
        let Ok(release) = self.semaphores.release(level, number) else {
            return self;
        };
        let woken = match release.handed_to {
            Some(to) => self.woken.push(to),
            None => self.woken,
        };
        ReleaseAll {
            woken,
            semaphores: release.semaphores,
        }
    }
}
