// How messages reach their receivers, whether a process sent them or a timer order carries them: one after the other, with the
// marks of those that lost one and the wakes of those that waited.
#![tactic(auto)]

ghost use Rattle.std.specs.Prelude.{◌≡◌, List};
ghost use Rattle.process.specs.declared.Process.{Process};
ghost use Rattle.process.specs.Process.{delivery};
ghost use Rattle.posting.specs.Posting.{letter, is_handed, is_full, is_lost, marked_by, delivered_to, delivered_in, begin_of, pushed_for, step_of};

use process::buffers::Message;
use process::{Condition, Fate, Process};
use table::wakes::{self, Wake, Wakes, Woken};

// Where a message comes from.
#[derive(Clone, Copy)]
pub enum Origin {
    // A process's SEND.
    Sent,
    // A timer order.
    Timed,
}

// What came of the messages that have been delivered so far: who wakes, and whether a full buffer lost one.
#[derive(Drop)]
pub struct Posting {
    pub wakes: Wakes,
    pub full: bool,
}

// The message was handed over, and so wakes its receiver. No method, as those below: `Fate` is of `process`, and their definitions
// are of this crate.
pub fn is_handed(fate: Fate) -> bool
    ensures { result ≡ is_handed fate }
{
    matches!(fate, Fate::Handed(_))
}

// The message was lost by a full buffer.
pub fn is_full(fate: Fate) -> bool
    ensures { result ≡ is_full fate }
{
    matches!(fate, Fate::Full)
}

// The message reached nobody.
fn is_lost(fate: Fate) -> bool
    ensures { result ≡ is_lost fate }
{
    matches!(fate, Fate::NotWaiting | Fate::Full)
}

// The mark that a lost message leaves at its receiver: SEND's is the overflow mark of a full buffer, a timer order's the time mark.
#[tactic(auto, unfolding(crate::specs::Posting::marked_by))]
fn mark(origin: Origin, fate: Fate, process: &mut Process)
    ensures { process.new ≡ marked_by origin fate process.old }
{
    match origin {
        Origin::Sent => {
            if is_full(fate) {
                process.mark_overflow();
            }
        }
        Origin::Timed => {
            if is_lost(fate) {
                process.mark_time();
            }
        }
    }
}

// A message at its receiver, with the mark that it leaves where it is lost. Condition and message go side by side wherever a message goes: hosts hand them
// over apart, and definitions and laws take them apart, so a struct of the two would be packed at each call for each contract to unpack: no plainer.
// (Origin and places are what the caller of each knows.)
pub fn deliver(
    origin: Origin,
    places: usize,
    condition: Condition,
    message: Message,
    process: &mut Process,
) -> Fate
    ensures { delivery result process.new ≡ delivered_to origin places condition message process.old }
{
    let fate = process.deliver(condition, places, message);
    mark(origin, fate, process);
    fate
}

// The wakes, and the receiver's own behind them if the message was handed over.
pub fn pushed(wakes: Wakes, level: u8, fate: Fate, message: Message) -> Wakes
    ensures { result ≡ pushed_for wakes level fate message }
{
    match fate {
        Fate::Handed(told) => wakes.push(Wake {
            level,
            woken: Woken::ByMessage(told, message),
        }),
        Fate::Stored | Fate::NotWaiting | Fate::Full => wakes,
    }
}

impl Posting {
    // Before the first message.
    pub fn begin() -> Posting
        ensures { (processes : List Process) → delivered_in processes result ≡ begin_of processes }
    {
        Posting {
            wakes: wakes::none(),
            full: false,
        }
    }

    // One message to one level, with so many places in its buffer. At a level that there is not, a process that was never started stands
    // in for the receiver, and nobody's record changes.
    pub fn post(
        &mut self,
        processes: &mut [Process; 12],
        origin: Origin,
        places: usize,
        receiver: u8,
        condition: Condition,
        message: Message,
    )
        ensures { delivered_in processes.new self.new ≡ step_of origin places (delivered_in processes.old self.old) (letter receiver condition message) }
    {
        let fate = if receiver < 12 {
            // No `&mut processes[..]` lent on: tried, and the proof didn't close, since it doesn't say what the element ends as.
            let mut process = processes[receiver as usize];
            let fate = deliver(origin, places, condition, message, &mut process);
            processes[receiver as usize] = process;
            fate
        } else {
            Process::fresh().deliver(condition, places, message)
        };
        self.wakes = pushed(self.wakes, receiver, fate, message);
        self.full |= is_full(fate);
    }
}
