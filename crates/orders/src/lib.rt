// Timer orders: the moments at which a message is to be delivered, in order of acceptance.
#![tactic(auto)]

ghost use Rattle.std.specs.Prelude.{◌≡◌, ℕ, Bool, Some, None, MatchResult};
ghost use Rattle.orders.specs.Moments.{interval_of, delay_of};
ghost use Rattle.orders.specs.declared.Order.{Order};
ghost use Rattle.orders.specs.Orders.{none_of, standing_of, orders_of, kept_from, Decides, accept_of};
ghost use Rattle.orders.specs.Advance.{due_at, again_of, onward_of, next_due_of, without_place_of};
ghost use Rattle.orders.specs.Cancel.{cancelled_number, refused_number, is_from, matches_of, how_many_of, without_of, removed_of, to_receiver, cancel_of};

use common::filled::Filled;
use day::TimeOfDay;
use process::buffers::Message;
use process::{Condition, Target};

// The most places that a configuration gives the order table.
pub const MOST_ORDERS: usize = 64;

#[derive(Clone, Copy)]
pub struct Order {
    // Who gave the order. No search for an order leaves it out: two customers' orders may agree in all else.
    pub sender: u8,
    pub receiver: u8,
    pub condition: Condition,
    // The time of day at which it is next carried out.
    pub due: TimeOfDay,
    // The interval in milliseconds, 1 to a day.
    pub every: u32,
    // How often it is still to be carried out; 0: without end.
    pub left: u16,
    pub message: Message,
}

// The orders that stand, the first accepted at place 0. What lies past them makes no difference. No heap: memory is fixed.
#[derive(Clone, Copy)]
pub struct Orders {
    pub list: Filled<Order, 64>,
}

// Why a cancel is refused: no order leaves.
#[derive(Clone, Copy)]
pub enum NotCancelled {
    // The sender is neither all nor a level.
    BadSender,
    // The receiver is no level that there is.
    UnknownReceiver,
    // No order stands.
    NoOrder,
    // None is for this receiver.
    NotFound,
    // None of those for this receiver is the sender's.
    NotTheirs,
}

impl NotCancelled {
    // The answer number of a CANCELSCHEDULE that is refused. A method, since a `From` would not say which number it is.
    pub fn number(self) -> u8
        ensures { result ≡ refused_number self }
    {
        match self {
            NotCancelled::BadSender => 6,
            NotCancelled::UnknownReceiver => 1,
            NotCancelled::NoOrder => 7,
            NotCancelled::NotFound => 8,
            NotCancelled::NotTheirs => 6,
        }
    }
}

// The answer number of CANCELSCHEDULE: 0 where it is done. (docs/PROMISES.md promises it.)
pub fn cancelled_number(cancelled: Result<(), NotCancelled>) -> u8
    ensures { result ≡ cancelled_number cancelled }
{
    match cancelled {
        Ok(()) => 0,
        Err(why) => why.number(),
    }
}

// SCHEDULE's `to`, where it is not negative, as an interval: 0 and a day or more are a day.
#[tactic(auto, unfolding(crate::specs::Moments::interval_of))]
pub fn interval(to: u32) -> u32
    ensures { result ≡ interval_of to }
{
    if (to == 0) | (day::DAY <= to) {
        day::DAY
    } else {
        to
    }
}

// How many ticks until an order is first carried out: at a time of day, or else one interval from now.
#[tactic(auto, unfolding(crate::specs::Moments::delay_of))]
pub fn first_delay(clock: TimeOfDay, every: u32, first: Option<TimeOfDay>) -> u32
    ensures { result ≡ delay_of clock every first }
{
    match first {
        Some(moment) => clock.until(moment),
        None => every,
    }
}

impl Order {
    // What lies in a free place.
    pub const NONE: Order = Order {
        sender: 0,
        receiver: 0,
        condition: Condition::Always,
        due: TimeOfDay::MIDNIGHT,
        every: 0,
        left: 0,
        message: Message::ZEROS,
    };

    // It is the named sender's own, or anybody's will do.
    #[tactic(auto, unfolding(crate::specs::Cancel::is_from))]
    fn is_from(self, sender: Target) -> bool
        ensures { result ≡ is_from sender self }
    {
        match sender {
            Target::All => true,
            Target::Level(level) => self.sender == level,
            Target::Unknown => false,
        }
    }

    // It is for the receiver, and from the sender. Two parameters, here and below, and no struct of them: `removed` asks for everybody's orders to the
    // receiver before it asks for the sender's, so that each question would make one, and each answer take it apart.
    #[tactic(auto, unfolding(crate::specs::Cancel::matches_of))]
    pub fn matches(self, sender: Target, receiver: u8) -> bool
        ensures { result ≡ matches_of sender receiver self }
    {
        (self.receiver == receiver) & self.is_from(sender)
    }

    // As it stands once it was carried out and not for the last time: one firing less, and without end stays without end.
    fn again(self) -> Order
        ensures { result ≡ again_of self }
    {
        Order {
            due: self.due.forward(self.every as u64),
            left: self.left.saturating_sub(1),
            ..self
        }
    }

    // The clock reads its moment.
    pub fn is_due(self, now: TimeOfDay) -> bool
        ensures { result ≡ due_at now self }
    {
        self.due == now
    }

    // After a moment: an order that was due then has one firing less, and leaves after its last or is next due its interval later.
    #[tactic(auto, unfolding(crate::specs::Advance::onward_of))]
    pub fn onward(self, now: TimeOfDay) -> Option<Order>
        ensures { result ≡ onward_of now self }
    {
        if !self.is_due(now) {
            Some(self)
        } else if self.left == 1 {
            None
        } else {
            Some(self.again())
        }
    }
}

impl Orders {
    pub fn none() -> Orders
        ensures { result ≡ none_of }
    {
        Orders {
            list: Filled::empty(Order::NONE),
        }
    }

    // The order as the last one, if one of so many places is left; else it comes back, and those that stand are as they were. In place: a table's orders
    // are two kilobytes.
    #[tactic(auto, unfolding(crate::specs::Orders::accept_of))]
    pub fn enter(&mut self, places: usize, order: Order) -> Result<(), Order>
        ensures { MatchResult result (λ _. accept_of self.old places order ≡ Some self.new)
            (λ back. (accept_of self.old places order ≡ None) × (self.new ≡ self.old) × (back ≡ order)) }
    {
        if self.list.count < places.min(MOST_ORDERS) {
            self.list.put(order);
            Ok(())
        } else {
            Err(order)
        }
    }

    // The same for who holds the orders by value.
    pub fn accept(mut self, places: usize, order: Order) -> Option<Orders>
        ensures { result ≡ accept_of self places order }
    {
        match self.enter(places, order) {
            Ok(()) => Some(self),
            Err(_) => None,
        }
    }

    // All but the order at one place, in a table that is written anew, free places too. Where no order stands there, all of them.
    pub fn without_place(&self, place: usize) -> Orders
        ensures { result ≡ without_place_of place self.now }
    {
        self.kept(|at, _| at != place)
    }

    // How long until an order is next due: a day at most.
    pub fn next_due(&self, clock: TimeOfDay) -> u32
        ensures { result ≡ next_due_of clock self.now }
    {
        self.list
            .standing()
            .iter()
            .map(|order| clock.until(order.due))
            .min()
            .unwrap_or(day::DAY)
    }

    // How many orders match a sender and a receiver.
    pub fn how_many(&self, sender: Target, receiver: u8) -> usize
        ensures { result ≡ how_many_of sender receiver self.now }
    {
        self.list
            .standing()
            .iter()
            .filter(|order| order.matches(sender, receiver))
            .count()
    }

    // All but those that match.
    fn without(&self, sender: Target, receiver: u8) -> Orders
        ensures { result ≡ without_of sender receiver self.now }
    {
        self.kept(|_, order| !order.matches(sender, receiver))
    }

    // Those that pass a test of their place and of themselves, in a table that is written anew, free places too.
    fn kept<F: Fn(usize, &Order) -> bool>(&self, stays: F) -> Orders
        requires { F.IsAlwaysCallable stays }
        ensures { (test : ℕ → Order → Bool) → Decides (F.post stays) test → result ≡ orders_of (kept_from test 0 (standing_of self.now)) }
    {
        let mut kept = Orders::none();
        for (at, order) in self.list.standing().iter().enumerate() {
            if stays(at, order) {
                kept.list.put(*order);
            }
        }
        kept
    }

    // CANCELSCHEDULE: the orders that are left. Where a sender is named, only its own leave.
    #[tactic(auto, unfolding(crate::specs::Cancel::cancel_of))]
    pub fn cancel(&self, sender: Target, receiver: Target) -> Result<Orders, NotCancelled>
        ensures { result ≡ cancel_of sender receiver self.now }
    {
        match sender {
            Target::Unknown => Err(NotCancelled::BadSender),
            Target::All | Target::Level(_) => self.to_receiver(sender, receiver),
        }
    }

    fn to_receiver(&self, sender: Target, receiver: Target) -> Result<Orders, NotCancelled>
        ensures { result ≡ to_receiver sender receiver self.now }
    {
        match receiver {
            Target::Level(level) => self.removed(sender, level),
            Target::All | Target::Unknown => Err(NotCancelled::UnknownReceiver),
        }
    }

    #[tactic(auto, unfolding(crate::specs::Cancel::removed_of))]
    fn removed(&self, sender: Target, receiver: u8) -> Result<Orders, NotCancelled>
        ensures { result ≡ removed_of sender receiver self.now }
    {
        if self.list.count == 0 {
            return Err(NotCancelled::NoOrder);
        }
        if self.how_many(Target::All, receiver) == 0 {
            return Err(NotCancelled::NotFound);
        }
        if self.how_many(sender, receiver) == 0 {
            return Err(NotCancelled::NotTheirs);
        }
        Ok(self.without(sender, receiver))
    }
}
