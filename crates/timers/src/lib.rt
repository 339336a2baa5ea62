// The calls of timer orders and the clock: SCHEDULE, CANCELSCHEDULE, SHUTDOWN, the start of the scheduler and READTIME, for a
// table that is known to be sound.
#![tactic(auto)]

ghost use Rattle.std.specs.Prelude.{◌≡◌};
ghost use Rattle.calls.specs.Effects.{outcome_of, Has};
ghost use Rattle.timers.specs.Timers.{moment_of, order_of, ordered, schedule_verdict, schedule_of, cancelled_of, cancel_schedule_of, shutdown_of, start_scheduler_of, read_time_of};

use calls::check;
use day::{BadField, Fields, TimeOfDay};
use orders::Order;
use process::Condition;
use process::buffers::Message;
use table::answers::Answer;
use table::{Outcome, Said, Scheduler, Shown, Table, configs, wakes};

// What SCHEDULE is told. Signed numbers are the words of their bits.
#[derive(Clone, Copy)]
pub struct NewOrder {
    pub receiver: u16,
    pub condition: Condition,
    // No Option beside `time`: a relative order may have anything in its fields (the edit `a_relative_orders_fields_are_tested`).
    pub absolute: bool,
    // The time of day of an absolute order; a relative one may have anything here.
    pub time: Fields,
    pub to: u32,
    pub count: u16,
    pub message: Message,
}

// The 32-bit words of numbers below 0 begin here, as `configs::NEGATIVE` is in 16 bits.
const LONG_NEGATIVE: u32 = 2_147_483_648;

// When an order is first to be carried out: at a time of day, one interval from now (None), or never, since a field is out of its range.
pub type Moment = Result<Option<TimeOfDay>, BadField>;

// The time of an order's fields, which count only if it is absolute.
#[tactic(auto, unfolding(crate::specs::Timers::moment_of))]
fn moment_of(absolute: bool, time: Fields) -> Moment
    ensures { result ≡ moment_of absolute time }
{
    if absolute {
        Ok(Some(TimeOfDay::made(time)?))
    } else {
        Ok(None)
    }
}

// The order as it is entered, with the moment at which it is first due. (It is made where the moment passed its check; what stands for another one is never
// used.)
fn order(clock: TimeOfDay, caller: u8, receiver: u8, moment: Moment, new: NewOrder) -> Order
    ensures { result ≡ order_of clock caller receiver moment new }
{
    let condition = new.condition;
    let message = new.message;
    let every = orders::interval(new.to);
    let delay = orders::first_delay(clock, every, moment.unwrap_or(None));
    let due = clock.forward(delay as u64);
    Order {
        sender: caller,
        receiver,
        condition,
        due,
        every,
        left: new.count,
        message,
    }
}

// An order without fault is entered, if a place is left.
fn entered(table: &mut Table, order: Order) -> Said
    ensures { Has (ordered table.old order) result table.new }
{
    match table.orders.enter(table.config.orders as usize, order) {
        Ok(()) => calls::done(),
        Err(_) => calls::said(Answer::TaskListOverflow, wakes::none()),
    }
}

// The checks of SCHEDULE, but for the last, which is whether a place is left.
#[tactic(auto, unfolding(calls::specs::Verdicts::also_of))]
fn schedule_checked(table: &Table, caller: u8, new: NewOrder, moment: Moment) -> Result<(), Answer>
    ensures { result ≡ schedule_verdict table.now.config table.now.processes caller new moment }
{
    let backward = LONG_NEGATIVE <= new.to;
    let negative = configs::NEGATIVE <= new.count;
    calls::may_call(table, caller)?;
    check(
        table.config.has_level(new.receiver),
        Answer::ReceiverUnknown,
    )?;
    check(!backward, Answer::ParameterError)?;
    check(!negative, Answer::ParameterError)?;
    check(moment.is_ok(), Answer::ParameterError)
}

pub fn schedule(table: Table, caller: u8, new: NewOrder) -> Outcome
    ensures { result ≡ outcome_of (schedule_of table caller new) }
{
    let moment = moment_of(new.absolute, new.time);
    let checked = schedule_checked(&table, caller, new, moment);
    calls::obeyed(table, checked, |table| {
        let order = order(table.clock, caller, new.receiver as u8, moment, new);
        entered(table, order)
    })
}

// A cancel by a process that may call. Only one that is done changes the table.
fn cancelled(table: &mut Table, sender: u16, receiver: u16) -> Said
    ensures { Has (cancelled_of table.old sender receiver) result table.new }
{
    let from = configs::sender(sender);
    let to = table.config.receiver(receiver);
    match table.orders.cancel(from, to) {
        Ok(orders) => {
            table.orders = orders;
            calls::done()
        }
        Err(why) => calls::said(why.into(), wakes::none()),
    }
}

pub fn cancel_schedule(table: Table, caller: u8, sender: u16, receiver: u16) -> Outcome
    ensures { result ≡ outcome_of (cancel_schedule_of table caller sender receiver) }
{
    let checked = calls::may_call(&table, caller);
    calls::obeyed(table, checked, |table| cancelled(table, sender, receiver))
}

// The next tick stops the scheduler.
pub fn shutdown(table: Table, caller: u8) -> Outcome
    ensures { result ≡ outcome_of (shutdown_of table caller) }
{
    let checked = calls::may_call(&table, caller);
    calls::obeyed(table, checked, |table| {
        table.scheduler.switch = true;
        calls::done()
    })
}

// (What is started is said again in settling: the edit `the_switch_survives_a_start` is of this one.)
pub fn start_scheduler(table: Table) -> Outcome
    ensures { result ≡ outcome_of (start_scheduler_of table) }
{
    let started = Scheduler {
        running: true,
        switch: false,
    };
    let mut changed = table;
    changed.scheduler = started;
    calls::answered(changed, Answer::Ok, wakes::none())
}

pub fn read_time(table: Table, caller: u8) -> Outcome
    ensures { result ≡ outcome_of (read_time_of table caller) }
{
    let checked = calls::may_call(&table, caller);
    calls::obeyed(
        table,
        checked,
        |table| Said {
            shown: Shown::Number(table.clock.milliseconds as u64),
            ..calls::done()
        },
    )
}
