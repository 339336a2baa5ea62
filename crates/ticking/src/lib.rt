// The clock's ticks: one, and a run of any number of them, for a table that is known to be sound.
#![tactic(auto)]

ghost use Rattle.std.specs.Prelude.{◌≡◌, true, false};
ghost use Rattle.calls.specs.Effects.{outcome_of};
ghost use Rattle.ticking.specs.Ticking.{run_effect, tick_of, ticks_of, runs_on, none_due, clock_after, scheduler_after, is_lull, lull_of};

use day::TimeOfDay;
use orders::Orders;
use posting::Origin;
use table::{Outcome, Scheduler, Table, wakes};

// What so many ticks come to where they carry out no order: a lull. The clock and the scheduler are all that changes.
#[derive(Clone, Copy)]
pub struct Lull {
    pub clock: TimeOfDay,
    pub scheduler: Scheduler,
}

// So many ticks of a scheduler that runs on. A turn of the loop is one order of a moment, in order of acceptance, or, when all of them are through, the way to
// the next moment at which one is due: quiet ticks are not walked. The loop writes into the arrays themselves. Not through
// `Posting::post`, which asks whether a buffer was full, and serves levels that there are not: no plainer.
fn running_on(table: Table, count: u32) -> Outcome
    requires { (table.scheduler.running ≡ true) × (table.scheduler.switch ≡ false) }
    ensures { result ≡ outcome_of (run_effect (ticks_of count table)) }
{
    let mut after = table;
    let config = after.config;
    let places = config.places as usize;
    let mut processes = after.processes;
    let mut wakes = wakes::none();
    let mut orders = after.orders;
    let mut clock = after.clock;
    let mut carried: u64 = 0;
    let mut left = count;
    // The orders before `at` are through with the moment that the clock reads, and the next that one of these is due is so far off.
    let mut nearest = orders.next_due(clock);
    let mut standing = orders.list.count.min(orders::MOST_ORDERS);
    let mut at = standing;
    while (0 < left) | (at < standing) {
        if at < standing {
            let order = orders.list.items[at];
            let receiver = order.receiver;
            let is_due = order.is_due(clock);
            if is_due & (receiver < 12) {
                let mut process = processes[receiver as usize];
                let fate = posting::deliver(
                    Origin::Timed,
                    places,
                    order.condition,
                    order.message,
                    &mut process,
                );
                processes[receiver as usize] = process;
                if posting::is_handed(fate) {
                    wakes = posting::pushed(wakes, receiver, fate, order.message);
                }
            }
            carried += common::one_if(is_due) as u64;
            if let Some(next) = order.onward(clock) {
                orders.list.items[at] = next;
                nearest = nearest.min(clock.until(next.due));
                at += 1;
            } else {
                orders = orders.without_place(at);
                standing -= 1;
            }
        } else {
            let passed = (left - 1).min(nearest - 1);
            clock = clock.forward(passed as u64 + 1);
            left -= passed + 1;
            nearest = day::DAY;
            at = 0;
        }
    }
    // Past the last place none leaves: the free places are written anew, as each carrying out leaves them.
    if 0 < carried {
        orders = orders.without_place(orders::MOST_ORDERS);
    }
    after.clock = clock;
    after.processes = processes;
    after.orders = orders;
    calls::with_number(after, carried, wakes)
}

// The scheduler carries out what is due at the next tick.
fn runs_on(scheduler: Scheduler) -> bool
    ensures { result ≡ runs_on scheduler }
{
    scheduler.running & !scheduler.switch
}

// No order is due at any of the next so many ticks. (Where none stands, none is looked for.)
#[tactic(auto, unfolding(crate::specs::Ticking::none_due))]
fn none_due(orders: Orders, clock: TimeOfDay, count: u32) -> bool
    ensures { result ≡ none_due orders clock count }
{
    (orders.list.count == 0) || count < orders.next_due(clock)
}

// What the clock reads after so many ticks.
#[tactic(auto, unfolding(crate::specs::Ticking::clock_after))]
fn clock_after(clock: TimeOfDay, count: u32) -> TimeOfDay
    ensures { result ≡ clock_after clock count }
{
    if count == 0 {
        clock
    } else {
        clock.forward(count as u64)
    }
}

// The scheduler after so many ticks. One that does not run on is stopped after the first.
#[tactic(auto, unfolding(crate::specs::Ticking::scheduler_after))]
fn scheduler_after(scheduler: Scheduler, count: u32) -> Scheduler
    ensures { result ≡ scheduler_after scheduler count }
{
    if runs_on(scheduler) | (count == 0) {
        scheduler
    } else {
        Scheduler {
            running: false,
            ..scheduler
        }
    }
}

// No order is carried out by any of the next so many ticks.
#[tactic(auto, unfolding(crate::specs::Ticking::is_lull))]
fn is_lull(scheduler: Scheduler, orders: Orders, clock: TimeOfDay, count: u32) -> bool
    ensures { result ≡ is_lull scheduler orders clock count }
{
    !runs_on(scheduler) || none_due(orders, clock, count)
}

// What so many ticks come to, if they carry out no order. These parts of a table are enough to tell, so that a lull is found before the table is
// copied.
#[tactic(auto, unfolding(crate::specs::Ticking::lull_of))]
pub fn lull_of(scheduler: Scheduler, orders: Orders, clock: TimeOfDay, count: u32) -> Option<Lull>
    ensures { result ≡ lull_of scheduler orders clock count }
{
    is_lull(scheduler, orders, clock, count).then(|| Lull {
        clock: clock_after(clock, count),
        scheduler: scheduler_after(scheduler, count),
    })
}

// One tick.
pub fn tick(table: Table) -> Outcome
    ensures { result ≡ outcome_of (run_effect (tick_of table)) }
{
    ticks(table, 1)
}

// So many ticks, one after the other. A lull costs one step, however long it is.
pub fn ticks(table: Table, count: u32) -> Outcome
    ensures { result ≡ outcome_of (run_effect (ticks_of count table)) }
{
    if let Some(lull) = lull_of(table.scheduler, table.orders, table.clock, count) {
        let mut after = table;
        after.clock = lull.clock;
        after.scheduler = lull.scheduler;
        calls::with_number(after, 0, wakes::none())
    } else {
        running_on(table, count)
    }
}
