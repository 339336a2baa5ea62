// Whether a table that is handed in shows a break. A table that the executive made never does.
ghost use Rattle.std.specs.Prelude.{◌≡◌};
ghost use Rattle.table.specs.Sound.{times_of, level_sound, levels_sound, order_sound, orders_sound, holder_sound, holders_sound, waiter_sound, queue_sound, on_card, length_within, length_sound, lengths_sound, pool_sound, sound_of};

use crate::Table;
use crate::configs::Config;
use inputs::InputSet;
use orders::{Order, Orders};
use pool::{Control, User};
use process::Process;
use process::states::State;
use semaphores::FREE;
use semaphores::queues::{Queue, Waiter};

// How often a level is queued.
fn times(queue: &Queue, level: u8) -> usize
    ensures { result ≡ times_of level queue.now }
{
    queue
        .standing()
        .iter()
        .filter(|waiter| waiter.level == level)
        .count()
}

// A process at a configured level: its numbers within their limits, no message kept while it waits for one, and queued
// exactly where it waits for a semaphore.
fn level_sound(config: Config, queue: &Queue, level: u8, process: &Process) -> bool
    ensures { result ≡ level_sound config queue.now level process.now }
{
    let kept = process.buffer.list.count;
    let waits = process.state == State::WaitingForMessage;
    let queued = common::one_if(process.state == State::WaitingForSemaphore);
    !config.has_level(u16::from(level))
        | ((process.priority <= 63)
            & (kept <= usize::from(config.places))
            & (!waits | (kept == 0))
            & (times(queue, level) == queued))
}

fn levels_sound(config: Config, queue: &Queue, processes: &[Process; 12]) -> bool
    ensures { result ≡ levels_sound config queue.now processes.now }
{
    (0u8..12).zip(processes).all(|(level, process)| level_sound(config, queue, level, process))
}

fn order_sound(config: Config, order: &Order) -> bool
    ensures { result ≡ order_sound config order.now }
{
    let named = config.has_level(order.sender as u16) & config.has_level(order.receiver as u16);
    let within = (order.due.milliseconds < day::DAY)
        & (1..=day::DAY).contains(&order.every)
        & (order.left <= 32_767);
    named & within
}

// Not by `standing()`: tried, and the proof didn't close, since nothing tells that there are 64 places where `items` is not read. As for the queue.
fn orders_sound(config: Config, orders: &Orders) -> bool
    ensures { result ≡ orders_sound config orders.now }
{
    let all = orders
        .list
        .items
        .iter()
        .take(orders.list.count)
        .all(|order| order_sound(config, order));
    (orders.list.count <= usize::from(config.orders)) & all
}

fn holder_sound(config: Config, holder: u8) -> bool
    ensures { result ≡ holder_sound config holder }
{
    (holder == FREE) | config.has_level(holder as u16)
}

fn holders_sound(config: Config, holders: &[u8; 96]) -> bool
    ensures { result ≡ holders_sound config holders.now }
{
    holders.iter().all(|holder| holder_sound(config, *holder))
}

// A waiter: a configured level, at a usable semaphore that is held.
fn waiter_sound(config: Config, holders: &[u8; 96], waiter: &Waiter) -> bool
    ensures { result ≡ waiter_sound config holders.now waiter.now }
{
    let at = usize::from(waiter.number);
    semaphores::usable(u16::from(waiter.number))
        && (holders[at] != FREE) & config.has_level(u16::from(waiter.level))
}

fn queue_sound(config: Config, holders: &[u8; 96], queue: &Queue) -> bool
    ensures { result ≡ queue_sound config holders.now queue.now }
{
    let all = queue
        .items
        .iter()
        .take(queue.count)
        .all(|waiter| waiter_sound(config, holders, waiter));
    (queue.count <= 12) & all
}

// No input of the set is beyond the card.
fn on_card(config: Config, set: InputSet) -> bool
    ensures { result ≡ on_card config set }
{
    let last = (config.inputs() - 1) as u8;
    set.except(InputSet::run(0, last)).count() == 0
}

// A length that was stated is at most the pool's size.
fn length_within(config: Config, length: Option<u16>) -> bool
    ensures { result ≡ length_within config length }
{
    length.is_none_or(|length| length <= config.pool)
}

// What stands at a level that is not configured is not looked at.
fn length_sound(config: Config, level: u8, length: Option<u16>) -> bool
    ensures { result ≡ length_sound config level length }
{
    !config.has_level(u16::from(level)) | length_within(config, length)
}

// No function over this and `levels_sound`: each is one line.
fn lengths_sound(config: Config, users: &[User; 12]) -> bool
    ensures { result ≡ lengths_sound config users.now }
{
    (0u8..12)
        .zip(users)
        .all(|(level, user)| length_sound(config, level, user.stated))
}

fn pool_sound(config: Config, control: &Control) -> bool
    ensures { result ≡ pool_sound config control.now }
{
    lengths_sound(config, &control.users) & length_within(config, control.common)
}

// None of the breaks that document 01 lists.
pub fn sound(table: Table) -> bool
    ensures { result ≡ sound_of table }
{
    let config = table.config;
    let holders = &table.semaphores.holders;
    let queue = &table.semaphores.queue;
    config.good()
        & (table.clock.milliseconds < day::DAY)
        & levels_sound(config, queue, &table.processes)
        & orders_sound(config, &table.orders)
        & holders_sound(config, holders)
        & queue_sound(config, holders, queue)
        & on_card(config, table.mask)
        & on_card(config, table.latch)
        & pool_sound(config, &table.pool)
}
