// Document 01's "Cases to settle", run: a line for each, with what is asked and what comes. (Those marked p are proved: specs/Cases.) Semaphores 50 and 49
// are as document 02, §2, has them. Then the pool of document 02, §1, as a host lends it, and why RELSEMA is refused, §3.
#![tactic(auto)]

use day::{Fields, TimeOfDay};
use process::Condition;
use process::buffers::Message;
use rtms::{message_calls, pool_calls, semaphore_calls, state_calls, timer_calls};
use std::fmt;
use table::configs::{Config, Privileged, UNUSED};
use table::{Outcome, Shown, Table};
use timers::NewOrder;

// What lies in a privileged place that is not used.
const NOBODY: Privileged = Privileged {
    level: UNUSED,
    first: 0,
    last: 0,
};

// Where output fails there is nobody to tell; the comparison with `stdout` shows it.
fn word(rt: &impl Print, text: &[u8]) {
    let _ = rt.write_all(text);
}

// A blank, and a number behind it.
fn number(rt: &impl Print, value: u64) {
    let _ = print!(rt; " {value}");
}

fn end(rt: &impl Print) {
    word(rt, b"\n");
}

// A semaphore's number, and whether it is usable: 1 for yes, 0 for no.
fn usable(rt: &impl Print, asked: u16) {
    let _ = println!(rt;
        "usable {asked} {}",
        common::one_if(semaphores::usable(asked))
    );
}

// `to`, and the interval.
fn interval(rt: &impl Print, to: u32) {
    let _ = println!(rt; "interval {to} {}", orders::interval(to));
}

fn fields(hour: u8, minute: u8, second: u8, millisecond: u16) -> Fields {
    Fields {
        hour,
        minute,
        second,
        millisecond,
    }
}

// A time of day as the lines have it: hour, minute, second and millisecond.
#[derive(Drop)]
struct TimeText(Fields);

impl fmt::Display for TimeText {
    fn fmt<W: fmt::Write>(&self, f: &mut fmt::Formatter<W>) -> fmt::Result {
        let Fields {
            hour,
            minute,
            second,
            millisecond,
        } = self.0;
        write!(f, "{hour} {minute} {second} {millisecond}")
    }
}

// Hour, minute, second and millisecond, and their time of day, or that they are refused.
fn time(rt: &impl Print, asked: Fields) {
    let _ = print!(rt; "time {}", TimeText(asked));
    match TimeOfDay::made(asked) {
        Ok(moment) => number(rt, moment.milliseconds as u64),
        Err(_) => word(rt, b" refused"),
    }
    end(rt);
}

// A time of day in milliseconds, and its hour, minute, second and millisecond.
fn told(rt: &impl Print, time: TimeOfDay) {
    let _ = println!(rt; "fields {} {}", time.milliseconds, TimeText(time.fields()));
}

// The clock, the time of an absolute order, and its first delay. The interval is 1, so that it shows where the time is not looked at.
fn delay(rt: &impl Print, clock: TimeOfDay, asked: Fields) {
    let delay = orders::first_delay(clock, 1, TimeOfDay::made(asked).ok());
    let _ = println!(rt; "delay {} {} {delay}", clock.milliseconds, TimeText(asked));
}

// NP 1, four order places, card 8, nobody privileged and a pool of four bytes.
fn plant(lowest: u16, processes: u16, scheduler: u8, clock: TimeOfDay) -> Config {
    Config {
        lowest,
        processes,
        scheduler,
        places: 1,
        orders: 4,
        card: 8,
        clock,
        privileged: [NOBODY; 3],
        pool: 4,
    }
}

// L, P and the scheduler's level, and whether the configuration is good.
fn config(rt: &impl Print, lowest: u16, processes: u16, scheduler: u8) {
    let good = plant(lowest, processes, scheduler, TimeOfDay::MIDNIGHT).good();
    let _ = println!(rt;
        "config {lowest} {processes} {scheduler} {}",
        common::one_if(good)
    );
}

// Levels 2 and 3, of which 2 is started and may call.
fn started(clock: TimeOfDay) -> Table {
    state_calls::start(Table::fresh(plant(2, 2, 11, clock)), 2, 32).table
}

// A relative order of level 2 for level 3.
fn schedule(table: Table, to: u32) -> Outcome {
    let new = NewOrder {
        receiver: 3,
        condition: Condition::Always,
        absolute: false,
        time: fields(0, 0, 0, 0),
        to,
        count: 1,
        message: Message::ZEROS,
    };
    timer_calls::schedule(table, 2, new)
}

// The clock and `to` of a relative order, how many orders stand then, and when the first is due.
fn due(rt: &impl Print, clock: TimeOfDay, to: u32) {
    let orders = schedule(started(clock), to).table.orders;
    let moment = orders.list.items[0].due;
    let _ = println!(rt;
        "due {} {to} {} {}",
        clock.milliseconds, orders.list.count, moment.milliseconds
    );
}

// A message of level 2 for level 3, with ALWAYS.
fn send(table: Table) -> Outcome {
    message_calls::send(table, 2, 3, Condition::Always, Message::ZEROS)
}

// Two messages for a buffer of one place.
fn second_always(rt: &impl Print) {
    let first = send(started(TimeOfDay::MIDNIGHT));
    let second = send(first.table);
    let _ = println!(rt;
        "always {} {}",
        first.answer.number(),
        second.answer.number()
    );
}

// An order of level 2, cancelled as if it were level 3's.
fn wrong_sender(rt: &impl Print) {
    let entered = schedule(started(TimeOfDay::MIDNIGHT), 5);
    let cancelled = timer_calls::cancel_schedule(entered.table, 2, 3, 3);
    let _ = println!(rt;
        "cancel {} {}",
        entered.answer.number(),
        cancelled.answer.number()
    );
}

// Level 2 has called INITPOOL.
fn begun() -> Table {
    pool_calls::init_pool(started(TimeOfDay::MIDNIGHT), 2).table
}

// Two bytes put into the middle of the pool, and all four got: the answers, and what the caller's buffer holds.
fn put_and_get(rt: &impl Print) {
    let mut pool: [u8; 4] = [0; 4];
    let mut buffer: [u8; 4] = [9; 4];
    let put = pool_calls::put_pool(begun(), &mut pool, 2, 1, 2, &[7, 8]);
    let got = pool_calls::get_pool(put.table, &pool, 2, 0, 4, &mut buffer);
    let [a, b, c, d] = buffer;
    let _ = println!(rt;
        "put {} {} {a} {b} {c} {d}",
        put.answer.number(),
        got.answer.number()
    );
}

// A part that begins at an offset, as long as the buffer, of a pool that is lent shorter by so many bytes: the answer, and the buffer.
fn get_at(rt: &impl Print, offset: u16, count: u16, missing: usize) {
    let pool: [u8; 4] = [5; 4];
    let mut buffer: [u8; 4] = [9; 4];
    let got = pool_calls::get_pool(
        begun(),
        &pool[missing.min(4)..],
        2,
        offset,
        count,
        &mut buffer,
    );
    let [a, b, c, d] = buffer;
    let _ = println!(rt; "get {} {a} {b} {c} {d}", got.answer.number());
}

// Level 2 holds semaphore 7, and level 3 may call.
fn held() -> Table {
    let both = state_calls::start(started(TimeOfDay::MIDNIGHT), 3, 32);
    semaphore_calls::request(both.table, 2, 7).table
}

// A number that a level releases, the answer, and the holder where one is told.
fn release(rt: &impl Print, caller: u8, asked: u16) {
    let outcome = semaphore_calls::release(held(), caller, asked);
    let _ = print!(rt; "release {caller} {asked} {}", outcome.answer.number());
    match outcome.shown {
        Shown::Number(told) => number(rt, told),
        Shown::Nothing => word(rt, b" nothing"),
        Shown::Message(_) => word(rt, b" message"),
        Shown::Inputs(_) => word(rt, b" inputs"),
        Shown::Data(_) => word(rt, b" data"),
    }
    end(rt);
}

fn at(milliseconds: u32) -> TimeOfDay {
    TimeOfDay { milliseconds }
}

// Document 01's cases, one line each, as they stand there.
fn main(rt: HostRuntime) {
    usable(&rt, 31);
    usable(&rt, 50);
    usable(&rt, 51);
    usable(&rt, 95);
    usable(&rt, 32);
    usable(&rt, 49);
    usable(&rt, 96);
    usable(&rt, 128);
    interval(&rt, 0);
    interval(&rt, 86_400_000);
    interval(&rt, 86_399_999);
    delay(&rt, at(1_000), fields(0, 0, 1, 0));
    due(&rt, at(86_399_999), 1);
    time(&rt, fields(23, 59, 59, 999));
    time(&rt, fields(23, 59, 59, 1_000));
    told(&rt, at(0));
    told(&rt, at(999));
    told(&rt, at(1_000));
    told(&rt, at(59_999));
    told(&rt, at(60_000));
    told(&rt, at(3_599_999));
    told(&rt, at(3_600_000));
    told(&rt, at(45_296_789));
    told(&rt, at(86_399_999));
    told(&rt, at(86_400_000));
    told(&rt, at(4_294_967_295));
    config(&rt, 1, 11, 0);
    config(&rt, 2, 11, 0);
    second_always(&rt);
    wrong_sender(&rt);
    put_and_get(&rt);
    get_at(&rt, 0, 4, 0);
    get_at(&rt, 0, 3, 0);
    get_at(&rt, 1, 4, 0);
    get_at(&rt, 65_535, 4, 0);
    get_at(&rt, 0, 4, 1);
    release(&rt, 3, 7);
    release(&rt, 3, 8);
    release(&rt, 3, 49);
    release(&rt, 3, 65_535);
    release(&rt, 2, 7);
}
