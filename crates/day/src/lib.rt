// The time of day: what document 01 calls the clock and every moment that a timer order is due.
#![tactic(auto)]

ghost use Rattle.std.specs.Prelude.{◌≡◌, ◌*◌, ◌<◌, ◌≤◌};
ghost use Rattle.day.specs.TimeOfDay.{forward_of, until_of};
ghost use Rattle.day.specs.Fields.{time_of, made_of, fields_of};
ghost use Rattle.day.specs.Counting.{counted_of, Halved};

// The length of a day in milliseconds; document 01 calls it D.
pub const DAY: u32 = 86_400_000;

// The same, for sums with any number of milliseconds.
const WIDE_DAY: u64 = DAY as u64;

// An hour, a minute and a second, in milliseconds.
const HOUR: u32 = 3_600_000;

const MINUTE: u32 = 60_000;

const SECOND: u32 = 1_000;

// A moment of the day, in milliseconds after midnight. One of a day or more reads as the time of day that the clock shows
// then: no function asks for less.
#[derive(Clone, Copy, PartialEq, Eq)]
pub struct TimeOfDay {
    pub milliseconds: u32,
}

// A time of day as a plant's programs write it and READTIME hands it out.
#[derive(Clone, Copy)]
pub struct Fields {
    pub hour: u8,
    pub minute: u8,
    pub second: u8,
    pub millisecond: u16,
}

// Which field of a time of day is out of its range.
#[derive(Clone, Copy, PartialEq, Eq)]
pub enum BadField {
    Millisecond,
    Second,
    Minute,
    Hour,
}

// How many whole units of time a number of milliseconds has, and the milliseconds that are left.
#[derive(Clone, Copy)]
struct Count {
    units: u8,
    left: u32,
}

// The time that fields name, where none is out of its range.
fn named(fields: Fields) -> TimeOfDay
    ensures { result ≡ time_of fields }
{
    TimeOfDay {
        milliseconds: u32::from(fields.hour) * HOUR
            + u32::from(fields.minute) * MINUTE
            + u32::from(fields.second) * SECOND
            + u32::from(fields.millisecond),
    }
}

// What was counted by twice a piece, counted by the piece.
#[tactic(auto, using(crate::proofs::Halving::one_more, crate::proofs::Halving::none_more))]
fn halved(count: Count, piece: u32) -> Count
    requires { (0 < piece) × (count.units ≤ 127) }
    ensures { Halved count piece result }
{
    let Count { units, left } = count;
    if piece <= left {
        Count {
            units: units + units + 1,
            left: left - piece,
        }
    } else {
        Count {
            units: units + units,
            left,
        }
    }
}

// A number of milliseconds, less than 64 units, in units and what is left. A piece of 32 units is tried first, then its half, and so on
// down to one: six turns, each with one comparison and at most one subtraction. The units begin with a mark, 1, which the sixth turn has
// moved to 64: the loop needs no counter, and a compiler that cannot count its turns does not write it out six times.
fn counted(milliseconds: u32, unit: u32) -> Count
    requires { (0 < unit) × (32 * unit ≤ 4294967295) × (milliseconds < 64 * unit) }
    ensures { result ≡ counted_of milliseconds unit }
{
    let mut count = Count {
        units: 1,
        left: milliseconds,
    };
    let mut piece = unit * 32;
    while count.units < 64 {
        count = halved(count, piece);
        piece = piece >> 1;
    }
    Count {
        units: count.units - 64,
        left: count.left,
    }
}

impl TimeOfDay {
    pub const MIDNIGHT: TimeOfDay = TimeOfDay { milliseconds: 0 };

    // The time of day that the fields name, or the first of them that is out of its range.
    #[tactic(auto, unfolding(crate::specs::Fields::made_of))]
    pub fn made(fields: Fields) -> Result<TimeOfDay, BadField>
        ensures { result ≡ made_of fields }
    {
        if 999 < fields.millisecond {
            return Err(BadField::Millisecond);
        }
        if 59 < fields.second {
            return Err(BadField::Second);
        }
        if 59 < fields.minute {
            return Err(BadField::Minute);
        }
        if 23 < fields.hour {
            return Err(BadField::Hour);
        }
        Ok(named(fields))
    }

    // Hour, minute, second and millisecond, without division.
    #[tactic(auto, using(crate::proofs::Halving::left_of_lem, crate::proofs::UnitByUnit::unit_by_unit))]
    pub fn fields(self) -> Fields
        ensures { result ≡ fields_of self }
    {
        let days = counted(self.milliseconds, DAY);
        let hours = counted(days.left, HOUR);
        let minutes = counted(hours.left, MINUTE);
        let seconds = counted(minutes.left, SECOND);
        Fields {
            hour: hours.units,
            minute: minutes.units,
            second: seconds.units,
            millisecond: seconds.left as u16,
        }
    }

    // Later by any number of milliseconds, past midnight as often as it takes.
    #[tactic(auto, unfolding(crate::specs::TimeOfDay::forward_of))]
    pub fn forward(self, by: u64) -> TimeOfDay
        ensures { result ≡ forward_of self by }
    {
        TimeOfDay {
            milliseconds: ((u64::from(self.milliseconds) + by % WIDE_DAY) % WIDE_DAY) as u32,
        }
    }

    // How many milliseconds until the clock next reads `moment`: from 1 to a day, a day where it reads it now.
    #[tactic(auto, using(crate::proofs::Until::until_later, crate::proofs::Until::until_earlier))]
    pub fn until(self, moment: TimeOfDay) -> u32
        ensures { result ≡ until_of self moment }
    {
        let now = self.milliseconds % DAY;
        let then = moment.milliseconds % DAY;
        if now < then {
            then - now
        } else {
            DAY - now + then
        }
    }
}
