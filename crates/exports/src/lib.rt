// What a host in another language calls, from a static library. A slice is a pointer and a length.
#![tactic(auto)]

ghost use Rattle.std.specs.Prelude.{◌≡◌};
ghost use Rattle.day.specs.TimeOfDay.{at};
ghost use Rattle.day.specs.Fields.{fields_of};
ghost use Rattle.listing.specs.Text.{Laid};
ghost use Rattle.running.specs.Running.{listing_of};

use day::TimeOfDay;

// The whole listing of any bytes, at the front of a lent buffer. What does not fit is left out; the answer is how long it is.
#[unsafe(no_mangle)]
pub extern "C" fn rtms_listing(log: &[u8], out: &mut [u8]) -> usize
    ensures { Laid out.old 0 (listing_of log.now) 151000000 out.new result }
{
    running::list(log, out)
}

// The hour, minute, second and millisecond of a time of day in milliseconds, as READTIME answers it, each laid where the host wants it. No
// division is done, for controllers on which that is a large routine.
#[unsafe(no_mangle)]
pub extern "C" fn rtms_time_fields(
    milliseconds: u32,
    hour: &mut u8,
    minute: &mut u8,
    second: &mut u8,
    millisecond: &mut u16,
)
    ensures hour_after { hour.new ≡ (fields_of (at milliseconds)).hour }
    ensures minute_after { minute.new ≡ (fields_of (at milliseconds)).minute }
    ensures second_after { second.new ≡ (fields_of (at milliseconds)).second }
    ensures millisecond_after { millisecond.new ≡ (fields_of (at milliseconds)).millisecond }
{
    let time = TimeOfDay { milliseconds };
    let fields = time.fields();
    *hour = fields.hour;
    *minute = fields.minute;
    *second = fields.second;
    *millisecond = fields.millisecond;
}
