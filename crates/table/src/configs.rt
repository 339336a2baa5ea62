// What a plant configures: its levels, places, card and privileged processes.
ghost use Rattle.std.specs.Prelude.{◌≡◌};
ghost use Rattle.table.specs.Configuration.{levels_good, scheduler_good, places_good, inputs_of, configured_of, privileged_good, apart_of, all_privileged_good, good_of, receiver_of, sender_of, of_level, has_input, privilege_of, owner_of};

use day::TimeOfDay;
use process::Target;

// Stands for the level of a privileged place that is not used. No Option: a place is three bytes of record 0 as they stand (`place_of` in
// machine), and `good` and `apart` are one test of these, where they would be a match on one Option and on two.
pub const UNUSED: u8 = 255;

// -1 as a 16-bit word: all, where one level could stand.
pub const MINUS_ONE: u16 = 65_535;

// The 16-bit words of numbers below 0 begin here. No `cast_signed() < 0`: tried, and the proof of SCHEDULE's checks didn't close; the definitions read
// the word itself (`negative16`).
pub const NEGATIVE: u16 = 32_768;

// A privileged process and its run of inputs.
#[derive(Clone, Copy)]
pub struct Privileged {
    pub level: u8,
    pub first: u8,
    pub last: u8,
}

#[derive(Clone, Copy)]
pub struct Config {
    // Lowest level L and number of processes P, as their 16-bit words: a negative one is above every limit.
    pub lowest: u16,
    pub processes: u16,
    // The scheduler's level.
    pub scheduler: u8,
    // Message places per process, NP.
    pub places: u8,
    // Order places, A.
    pub orders: u8,
    // Card type 8 or 16. A byte and no enum: record 0 may have any there (`configuration_of`), and another is answered 35 (`places_good`).
    pub card: u8,
    // What the clock reads at the start.
    pub clock: TimeOfDay,
    pub privileged: [Privileged; 3],
    // The size of the common data pool, in bytes.
    pub pool: u16,
}

// Whose orders a cancel names: -1 everybody's, 0 to 11 that level's, configured or not.
pub fn sender(word: u16) -> Target
    ensures { result ≡ sender_of word }
{
    if word == MINUS_ONE {
        return Target::All;
    }
    if word <= 11 {
        return Target::Level(word as u8);
    }
    Target::Unknown
}

impl Privileged {
    // The place is the level's.
    fn is_of(self, level: u8) -> bool
        ensures { result ≡ of_level level self }
    {
        (self.level != UNUSED) & (self.level == level)
    }

    // The place's run has the input.
    pub fn has_input(self, input: u16) -> bool
        ensures { result ≡ has_input input self }
    {
        (self.level != UNUSED) & (u16::from(self.first)..=u16::from(self.last)).contains(&input)
    }

    // Level, run and card fit, or the place is not used.
    fn good(self, config: Config) -> bool
        ensures { result ≡ privileged_good config self }
    {
        (self.level == UNUSED)
            | (config.has_level(u16::from(self.level))
                & (self.first <= self.last)
                & (u16::from(self.last) < config.inputs()))
    }

    // Two places are of two processes, and their runs do not meet.
    fn apart(self, other: Privileged) -> bool
        ensures { result ≡ apart_of self other }
    {
        (self.level == UNUSED)
            | (other.level == UNUSED)
            | ((self.level != other.level)
                & ((self.last < other.first) | (other.last < self.first)))
    }
}

impl Config {
    // L is 0 or more, P is 1 to 11, and L + P - 1 is at most 11.
    fn levels_good(self) -> bool
        ensures { result ≡ levels_good self }
    {
        let lowest = self.lowest as u32;
        let processes = self.processes as u32;
        (1..=11).contains(&processes) & (lowest + processes <= 12)
    }

    // One of the levels L to L + P - 1; no level is above 11.
    pub fn has_level(self, level: u16) -> bool
        ensures { result ≡ configured_of self level }
    {
        let lowest = self.lowest as u32;
        let processes = self.processes as u32;
        let level = level as u32;
        (lowest..lowest + processes).contains(&level) & (level <= 11)
    }

    // Whom a call names as its receiver: -1 all, a configured level that one.
    pub fn receiver(self, word: u16) -> Target
        ensures { result ≡ receiver_of self word }
    {
        if word == MINUS_ONE {
            return Target::All;
        }
        if self.has_level(word) {
            return Target::Level(word as u8);
        }
        Target::Unknown
    }

    // The privileged place of a level.
    pub fn privilege(self, level: u8) -> Option<Privileged>
        ensures { result ≡ privilege_of self level }
    {
        self.privileged
            .iter()
            .copied()
            .find(|place| place.is_of(level))
    }

    // The privileged place that owns an input.
    pub fn owner(self, input: u16) -> Option<Privileged>
        ensures { result ≡ owner_of self input }
    {
        self.privileged
            .iter()
            .copied()
            .find(|place| place.has_input(input))
    }

    // How many inputs the card has.
    pub fn inputs(self) -> u16
        ensures { result ≡ inputs_of self }
    {
        if self.card == 8 { 128 } else { 256 }
    }

    fn scheduler_good(self) -> bool
        ensures { result ≡ scheduler_good self }
    {
        let taken = self.has_level(u16::from(self.scheduler));
        (self.scheduler <= 11) & !taken
    }

    fn places_good(self) -> bool
        ensures { result ≡ places_good self }
    {
        (1..=16).contains(&self.places)
            & (1..=64).contains(&self.orders)
            & ((self.card == 8) | (self.card == 16))
    }

    fn privileged_good(self) -> bool
        ensures { result ≡ all_privileged_good self }
    {
        let [a, b, c] = self.privileged;
        a.good(self) & b.good(self) & c.good(self) & a.apart(b) & a.apart(c) & b.apart(c)
    }

    // The configuration is one that document 01 allows, and document 02, §1.
    pub fn good(self) -> bool
        ensures { result ≡ good_of self }
    {
        self.levels_good()
            & self.scheduler_good()
            & self.places_good()
            & self.privileged_good()
            & (self.clock.milliseconds < day::DAY)
            & (self.pool <= pool::LARGEST)
    }
}
