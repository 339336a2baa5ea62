// The common data pool: which processes use it and the lengths that they stated, and the moving of its bytes, which the host lends beside the
// table.
#![tactic(auto)]

ghost use Rattle.std.specs.Prelude.{◌≡◌, ◌+◌, leb, replicate};
ghost use Rattle.pool.specs.Control.{fresh_of, user_of, begun_of, agrees_of, began_of, kept_of, stated_of};
ghost use Rattle.pool.specs.Parts.{put_of, get_of};

// The largest pool, in bytes.
pub const LARGEST: u16 = 4_096;

// Stands for a length that was never stated, where a length is given as a number.
pub const NEVER: u16 = 65_535;

// What a process has to do with the pool.
#[derive(Clone, Copy)]
pub struct User {
    // It has called INITPOOL.
    pub begun: bool,
    // The length that it stated last by POOLCHECK, if it stated one.
    pub stated: Option<u16>,
}

// Who uses the pool.
#[derive(Clone, Copy)]
pub struct Control {
    // By level.
    pub users: [User; 12],
    // The common length: the one that any process stated last.
    pub common: Option<u16>,
}

impl User {
    // Has called neither.
    pub const NONE: User = User {
        begun: false,
        stated: None,
    };
}

impl Control {
    // Nobody uses the pool yet.
    #[tactic(auto, unfolding(crate::specs::Control::fresh_of))]
    pub fn fresh() -> Control
        ensures { result ≡ fresh_of }
    {
        Control {
            users: [User::NONE; 12],
            common: None,
        }
    }

    // What the process at a level has to do with the pool; nothing where there is no such level.
    fn user(self, level: u8) -> User
        ensures { result ≡ user_of self level }
    {
        self.users
            .get(usize::from(level))
            .copied()
            .unwrap_or(User::NONE)
    }

    // The process at a level has called INITPOOL.
    #[tactic(auto, unfolding(crate::specs::Control::begun_of))]
    pub fn has_begun(self, level: u8) -> bool
        ensures { result ≡ begun_of self level }
    {
        self.user(level).begun
    }

    // The process at a level has stated no length, or the common one.
    #[tactic(auto, unfolding(crate::specs::Control::agrees_of))]
    pub fn agrees(self, level: u8) -> bool
        ensures { result ≡ agrees_of self level }
    {
        match (self.user(level).stated, self.common) {
            (None, _) => true,
            (Some(own), Some(common)) => own == common,
            (Some(_), None) => false,
        }
    }

    // The process at a level calls INITPOOL.
    pub fn begin(self, level: u8) -> Control
        ensures { result ≡ began_of self level }
    {
        let mut control = self;
        // No get_mut, here and below: a proof knows no element of an array that was written through it.
        if level < 12 {
            control.users[usize::from(level)].begun = true;
        }
        control
    }

    // The process at a level states a length, its own and the common one from now on. Who states NEVER has stated none, and there is no common one.
    pub fn state(self, level: u8, length: u16) -> Control
        ensures { result ≡ stated_of self level length }
    {
        let kept = kept(length);
        let mut control = self;
        if level < 12 {
            control.users[usize::from(level)].stated = kept;
        }
        control.common = kept;
        control
    }
}

// What is kept of a length: none of NEVER.
fn kept(length: u16) -> Option<u16>
    ensures { result ≡ kept_of length }
{
    if length == NEVER {
        return None;
    }
    Some(length)
}

// The bytes of the largest pool, as it begins.
pub fn cleared() -> [u8; 4_096]
    ensures { result ≡ replicate 4096 0 }
{
    [0; 4_096]
}

// A part lies within so many bytes.
fn lies(offset: usize, length: usize, bytes: usize) -> bool
    ensures { result ≡ leb (offset + length) bytes }
{
    offset.checked_add(length).is_some_and(|end| end <= bytes)
}

// The caller's data into a part of the pool, which is lent on from its offset. A part that does not lie within the pool is not touched.
pub fn put(pool: &mut [u8], offset: usize, given: &[u8])
    ensures { pool.new ≡ put_of pool.old offset given.now }
{
    if lies(offset, given.len(), pool.len()) {
        let part = &mut pool[offset..];
        common::put(part, 0, given);
    }
}

// A part of the pool, as long as the caller's buffer, into the buffer. A part that does not lie within the pool leaves the buffer as it is.
pub fn get(pool: &[u8], offset: usize, buffer: &mut [u8])
    ensures { buffer.new ≡ get_of pool.now offset buffer.old }
{
    let length = buffer.len();
    if lies(offset, length, pool.len()) {
        common::put(buffer, 0, &pool[offset..offset + length]);
    }
}
