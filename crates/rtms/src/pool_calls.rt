// Document 02, §1: INITPOOL, POOLCHECK, GETPOOL and PUTPOOL. The host lends the pool's bytes with the calls that move some; it begins as zeros
// (`pool::cleared`), and nothing else may write into it.
ghost use Rattle.std.specs.Prelude.{◌≡◌, ◌&&◌, leb, length};
ghost use Rattle.pooling.specs.Pooling.{buffer_by};
ghost use Rattle.table.specs.Sound.{sound_of};
ghost use Rattle.rtms.specs.Calls.{answer_of, INITPOOL, POOLCHECK, GETPOOL, PUTPOOL};
ghost use Rattle.rtms.specs.Pools.{lent_answer, pooled_by};

use crate::guard::guarded;
use pooling::Part;
use table::answers::Answer;
use table::{Outcome, Table, soundness};

pub fn init_pool(table: Table, caller: u8) -> Outcome
    ensures { result ≡ answer_of (INITPOOL caller) table }
{
    guarded(table, |table| pooling::init_pool(table, caller))
}

pub fn pool_check(table: Table, caller: u8, stated: u16) -> Outcome
    ensures { result ≡ answer_of (POOLCHECK caller stated) table }
{
    guarded(table, |table| pooling::pool_check(table, caller, stated))
}

// The table shows no break, and what is lent for the pool has at least the configured size. The two calls that lend a pool make this test where
// the others are `guarded`: one writes into the pool and one into the buffer, so a closure for both would be no plainer.
fn lent(table: Table, bytes: usize) -> bool
    ensures { result ≡ sound_of table && leb table.config.pool bytes }
{
    let config = table.config;
    let size = config.pool as usize;
    soundness::sound(table) & (size <= bytes)
}

// The part of the pool into the caller's buffer. Refused, the buffer is untouched; the pool always keeps its bytes. Offset and count are two parameters, as
// those of every host's call are: a `Part` would change what hosts call, and the promise names them so (`GETPOOL caller offset count`).
pub fn get_pool(
    table: Table,
    pool: &[u8],
    caller: u8,
    offset: u16,
    count: u16,
    buffer: &mut [u8],
) -> Outcome
    ensures { (result ≡ lent_answer (GETPOOL caller offset count (length buffer.old)) table pool.now) × (buffer.new ≡ buffer_by result.answer pool.now offset buffer.old) }
{
    if lent(table, pool.len()) {
        pooling::get_pool(table, pool, caller, Part { offset, count }, buffer)
    } else {
        table.refused(Answer::BadConfig)
    }
}

// The caller's data into the part of the pool, every other byte of which stays. Refused, all of them stay.
pub fn put_pool(
    table: Table,
    pool: &mut [u8],
    caller: u8,
    offset: u16,
    count: u16,
    given: &[u8],
) -> Outcome
    ensures { (result ≡ lent_answer (PUTPOOL caller offset count given.now) table pool.old) × (pool.new ≡ pooled_by (PUTPOOL caller offset count given.now) result.answer pool.old) }
{
    if lent(table, pool.len()) {
        pooling::put_pool(table, pool, caller, Part { offset, count }, given)
    } else {
        table.refused(Answer::BadConfig)
    }
}
