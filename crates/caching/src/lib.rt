// The cache's C linkage: every exported function, thin over the calls below. include/redis_cache.h declares them and says what each parameter means.
// Contracts equate what comes out with the definitions that the calls have; a slice crosses as a pointer and a length. The single calls stand here,
// each of the others in a file of its own.
#![tactic(auto)]

pub mod epoch_call;
pub mod plan_call;
pub mod push_call;
pub mod resolve_call;
pub mod served_call;
pub mod value_end_call;

ghost use Rattle.std.specs.Prelude.{◌≡◌, ℕ, ◌+◌, ◌^◌, ◌<◌, length};
ghost use Rattle.config.specs.Config.{checked};
ghost use Rattle.statistics.specs.Counts.{reading};
ghost use Rattle.book.specs.Book.{Counts};
ghost use Rattle.book.specs.Counted.{Counted};
ghost use Rattle.single_calls.specs.Setup.{set_up, fresh_arena};
ghost use Rattle.statistics.specs.OfBook.{counts_of};
ghost use Rattle.single_calls.specs.Answers.{answer_number, FoundIn};
ghost use Rattle.caching.specs.Added.{none_yet, added_by, AddedLeft, LookupGiven};
ghost use Rattle.caching.specs.Place.{place_by, PartAt};
ghost use Rattle.caching.specs.Exported.{setup_return, flag_of, bytes_of, lookup_return, start_of, served_bytes, lookup_by, store_by, invalidate_by};

use config::{CacheConfig, Cause, Now};
use cursor::Range;
use single_calls::{Invalidated, NewCache};
use statistics::{CacheStatistics, Statistics};

// What setup returns: the number of the cause that refuses it, or 0; the epoch taken; the next epoch number.
#[repr(C)]
#[derive(Clone, Copy)]
pub struct RedisCacheSetup {
    pub cause: u64,
    pub epoch: u64,
    pub next: u64,
}

// What a lookup returns: the number of the cause that refuses it, or 0; 1 for a hit, else 0.
#[repr(C)]
#[derive(Clone, Copy)]
pub struct RedisCacheLookup {
    pub cause: u64,
    pub hit: u64,
}

// What an invalidation or a push comes to: the number of the cause that refuses it, or 0, and what it adds to the counts.
#[derive(Clone, Copy)]
pub struct Added {
    pub cause: u64,
    pub adds: Statistics,
}

// What a lookup comes to: what is returned, and what it adds to the counts.
#[derive(Clone, Copy)]
pub struct LookupAdded {
    pub answer: RedisCacheLookup,
    pub adds: Statistics,
}

fn setup_return(cache: Result<NewCache, Cause>) -> RedisCacheSetup
    ensures { result ≡ setup_return cache }
{
    match cache {
        Ok(fresh) => RedisCacheSetup {
            cause: single_calls::NO_CAUSE,
            epoch: fresh.epoch,
            next: fresh.next,
        },
        Err(cause) => RedisCacheSetup {
            cause: u64::from(cause),
            epoch: 0,
            next: 0,
        },
    }
}

// The cause's number in an answer.
// Kept: a function, since the number where no cause refuses a call is C's alone, and no `From` of a Result can be ours.
fn answer_number(answer: Result<(), Cause>) -> u64
    ensures { result ≡ answer_number answer }
{
    match answer {
        Ok(()) => single_calls::NO_CAUSE,
        Err(cause) => u64::from(cause),
    }
}

fn lookup_return(found: Result<Option<Range>, Cause>) -> RedisCacheLookup
    ensures { result ≡ lookup_return found }
{
    match found {
        Ok(Some(_)) => RedisCacheLookup {
            cause: single_calls::NO_CAUSE,
            hit: 1,
        },
        Ok(None) => RedisCacheLookup {
            cause: single_calls::NO_CAUSE,
            hit: 0,
        },
        Err(refusal) => {
            let cause = u64::from(refusal);
            RedisCacheLookup { cause, hit: 0 }
        }
    }
}

// Counts of which nothing was counted yet.
fn none_yet() -> Statistics
    ensures { result ≡ none_yet }
{
    Statistics {
        hit: 0,
        miss: 0,
        invalidate: 0,
    }
}

// A number of 64 bits is below 2^64.
fn fits(n: u64)
    ensures { n < 2 ^ 64 }
{}

// The counts in a record are numbers of 64 bits. Does nothing.
fn counted(counts: Statistics)
    ensures { Counted (counts_of counts) }
{
    fits(counts.hit);
    fits(counts.miss);
    fits(counts.invalidate);
}

// What a call that began with no counts comes to.
fn comes_to(done: Invalidated) -> Added
    ensures { result ≡ added_by done }
{
    let answer = done.answer;
    let adds = done.counts;
    Added {
        cause: answer_number(answer),
        adds,
    }
}

// The bytes that a lookup serves, as a part of the arena.
fn served<'a>(arena: &'a [u8], found: Result<Option<Range>, Cause>) -> &'a [u8]
    requires { FoundIn (length arena.now) found }
    ensures bytes { result.now ≡ served_bytes arena.now found }
    ensures place { (result.ref_ptr.0 ≡ arena.entry.ref_ptr.0) × (result.ref_ptr.1 ≡ start_of found + arena.entry.ref_ptr.1) }
{
    match found {
        Ok(Some(r)) => &arena[r.start..r.end],
        Ok(None) => &arena[0..0],
        Err(_) => &arena[0..0],
    }
}

// Sets a cache up in the arena, whatever the arena held.
#[unsafe(no_mangle)]
pub extern "C" fn redis_cache_setup(
    arena: &mut [u8],
    size: u64,
    mode: u64,
    ttl: u64,
) -> RedisCacheSetup
    ensures answer { result ≡ setup_return (set_up (checked size mode ttl (length arena.old))) }
    ensures bytes { arena.new ≡ fresh_arena (checked size mode ttl (length arena.old)) arena.old }
{
    setup_return(single_calls::setup(arena, CacheConfig { size, mode, ttl }))
}

// Stores the value for the command key under the key.
#[unsafe(no_mangle)]
pub extern "C" fn redis_cache_store(
    arena: &mut [u8],
    size: u64,
    mode: u64,
    ttl: u64,
    epoch: u64,
    key: &[u8],
    command: &[u8],
    value: &[u8],
    expiry: u64,
) -> u64
    ensures answer { (lent : Counts) (next : ℕ) →
        result ≡ (store_by size mode ttl epoch key.now command.now value.now expiry arena.old lent next).cause }
    ensures bytes { (lent : Counts) (next : ℕ) →
        arena.new ≡ (store_by size mode ttl epoch key.now command.now value.now expiry
        arena.old lent next).held.arena }
{
    let cache_config = CacheConfig { size, mode, ttl };
    answer_number(single_calls::store(arena, cache_config, epoch, key, command, value, expiry))
}

// Drops the key's item, and tells what that adds to the counts.
fn invalidate_counting(arena: &mut [u8], cache_config: CacheConfig, key: &[u8]) -> Added
    ensures { (was : Statistics) (next : ℕ) → Counted (counts_of was) →
        AddedLeft (invalidate_by cache_config.size cache_config.mode cache_config.ttl key.now arena.old (counts_of was) next) arena.new was result }
{
    comes_to(single_calls::invalidate(arena, cache_config, key, none_yet()))
}

// Drops the key's item.
#[unsafe(no_mangle)]
pub extern "C" fn redis_cache_invalidate(
    arena: &mut [u8],
    size: u64,
    mode: u64,
    ttl: u64,
    key: &[u8],
    counts: &mut Statistics,
) -> u64
    ensures answer { (next : ℕ) →
        result ≡ (invalidate_by size mode ttl key.now arena.old (counts_of counts.old) next).cause }
    ensures bytes { (next : ℕ) →
        arena.new ≡ (invalidate_by size mode ttl key.now arena.old (counts_of counts.old) next).held.arena }
    ensures counts { (next : ℕ) →
        counts_of counts.new ≡ (invalidate_by size mode ttl key.now
        arena.old (counts_of counts.old) next).held.counts }
{
    counted(*counts);
    let r = invalidate_counting(arena, CacheConfig { size, mode, ttl }, key);
    statistics::increase(counts, r.adds);
    r.cause
}

// Looks the command key's value up under the key, hands out the value and the arena, and tells what that adds to the counts.
fn lookup_counting<'a>(
    arena: &'a mut [u8],
    cache_config: CacheConfig,
    when: Now,
    key: &[u8],
    command: &[u8],
    value: &mut &'a [u8],
    whole: &mut &'a [u8],
) -> LookupAdded
    ensures given { (was : Statistics) (next : ℕ) → Counted (counts_of was) →
        LookupGiven (lookup_by cache_config.size cache_config.mode cache_config.ttl when.clock when.epoch key.now command.now
        arena.old (counts_of was) next) value.new.now whole.new.now was result }
    ensures is_part { (lent : Counts) (next : ℕ) →
        PartAt (place_by cache_config.size cache_config.mode cache_config.ttl when.clock when.epoch key.now command.now arena.old lent next)
        value.new.ref_ptr value.new.now arena.entry.ref_ptr (length arena.old) whole.new.now }
    ensures is_arena { whole.new.ref_ptr ≡ arena.entry.ref_ptr }
{
    let none = none_yet();
    let r = single_calls::lookup(arena, cache_config, when, key, command, none);
    let found = r.found;
    let adds = r.counts;
    let t = &arena[..];
    *value = served(t, found);
    *whole = t;
    LookupAdded {
        answer: lookup_return(found),
        adds,
    }
}

// Looks the command key's value up under the key. Through `value` the value comes back, a part of the lent arena, and through `whole` the arena as the
// call leaves it.
#[unsafe(no_mangle)]
pub extern "C" fn redis_cache_lookup<'a>(
    arena: &'a mut [u8],
    size: u64,
    mode: u64,
    ttl: u64,
    clock: u64,
    epoch: u64,
    key: &[u8],
    command: &[u8],
    counts: &mut Statistics,
    value: &mut &'a [u8],
    whole: &mut &'a [u8],
) -> RedisCacheLookup
    ensures answer { (next : ℕ) →
        (result.cause ≡ (lookup_by size mode ttl clock epoch key.now command.now
        arena.old (counts_of counts.old) next).cause)
        × (result.hit ≡ flag_of (lookup_by size mode ttl clock epoch key.now command.now
        arena.old (counts_of counts.old) next).value) }
    ensures served { (next : ℕ) →
        value.new.now ≡ bytes_of (lookup_by size mode ttl clock epoch key.now command.now
        arena.old (counts_of counts.old) next).value }
    ensures is_part { (lent : Counts) (next : ℕ) →
        PartAt (place_by size mode ttl clock epoch key.now command.now arena.old lent next)
        value.new.ref_ptr value.new.now arena.entry.ref_ptr (length arena.old) whole.new.now }
    ensures is_arena { whole.new.ref_ptr ≡ arena.entry.ref_ptr }
    ensures bytes { (next : ℕ) →
        whole.new.now ≡ (lookup_by size mode ttl clock epoch key.now command.now
        arena.old (counts_of counts.old) next).held.arena }
    ensures counts { (next : ℕ) →
        counts_of counts.new ≡ (lookup_by size mode ttl clock epoch key.now command.now
        arena.old (counts_of counts.old) next).held.counts }
{
    counted(*counts);
    let cache_config = CacheConfig { size, mode, ttl };
    let when = Now { clock, epoch };
    let r = lookup_counting(arena, cache_config, when, key, command, value, whole);
    statistics::increase(counts, r.adds);
    r.answer
}

// The counts at this moment.
#[unsafe(no_mangle)]
pub extern "C" fn redis_cache_counts(counts: &Statistics) -> CacheStatistics
    ensures { result ≡ reading counts.now }
{
    CacheStatistics::from(*counts)
}
