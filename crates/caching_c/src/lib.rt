// The cache's C linkage, as a host links it: each export of `caching` again, under its name and with its clauses, thin over it. include/redis_cache.h
// declares them and says what each parameter means.
#![tactic(auto)]

ghost use Rattle.std.specs.Prelude.{◌≡◌, ℕ, length};
ghost use Rattle.config.specs.Config.{checked};
ghost use Rattle.statistics.specs.Counts.{reading};
ghost use Rattle.book.specs.Book.{Counts};
ghost use Rattle.single_calls.specs.Setup.{set_up, fresh_arena};
ghost use Rattle.statistics.specs.OfBook.{counts_of};
ghost use Rattle.caching.specs.Place.{place_by, PartAt};
ghost use Rattle.caching.specs.Exported.{setup_return, flag_of, bytes_of, lookup_by, store_by, invalidate_by};
ghost use Rattle.caching.specs.Epoch.{epoch_by};
ghost use Rattle.caching.specs.Planned.{plan_return, plan_by};
ghost use Rattle.caching.specs.Pushed.{push_by};
ghost use Rattle.caching.specs.Resolved.{resolve_return, resolve_by};
ghost use Rattle.served.specs.Served.{served_call, served_buffer};
ghost use Rattle.caching.specs.ServedAlone.{served_return};
ghost use Rattle.resp3_prefix.specs.Begun.{first_value};
ghost use Rattle.caching.specs.ValueEnd.{value_end_return};

use caching::epoch_call::RedisCacheEpoch;
use caching::plan_call::RedisCachePlan;
use caching::resolve_call::RedisCacheResolve;
use caching::served_call::RedisCacheServed;
use caching::value_end_call::RedisCacheValueEnd;
use caching::{RedisCacheLookup, RedisCacheSetup};
use statistics::{CacheStatistics, Statistics};

// Sets a cache up in the arena, whatever the arena held.
#[unsafe(no_mangle)]
pub extern "C" fn redis_cache_setup(
    arena: &mut [u8],
    size: u64,
    mode: u64,
    ttl: u64,
) -> RedisCacheSetup
    ensures answer { result ≡ setup_return (set_up (checked size mode ttl (length arena.old))) }
    ensures bytes { arena.new ≡ fresh_arena (checked size mode ttl (length arena.old)) arena.old }
{
    caching::redis_cache_setup(arena, size, mode, ttl)
}

// Stores the value for the command key under the key.
#[unsafe(no_mangle)]
pub extern "C" fn redis_cache_store(
    arena: &mut [u8],
    size: u64,
    mode: u64,
    ttl: u64,
    epoch: u64,
    key: &[u8],
    command: &[u8],
    value: &[u8],
    expiry: u64,
) -> u64
    ensures answer { (lent : Counts) (next : ℕ) →
        result ≡ (store_by size mode ttl epoch key.now command.now value.now expiry arena.old lent next).cause }
    ensures bytes { (lent : Counts) (next : ℕ) →
        arena.new ≡ (store_by size mode ttl epoch key.now command.now value.now expiry
        arena.old lent next).held.arena }
{
    caching::redis_cache_store(arena, size, mode, ttl, epoch, key, command, value, expiry)
}

// Drops the key's item.
#[unsafe(no_mangle)]
pub extern "C" fn redis_cache_invalidate(
    arena: &mut [u8],
    size: u64,
    mode: u64,
    ttl: u64,
    key: &[u8],
    counts: &mut Statistics,
) -> u64
    ensures answer { (next : ℕ) →
        result ≡ (invalidate_by size mode ttl key.now arena.old (counts_of counts.old) next).cause }
    ensures bytes { (next : ℕ) →
        arena.new ≡ (invalidate_by size mode ttl key.now arena.old (counts_of counts.old) next).held.arena }
    ensures counts { (next : ℕ) →
        counts_of counts.new ≡ (invalidate_by size mode ttl key.now
        arena.old (counts_of counts.old) next).held.counts }
{
    caching::redis_cache_invalidate(arena, size, mode, ttl, key, counts)
}

// Looks the command key's value up under the key. Through `value` the value comes back, a part of the lent arena, and through `whole` the arena as the
// call leaves it.
#[unsafe(no_mangle)]
pub extern "C" fn redis_cache_lookup<'a>(
    arena: &'a mut [u8],
    size: u64,
    mode: u64,
    ttl: u64,
    clock: u64,
    epoch: u64,
    key: &[u8],
    command: &[u8],
    counts: &mut Statistics,
    value: &mut &'a [u8],
    whole: &mut &'a [u8],
) -> RedisCacheLookup
    ensures answer { (next : ℕ) →
        (result.cause ≡ (lookup_by size mode ttl clock epoch key.now command.now
        arena.old (counts_of counts.old) next).cause)
        × (result.hit ≡ flag_of (lookup_by size mode ttl clock epoch key.now command.now
        arena.old (counts_of counts.old) next).value) }
    ensures served { (next : ℕ) →
        value.new.now ≡ bytes_of (lookup_by size mode ttl clock epoch key.now command.now
        arena.old (counts_of counts.old) next).value }
    ensures is_part { (lent : Counts) (next : ℕ) →
        PartAt (place_by size mode ttl clock epoch key.now command.now arena.old lent next)
        value.new.ref_ptr value.new.now arena.entry.ref_ptr (length arena.old) whole.new.now }
    ensures is_arena { whole.new.ref_ptr ≡ arena.entry.ref_ptr }
    ensures bytes { (next : ℕ) →
        whole.new.now ≡ (lookup_by size mode ttl clock epoch key.now command.now
        arena.old (counts_of counts.old) next).held.arena }
    ensures counts { (next : ℕ) →
        counts_of counts.new ≡ (lookup_by size mode ttl clock epoch key.now command.now
        arena.old (counts_of counts.old) next).held.counts }
{
    caching::redis_cache_lookup(
        arena, size, mode, ttl, clock, epoch, key, command, counts, value, whole,
    )
}

// The counts at this moment.
#[unsafe(no_mangle)]
pub extern "C" fn redis_cache_counts(counts: &Statistics) -> CacheStatistics
    ensures { result ≡ reading counts.now }
{
    caching::redis_cache_counts(counts)
}

// Takes the next epoch number.
#[unsafe(no_mangle)]
pub extern "C" fn redis_cache_new_epoch(next: u64) -> RedisCacheEpoch
    ensures { result ≡ epoch_by next }
{
    caching::epoch_call::redis_cache_new_epoch(next)
}

// Looks the record's commands up, and writes the plan and what is to be sent.
#[unsafe(no_mangle)]
pub extern "C" fn redis_cache_plan(
    arena: &mut [u8],
    size: u64,
    mode: u64,
    ttl: u64,
    clock: u64,
    epoch: u64,
    bytes: &[u8],
    counts: &mut Statistics,
    plan: &mut [u8],
    send: &mut [u8],
) -> RedisCachePlan
    ensures answer { (next : ℕ) →
        result ≡ plan_return (plan_by size mode ttl clock epoch bytes.now plan.old send.old
        arena.old (counts_of counts.old) next).returned }
    ensures arena { (next : ℕ) →
        arena.new ≡ (plan_by size mode ttl clock epoch bytes.now plan.old send.old
        arena.old (counts_of counts.old) next).held.arena }
    ensures counts { (next : ℕ) →
        counts_of counts.new ≡ (plan_by size mode ttl clock epoch bytes.now plan.old send.old
        arena.old (counts_of counts.old) next).held.counts }
    ensures plan { (next : ℕ) →
        plan.new ≡ (plan_by size mode ttl clock epoch bytes.now plan.old send.old
        arena.old (counts_of counts.old) next).plan }
    ensures send { (next : ℕ) →
        send.new ≡ (plan_by size mode ttl clock epoch bytes.now plan.old send.old
        arena.old (counts_of counts.old) next).send }
{
    caching::plan_call::redis_cache_plan(
        arena, size, mode, ttl, clock, epoch, bytes, counts, plan, send,
    )
}

// Does what a push asks for.
#[unsafe(no_mangle)]
pub extern "C" fn redis_cache_push(
    arena: &mut [u8],
    size: u64,
    mode: u64,
    ttl: u64,
    bytes: &[u8],
    counts: &mut Statistics,
) -> u64
    ensures answer { (next : ℕ) → result ≡ (push_by size mode ttl bytes.now arena.old (counts_of counts.old) next).cause }
    ensures arena { (next : ℕ) →
        arena.new ≡ (push_by size mode ttl bytes.now arena.old (counts_of counts.old) next).held.arena }
    ensures counts { (next : ℕ) →
        counts_of counts.new ≡ (push_by size mode ttl bytes.now
        arena.old (counts_of counts.old) next).held.counts }
{
    caching::push_call::redis_cache_push(arena, size, mode, ttl, bytes, counts)
}

// Makes the result of a plan and the replies to what was sent, and stores what was fetched.
#[unsafe(no_mangle)]
pub extern "C" fn redis_cache_resolve<'a>(
    arena: &mut [u8],
    size: u64,
    mode: u64,
    ttl: u64,
    clock: u64,
    epoch: u64,
    plan: &'a [u8],
    replies: &'a [u8],
    answer: &mut [u8],
) -> RedisCacheResolve
    ensures answer { (lent : Counts) (next : ℕ) →
        result ≡ resolve_return (resolve_by size mode ttl clock epoch plan.now replies.now answer.old
        arena.old lent next) }
    ensures arena { (lent : Counts) (next : ℕ) →
        arena.new ≡ (resolve_by size mode ttl clock epoch plan.now replies.now answer.old
        arena.old lent next).held.arena }
    ensures buffer { (lent : Counts) (next : ℕ) →
        answer.new ≡ (resolve_by size mode ttl clock epoch plan.now replies.now answer.old
        arena.old lent next).buffer }
{
    caching::resolve_call::redis_cache_resolve(
        arena, size, mode, ttl, clock, epoch, plan, replies, answer,
    )
}

// Makes the result of a plan whose commands are all served.
#[unsafe(no_mangle)]
pub extern "C" fn redis_cache_served(plan: &[u8], answer: &mut [u8]) -> RedisCacheServed
    ensures answer { result ≡ served_return (served_call plan.now (length answer.old)) }
    ensures buffer { answer.new ≡ served_buffer plan.now answer.old }
{
    caching::served_call::redis_cache_served(plan, answer)
}

// How far the first value stands in the bytes, of at most 16 MiB and 16 levels.
#[unsafe(no_mangle)]
pub extern "C" fn redis_cache_value_end(received: &[u8]) -> RedisCacheValueEnd
    ensures { result ≡ value_end_return (first_value received.now) }
{
    caching::value_end_call::redis_cache_value_end(received)
}
