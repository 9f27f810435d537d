// The cache's single calls on a lent arena: setup, lookup, store and invalidate. Nothing is asked of the caller: what is wrong is refused by its cause.
// After `CacheManager::new` and `ShardedLRU::get`, `insert` and `invalidate`. specs/Single.antt says what each returns and leaves.
#![tactic(auto)]

ghost use Rattle.std.specs.Prelude.{◌≡◌, ℕ, length};
ghost use Rattle.config.specs.Config.{checked};
ghost use Rattle.statistics.specs.OfBook.{counts_of};
ghost use Rattle.book.specs.Book.{Row, Counts, lookup, store, invalidate};
ghost use Rattle.sharded_lru.specs.Lent.{setup_now, Lent, Arena};
ghost use Rattle.single_calls.specs.Setup.{set_up, fresh_arena};
ghost use Rattle.single_calls.specs.Single.{overlong_by, imaged, single_call};
ghost use Rattle.single_calls.specs.Place.{place_left, lookup_place};
ghost use Rattle.call_entry.specs.Entered.{holding};
ghost use Rattle.single_calls.specs.Answers.{Left, LookupLeft, InvalidationLeft, looked_up};

use command_key::CommandKey;
use config::{CacheConfig, Cause, Now, Settings};
use cursor::Range;
use shard_lookup::Looked;
use statistics::Statistics;

// What stands for a cause's number where no cause refuses a call.
// Kept: a number, since the structs that C is given have one for every answer (include/redis_cache.h); no Rust function answers it.
pub const NO_CAUSE: u64 = 0;

// What setup gives: the epoch that the fresh cache takes, and the next epoch number.
#[derive(Clone, Copy, PartialEq, Eq, Debug)]
pub struct NewCache {
    pub epoch: u64,
    pub next: u64,
}

// Sets a cache up in the arena, whatever the arena held. Where a cause refuses it, the arena is left as it was.
pub fn setup(arena: &mut [u8], cache_config: CacheConfig) -> Result<NewCache, Cause>
    ensures answer { result ≡ set_up (checked cache_config.size cache_config.mode cache_config.ttl (length arena.old)) }
    ensures bytes { arena.new ≡ fresh_arena (checked cache_config.size cache_config.mode cache_config.ttl (length arena.old)) arena.old }
{
    let n = arena.len();
    config::check_config(cache_config, n)?;
    buffer::fill_zero(arena, 0, n);
    Ok(NewCache { epoch: 0, next: 1 })
}

// What a lookup returns: with the counts, which it was given by value.
#[derive(Clone, Copy)]
pub struct LookedUp {
    // Where the value stands in the arena as the lookup leaves it, if there is one; or the cause, where everything is left as it was.
    pub found: Result<Option<Range>, Cause>,
    pub counts: Statistics,
}

// What an invalidation returns.
#[derive(Clone, Copy)]
pub struct Invalidated {
    // Where a cause refuses it, everything is left as it was.
    pub answer: Result<(), Cause>,
    pub counts: Statistics,
}

// Cause 3's test of the lengths of a key, a command key and a value.
fn too_long(key: usize, command: usize, value: usize) -> bool
    ensures { result ≡ overlong_by key command value }
{
    if config::MAX_KEY < key {
        return true;
    }
    if config::MAX_COMMAND_KEY < command {
        return true;
    }
    config::MAX_BYTES < value
}

// A lookup's answer and the counts after it.
fn counted(counts: Statistics, found: Looked) -> LookedUp
    ensures { result ≡ looked_up counts found }
{
    let sum = shard_lookup::counted(counts, found);
    match found {
        Looked::Hit { from, to } => LookedUp {
            found: Ok(Some(Range {
                start: from,
                end: to,
            })),
            counts: sum,
        },
        Looked::Miss(_) => LookedUp {
            found: Ok(None),
            counts: sum,
        },
    }
}

// A lookup that causes 1 and 9 admitted.
fn lookup_admitted(
    arena: &mut [u8],
    g: Settings,
    when: Now,
    key: &[u8],
    command: &[u8],
    counts: Statistics,
) -> LookedUp
    requires { Arena g arena.old }
    ensures { (rows : ℕ → Row) (next : ℕ) → Lent g arena.old rows →
        LookupLeft (imaged (setup_now g) rows (lookup key.now command.now when.clock when.epoch)
        (holding arena.old (counts_of counts) next))
        (place_left (setup_now g) key.now command.now (imaged (setup_now g) rows
        (lookup key.now command.now when.clock when.epoch) (holding arena.old (counts_of counts) next)))
        arena.new result }
{
    let n = command.len();
    if too_long(key.len(), n, 0) {
        return LookedUp {
            found: Err(Cause::TooLong),
            counts,
        };
    }
    let whole = CommandKey::Part(Range { start: 0, end: n });
    let found = sharded_lru::get(arena, g, key, command, whole, when);
    counted(counts, found)
}

// Looks the command key's value up under the key.
pub fn lookup(
    arena: &mut [u8],
    cache_config: CacheConfig,
    when: Now,
    key: &[u8],
    command: &[u8],
    counts: Statistics,
) -> LookedUp
    ensures { (next : ℕ) →
        LookupLeft (single_call cache_config.size cache_config.mode cache_config.ttl (lookup key.now command.now when.clock when.epoch)
        (holding arena.old (counts_of counts) next))
        (lookup_place cache_config.size cache_config.mode cache_config.ttl key.now command.now when.clock when.epoch (holding arena.old (counts_of counts) next))
        arena.new result }
{
    // Kept: a match, since a refusal is returned with the counts that were given, which `?` cannot add.
    match sharded_lru::admit(arena, cache_config) {
        Err(cause) => LookedUp {
            found: Err(cause),
            counts,
        },
        Ok(g) => lookup_admitted(arena, g, when, key, command, counts),
    }
}

// A store that causes 1 and 9 admitted.
fn store_admitted(
    arena: &mut [u8],
    g: Settings,
    epoch: u64,
    key: &[u8],
    command: &[u8],
    value: &[u8],
    expiry: u64,
) -> Result<(), Cause>
    requires { Arena g arena.old }
    ensures { (rows : ℕ → Row) (lent : Counts) (next : ℕ) → Lent g arena.old rows →
        Left (imaged (setup_now g) rows (store key.now command.now value.now expiry epoch)
        (holding arena.old lent next)) arena.new result }
{
    if too_long(key.len(), command.len(), value.len()) {
        return Err(Cause::TooLong);
    }
    if !resp3::is_value(value) {
        return Err(Cause::BadReply);
    }
    match sharded_lru::insert(arena, g, key, command, value, expiry, epoch) {
        Ok(()) => Ok(()),
        Err(_) => Err(Cause::NoSpace),
    }
}

// Stores the value for the command key under the key, up to the expiry given. It neither takes nor changes the counts. Where a cause refuses it, everything is
// left as it was.
pub fn store(
    arena: &mut [u8],
    cache_config: CacheConfig,
    epoch: u64,
    key: &[u8],
    command: &[u8],
    value: &[u8],
    expiry: u64,
) -> Result<(), Cause>
    ensures { (lent : Counts) (next : ℕ) →
        Left (single_call cache_config.size cache_config.mode cache_config.ttl (store key.now command.now value.now expiry epoch)
        (holding arena.old lent next)) arena.new result }
{
    let g = sharded_lru::admit(arena, cache_config)?;
    store_admitted(arena, g, epoch, key, command, value, expiry)
}

// An invalidation that causes 1 and 9 admitted.
fn invalidate_admitted(arena: &mut [u8], g: Settings, key: &[u8], counts: Statistics) -> Invalidated
    requires { Arena g arena.old }
    ensures { (rows : ℕ → Row) (next : ℕ) → Lent g arena.old rows →
        InvalidationLeft (imaged (setup_now g) rows (invalidate key.now) (holding arena.old (counts_of counts) next))
        arena.new result }
{
    if too_long(key.len(), 0, 0) {
        return Invalidated {
            answer: Err(Cause::TooLong),
            counts,
        };
    }
    let n = sharded_lru::invalidate(arena, g, key);
    Invalidated {
        answer: Ok(()),
        counts: counts.increase_each(0, 0, n as u64),
    }
}

// Drops the key's item.
pub fn invalidate(
    arena: &mut [u8],
    cache_config: CacheConfig,
    key: &[u8],
    counts: Statistics,
) -> Invalidated
    ensures { (next : ℕ) →
        InvalidationLeft (single_call cache_config.size cache_config.mode cache_config.ttl (invalidate key.now) (holding arena.old (counts_of counts) next))
        arena.new result }
{
    // Kept: a match, since a refusal is returned with the counts that were given, which `?` cannot add.
    match sharded_lru::admit(arena, cache_config) {
        Err(cause) => Invalidated {
            answer: Err(cause),
            counts,
        },
        Ok(g) => invalidate_admitted(arena, g, key, counts),
    }
}
