// The cache's operations over all shards, on a lent arena, for the calls that have ruled out causes 1 and 9. After sharded_lru.rs.
//
// Every function is lent an arena that is the image of some rows (specs/Lent.antt), as `admit` has found; none tests that again. A contract speaks
// of whatever rows the arena is the image of: what is left is the image of the book's rows after the event, and the answer is the book's.
#![tactic(auto)]

ghost use Rattle.std.specs.Prelude.{◌≡◌, cond, true, is_ok, ℕ, ◌+◌, ◌*◌, ◌≤◌};
ghost use Rattle.std.proofs.Math.Option.{none};
ghost use Rattle.config.specs.Limits.{max_arena};
ghost use Rattle.resp3.specs.Ends.{is_value};
ghost use Rattle.siphash.specs.Shard.{shard_of};
ghost use Rattle.book.specs.Book.{Row, find, stored, no_space, plus, lookup, store, invalidate, on, invalidate_all, all_entries};
ghost use Rattle.arena.specs.Place.{arena_place};
ghost use Rattle.command_key.specs.Key.{key_bytes, KeyIn};
ghost use Rattle.shard_lookup.specs.Looked.{Told, BeginsAt};
ghost use Rattle.shard_store.specs.Store.{Storable};
ghost use Rattle.sharded_lru.specs.Lent.{setup_now, Lent, Arena, effect_in, rows_after};
ghost use Rattle.sharded_lru.specs.Admit.{admitted};
ghost use Rattle.sharded_lru.specs.Placed.{placed_at, Within};

use command_key::CommandKey;
use config::{CacheConfig, Cause, Now, Settings};
use shard_lookup::Looked;
use shard_store::NoSpace;

// Causes 1 and 9, with which every call on an arena begins: the settings under which the arena is an image.
#[tactic(auto, unfolding(crate::specs::Admit::admitted))]
pub fn admit(arena: &[u8], cache_config: CacheConfig) -> Result<Settings, Cause>
    ensures { result ≡ admitted cache_config.size cache_config.mode cache_config.ttl arena.now }
{
    let g = config::check_config(cache_config, arena.len())?;
    if arena_check::is_image(arena, g.shards, g.keys, g.bytes) {
        return Ok(g);
    }
    Err(Cause::BadArena)
}

// Where the key's shard begins.
fn shard_start(g: Settings, key: &[u8]) -> usize
    requires { (1 ≤ g.shards) × (g.shards * g.bytes ≤ max_arena) }
    ensures { result ≡ shard_of key.now g.shards * g.bytes }
{
    siphash::shard_of(key, g.shards) * g.bytes
}

// The answer of a shard of `size` bytes that begins at `start`, with places in the arena.
fn placed(start: usize, size: usize, found: Looked) -> Looked
    requires { (start + size ≤ max_arena) × Within size found }
    ensures { result ≡ placed_at start found }
{
    match found {
        Looked::Hit { from, to } => Looked::Hit {
            from: start + from,
            to: start + to,
        },
        Looked::Miss(n) => Looked::Miss(n),
    }
}

// What `get` would answer; nothing changes, and a hit's bytes are those of the arena as it is.
pub fn peek(
    arena: &[u8],
    g: Settings,
    key: &[u8],
    source: &[u8],
    command: CommandKey,
    when: Now,
) -> Looked
    requires { Arena g arena.now × KeyIn source.now command }
    ensures { (rows : ℕ → Row) → Lent g arena.now rows
        → Told arena.now (effect_in (setup_now g) (lookup key.now (key_bytes source.now command) when.clock when.epoch)
        rows) result }
{
    let start = shard_start(g, key);
    let end = start + g.bytes;
    let found = shard_lookup::peek_in(&arena[start..end], key, source, command, when);
    placed(start, g.bytes, found)
}

// Looks the command key's value up under the key. A hit's bytes are the entry's own, in the arena as it is left.
pub fn get(
    arena: &mut [u8],
    g: Settings,
    key: &[u8],
    source: &[u8],
    command: CommandKey,
    when: Now,
) -> Looked
    requires { Arena g arena.old × KeyIn source.now command }
    ensures { (rows : ℕ → Row) → Lent g arena.old rows
        → Lent g arena.new (rows_after (setup_now g)
        (on (lookup key.now (key_bytes source.now command) when.clock when.epoch)) rows)
        × Told arena.new (effect_in (setup_now g) (lookup key.now (key_bytes source.now command) when.clock when.epoch)
        rows) result × BeginsAt (arena_place (setup_now g) key.now (key_bytes source.now command)
        (rows_after (setup_now g) (on (lookup key.now (key_bytes source.now command) when.clock when.epoch)) rows)) result }
{
    let start = shard_start(g, key);
    let end = start + g.bytes;
    let found = shard_lookup::lookup_in(&mut arena[start..end], key, source, command, when);
    placed(start, g.bytes, found)
}

// Stores the value. An error where it was not kept, for lack of space: nothing is changed then.
pub fn insert(
    arena: &mut [u8],
    g: Settings,
    key: &[u8],
    command: &[u8],
    value: &[u8],
    expiry: u64,
    epoch: u64,
) -> Result<(), NoSpace>
    requires { Arena g arena.old × Storable key.now command.now value.now × (is_value value.now ≡ true) }
    ensures { (rows : ℕ → Row) → Lent g arena.old rows
        → Lent g arena.new (rows_after (setup_now g) (on (store key.now command.now value.now expiry epoch)) rows)
        × (cond (is_ok result) stored no_space ≡ (effect_in (setup_now g) (store key.now command.now value.now expiry epoch) rows).answer) }
{
    let from = shard_start(g, key);
    let to = from + g.bytes;
    shard_store::store_in(
        &mut arena[from..to],
        g.keys,
        key,
        command,
        value,
        expiry,
        epoch,
    )
}

// The same of a key that no item has, so that nothing is searched for. What an arena that has the key would be left with is not said.
pub fn insert_new(
    arena: &mut [u8],
    g: Settings,
    key: &[u8],
    command: &[u8],
    value: &[u8],
    expiry: u64,
    epoch: u64,
) -> Result<(), NoSpace>
    requires { Arena g arena.old × Storable key.now command.now value.now × (is_value value.now ≡ true) }
    ensures { (rows : ℕ → Row) → Lent g arena.old rows → find key.now (rows (shard_of key.now g.shards)) ≡ none
        → Lent g arena.new (rows_after (setup_now g) (on (store key.now command.now value.now expiry epoch)) rows)
        × (cond (is_ok result) stored no_space ≡ (effect_in (setup_now g) (store key.now command.now value.now expiry epoch) rows).answer) }
{
    let a = shard_start(g, key);
    let e = a + g.bytes;
    shard_store::store_new(&mut arena[a..e], g.keys, key, command, value, expiry, epoch)
}

// Drops the key's item, and answers how many entries it had.
pub fn invalidate(arena: &mut [u8], g: Settings, key: &[u8]) -> usize
    requires { Arena g arena.old }
    ensures { (rows : ℕ → Row) → Lent g arena.old rows
        → Lent g arena.new (rows_after (setup_now g) (on (invalidate key.now)) rows)
        × ((effect_in (setup_now g) (invalidate key.now) rows).adds ≡ plus 0 0 result) }
{
    let at = shard_start(g, key);
    let end = at + g.bytes;
    shard::invalidate_in(&mut arena[at..end], key)
}

// Drops every item, and answers how many entries they had.
pub fn invalidate_all(arena: &mut [u8], g: Settings) -> usize
    requires { Arena g arena.old }
    ensures { (rows : ℕ → Row) → Lent g arena.old rows → Lent g arena.new (rows_after (setup_now g) invalidate_all rows)
        × (result ≡ all_entries g.shards rows) }
{
    let mut n: usize = 0;
    for i in 0..g.shards {
        let from = i * g.bytes;
        let to = from + g.bytes;
        n += shard::clear(&mut arena[from..to]);
    }
    n
}
