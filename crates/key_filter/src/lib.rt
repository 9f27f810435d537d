// A filter of keys: a table of bits on the caller's stack, so that a key that no item has needs no search through its shard. Every key has one bit. A clear
// bit says that no item has the key; a set one says nothing. A bit past the table's end counts as set, so that the table of no words tells nothing of any
// key and costs nothing: calls too short to pay for a walk over all items are lent that one.
//
// What a filter says of an arena is specs/Filter.antt. `fill` makes one true by one walk over all items; the other functions keep it true.
#![tactic(auto)]

ghost use Rattle.std.specs.Prelude.{◌≡◌, cond, true, is_ok, ℕ, ◌<◌};
ghost use Rattle.resp3.specs.Ends.{is_value};
ghost use Rattle.book.specs.Book.{Item, Row, stored, no_space, lookup, store, on};
ghost use Rattle.arena.specs.Place.{arena_place};
ghost use Rattle.command_key.specs.Key.{key_bytes, KeyIn};
ghost use Rattle.shard.specs.Holds.{Holds, Shard, Stands, ItemAt};
ghost use Rattle.shard_lookup.specs.Looked.{Told, BeginsAt};
ghost use Rattle.shard_store.specs.Store.{Storable};
ghost use Rattle.sharded_lru.specs.Lent.{setup_now, Lent, Arena, effect_in, rows_after};
ghost use Rattle.key_filter.specs.Filter.{bit_of, may_hold, set_bit, Grows, Marked, Filters, Filtered};

use command_key::CommandKey;
use config::{Now, Settings};
use shard_lookup::Looked;
use shard_store::NoSpace;

// The number of the key's bit: of what its mark is made of, its upper and its lower bits together, since keys that differ in a few digits are spread by
// neither of them alone.
fn bit_of(key: &[u8]) -> u64
    ensures { (result ≡ bit_of key.now) × (result < 98304) }
{
    let m = arena_check::marked_by(key);
    (m ^ (m / 16384)) % 98304
}

// Whether an item may have the key.
pub fn may_hold(seen: &[u64], key: &[u8]) -> bool
    ensures { result ≡ may_hold seen.now key.now }
{
    let bit = bit_of(key);
    let at = (bit / 64) as usize;
    if seen.len() <= at {
        return true;
    }
    (seen[at] >> (bit % 64)) % 2 == 1
}

// Sets the key's bit.
pub fn note(seen: &mut [u64], key: &[u8])
    ensures { seen.new ≡ set_bit seen.old (bit_of key.now) }
{
    let bit = bit_of(key);
    let at = (bit / 64) as usize;
    if at < seen.len() {
        seen[at] = seen[at] | (1 << (bit % 64));
    }
}

// Sets the bit of the key of the item at `at`.
fn note_item(s: &[u8], at: usize, seen: &mut [u64])
    requires { ItemAt s.now at }
    ensures { (front back : Row) (it : Item) → Stands s.now at front back it
        → seen.new ≡ set_bit seen.old (bit_of it.key) }
{
    let from = at + 32;
    let to = from + buffer::read_u32(s, at) as usize;
    note(seen, &s[from..to]);
}

// Sets the bit of every key of a shard.
fn note_shard(s: &[u8], seen: &mut [u64])
    requires { Shard s.now }
    ensures { Grows seen.old seen.new × ((row : Row) → Holds s.now row → Marked seen.new row) }
{
    let end = 16 + buffer::read_u32(s, 4) as usize;
    let mut at: usize = 16;
    // Kept: no plainer as an iterator, for what stands in `shard::find`.
    while at < end {
        note_item(s, at, seen);
        at = at + shard::item_len(s, at);
    }
}

// Sets the bit of every key of the arena, so that the filter tells of it.
pub fn fill(arena: &[u8], g: Settings, seen: &mut [u64])
    requires { Arena g arena.now }
    ensures { Filters g arena.now seen.new }
{
    for i in 0..g.shards {
        let from = i * g.bytes;
        let to = from + g.bytes;
        note_shard(&arena[from..to], seen);
    }
}

// What `sharded_lru::peek` answers; the key is searched for only where an item may have it.
pub fn peek(
    arena: &[u8],
    g: Settings,
    key: &[u8],
    source: &[u8],
    command: CommandKey,
    when: Now,
    seen: &[u64],
) -> Looked
    requires { Filtered g arena.now seen.now × KeyIn source.now command }
    ensures { (rows : ℕ → Row) → Lent g arena.now rows
        → Told arena.now (effect_in (setup_now g) (lookup key.now (key_bytes source.now command) when.clock when.epoch)
        rows) result }
{
    let absent = !may_hold(seen, key);
    if absent {
        return Looked::Miss(0);
    }
    sharded_lru::peek(arena, g, key, source, command, when)
}

// What `sharded_lru::get` does, likewise: a lookup of a key that no item has changes nothing.
pub fn get(
    arena: &mut [u8],
    g: Settings,
    key: &[u8],
    source: &[u8],
    command: CommandKey,
    when: Now,
    seen: &[u64],
) -> Looked
    requires { Filtered g arena.old seen.now × KeyIn source.now command }
    ensures { (rows : ℕ → Row) → Lent g arena.old rows
        → Lent g arena.new (rows_after (setup_now g)
        (on (lookup key.now (key_bytes source.now command) when.clock when.epoch)) rows)
        × Told arena.new (effect_in (setup_now g) (lookup key.now (key_bytes source.now command) when.clock when.epoch)
        rows) result × BeginsAt (arena_place (setup_now g) key.now (key_bytes source.now command)
        (rows_after (setup_now g) (on (lookup key.now (key_bytes source.now command) when.clock when.epoch)) rows)) result }
{
    if !may_hold(seen, key) {
        return Looked::Miss(0);
    }
    sharded_lru::get(arena, g, key, source, command, when)
}

// Stores the value as `sharded_lru::insert` does, and searches for the key only where an item may have it. The filter tells of the arena as it is left.
pub fn insert(
    arena: &mut [u8],
    g: Settings,
    key: &[u8],
    command: &[u8],
    value: &[u8],
    expiry: u64,
    epoch: u64,
    seen: &mut [u64],
) -> Result<(), NoSpace>
    requires { Arena g arena.old × Storable key.now command.now value.now × (is_value value.now ≡ true) × Filters g arena.old seen.old }
    ensures { ((rows : ℕ → Row) → Lent g arena.old rows
        → Lent g arena.new (rows_after (setup_now g) (on (store key.now command.now value.now expiry epoch)) rows)
        × (cond (is_ok result) stored no_space ≡ (effect_in (setup_now g) (store key.now command.now value.now expiry epoch) rows).answer))
        × Filters g arena.new seen.new }
{
    if may_hold(seen, key) {
        return sharded_lru::insert(arena, g, key, command, value, expiry, epoch);
    }
    note(seen, key);
    sharded_lru::insert_new(arena, g, key, command, value, expiry, epoch)
}
