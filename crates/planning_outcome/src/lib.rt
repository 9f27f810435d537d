// The outcome of one command of a checked call record, as the code holds it, after `get_cached_cmd` (cache_manager.rs); and a key of a several-key command,
// peeked. `planning/specs/Outcome.antt` has the definitions; specs/Result.antt says what an outcome here stands for. It is made where the keys are looked up
// (crate planning_nodes).
#![tactic(auto)]

ghost use Rattle.std.specs.Prelude.{ℕ, ◌≤◌, length};
ghost use Rattle.config.specs.Limits.{max_bytes};
ghost use Rattle.cursor.specs.At.{range_bytes, RangeIn};
ghost use Rattle.book.specs.Book.{Row};
ghost use Rattle.planning.specs.Outcome.{part_key};
ghost use Rattle.sharded_lru.specs.Lent.{setup_now, Lent};
ghost use Rattle.key_filter.specs.Filter.{Filtered};
ghost use Rattle.planning_ask.specs.Asked.{several_name, path_in, SeveralIn};
ghost use Rattle.planning_outcome.specs.Result.{place_on, PlaceTold};

use command_key::CommandKey;
use config::{Now, Settings};
use cursor::Range;
use planning_ask::Several;
use shard_lookup::Looked;

// The outcome of a command; an ignored one has none.
// Kept: that planning's outcome is `CachingResult` over `PrepCacheItem` over `CacheableCommand` is a rule of the project; the names are redis-rs's.
#[derive(Clone, Copy)]
pub enum CachingResult {
    Item(PrepCacheItem),
    Ignored,
}

// Kept: as above.
#[derive(Clone, Copy)]
pub enum PrepCacheItem {
    Cached(Served),
    NotCached(CacheableCommand),
    NotCacheable,
}

// What is served: the value in a range of the arena, or the values of several keys.
#[derive(Clone, Copy)]
pub enum Served {
    Value(Range),
    Values(Several),
}

// What is missing: one key, with its client expiry; or of several keys so many, with theirs.
#[derive(Clone, Copy)]
pub enum CacheableCommand {
    Single(Range, u64),
    Multiple(Several, usize, u64),
}

// One of several keys, peeked.
pub fn peek_key(
    bytes: &[u8],
    v: Several,
    key: Range,
    arena: &[u8],
    g: Settings,
    when: Now,
    seen: &[u64],
) -> Looked
    requires { SeveralIn bytes.now v × RangeIn bytes.now key × (length bytes.now ≤ max_bytes) × Filtered g arena.now seen.now }
    ensures { (rows : ℕ → Row) → Lent g arena.now rows
        → PlaceTold arena.now (part_key (several_name v.json) (path_in bytes.now v) (range_bytes bytes.now key))
        (place_on (setup_now g) rows when.clock when.epoch
        (part_key (several_name v.json) (path_in bytes.now v) (range_bytes bytes.now key))) result }
{
    let text = cursor::bytes_in(bytes, key);
    let path = v.path;
    let command = CommandKey::Named(v.json, key, path);
    key_filter::peek(arena, g, text, bytes, command, when, seen)
}
