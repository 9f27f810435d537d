// A command's keys looked up, each one's node written to the plan as it is found, and the outcome; after `get_cached_cmd` (cache_manager.rs). Each key is
// searched once. specs/Prepared.antt says what it comes to.
// `seen` is a filter of keys that tells of the arena (crate key_filter), and of what lookups leave of it: a key that it says is absent is not searched for.
#![tactic(auto)]

ghost use Rattle.std.specs.Prelude.{ℕ, ◌+◌, ◌^◌, ◌≤◌, ◌<◌, length, [], ◌∷◌};
ghost use Rattle.config.specs.Limits.{max_bytes};
ghost use Rattle.format.specs.Lists.{enc_all};
ghost use Rattle.call_record.specs.Record.{Command};
ghost use Rattle.cursor.specs.At.{range_bytes, RangeIn, ArgsHere, command_of};
ghost use Rattle.book.specs.Book.{Row};
ghost use Rattle.planning.specs.Ask.{ask};
ghost use Rattle.planning.specs.Outcome.{item, single_item, whole_key, wants};
ghost use Rattle.planning.specs.Plan.{place_nodes, enc_node};
ghost use Rattle.planning_ask.specs.Asked.{wanted_in, SeveralIn, OnTime};
ghost use Rattle.sharded_lru.specs.Lent.{setup_now, Lent};
ghost use Rattle.key_filter.specs.Filter.{Filtered};
ghost use Rattle.planning_outcome.specs.Result.{place_on, several_item, outcome_for};
ghost use Rattle.planning_look_up.specs.Looks.{Looks};
ghost use Rattle.planning_outcome.specs.Nodes.{nodes_as};
ghost use Rattle.planning_places.specs.Pieces.{want_at, places_now};
ghost use Rattle.planning_nodes.specs.Places.{place_node, Placed, Done};
ghost use Rattle.planning_nodes.specs.Prepared.{Prepares};

use command_key::CommandKey;
use config::{Now, Settings};
use cursor::{Head, Range};
use plan_write::write_missing;
use planning::NodeKind;
use planning_ask::{Asked, Several};
use planning_outcome::{CacheableCommand, CachingResult, PrepCacheItem, Served};
use shard_lookup::Looked;
use statistics::Statistics;

// How far the places of several keys are written: where the next node goes, how many keys wait, and the counts.
#[derive(Clone, Copy)]
pub struct Written {
    pub to: usize,
    pub missing: usize,
    pub counts: Statistics,
}

// A command's outcome, where the places of several keys begin, where its nodes end, and the counts after its lookups.
#[derive(Clone, Copy)]
pub struct Prepared {
    pub result: CachingResult,
    pub places: usize,
    pub to: usize,
    pub counts: Statistics,
}

// One of several keys.
fn write_place(
    plan: &mut [u8],
    arena: &mut [u8],
    bytes: &[u8],
    v: Several,
    key: Range,
    expiry: u64,
    g: Settings,
    when: Now,
    x: Written,
    seen: &[u64],
) -> Written
    requires { SeveralIn bytes.now v × RangeIn bytes.now key × (length bytes.now ≤ max_bytes) × Filtered g arena.old seen.now
        × ((rows : ℕ → Row) → Lent g arena.old rows → x.to + length
        (place_node expiry (place_on (setup_now g) rows when.clock when.epoch (want_at bytes.now v key))) ≤ length plan.old)
        × (x.missing + 1 < 2 ^ 64) }
    ensures { Placed g when.clock when.epoch expiry (want_at bytes.now v key) arena.old plan.old x
        arena.new plan.new result }
{
    let path = v.path;
    let command = CommandKey::Named(v.json, key, path);
    let before = x.counts;
    let found = planning_look_up::look_up_key(arena, bytes, key, command, g, when, before, seen);
    let counts = found.counts;
    let looked = found.looked;
    match looked {
        Looked::Hit { from, to } => Written {
            to: plan_write::write_served(plan, x.to, &arena[from..to]),
            missing: x.missing,
            counts: counts,
        },
        Looked::Miss(_) => {
            let text = cursor::bytes_in(bytes, key);
            Written {
                to: write_missing(plan, x.to, NodeKind::Waiting, text, bytes, command, expiry),
                missing: x.missing + 1,
                counts: counts,
            }
        }
    }
}

// Several keys, in their order.
fn write_places(
    plan: &mut [u8],
    arena: &mut [u8],
    bytes: &[u8],
    v: Several,
    expiry: u64,
    g: Settings,
    when: Now,
    x: Written,
    seen: &[u64],
) -> Written
    requires { SeveralIn bytes.now v × (length bytes.now ≤ max_bytes) × Filtered g arena.old seen.now
        × ((rows : ℕ → Row) → Lent g arena.old rows → x.to + length
        (enc_all enc_node (place_nodes expiry (places_now g rows when.clock when.epoch bytes.now v))) ≤ length plan.old) × (x.missing ≤ max_bytes) }
    ensures { Done g when.clock when.epoch expiry bytes.now v arena.old plan.old x arena.new
        plan.new result }
{
    let mut k = v.args;
    let mut y = x;
    for _ in 0..v.keys {
        let here = planning_ask::next_key(bytes, k);
        let key = here.key;
        y = write_place(plan, arena, bytes, v, key, expiry, g, when, y, seen);
        k = here.rest;
    }
    y
}

// A command with several keys: their number, the places, and where some wait their end.
fn write_several(
    plan: &mut [u8],
    to: usize,
    arena: &mut [u8],
    bytes: &[u8],
    v: Several,
    expiry: u64,
    g: Settings,
    when: Now,
    counts: Statistics,
    seen: &[u64],
) -> Prepared
    requires { SeveralIn bytes.now v × (length bytes.now ≤ max_bytes) × Filtered g arena.old seen.now
        × ((rows : ℕ → Row) → Lent g arena.old rows → to + length
        (nodes_as (item (several_item (setup_now g) rows when.clock when.epoch bytes.now v expiry))) ≤ length plan.old) }
    ensures { Looks g when.clock when.epoch (wanted_in bytes.now v) arena.old counts arena.new result.counts
        × ((rows : ℕ → Row) → Lent g arena.old rows → (c : Command)
        → Prepares g rows when.clock when.epoch bytes.now arena.new plan.old to plan.new c
        (item (several_item (setup_now g) rows when.clock when.epoch bytes.now v expiry)) result) }
{
    let start = to + planning::NODE_HEAD;
    let first = Written {
        to: start,
        missing: 0,
        counts: counts,
    };
    let x = write_places(plan, arena, bytes, v, expiry, g, when, first, seen);
    let after = x.counts;
    if x.missing == 0 {
        plan_write::write_bare(plan, to, NodeKind::AllServed, v.keys as u64);
        Prepared {
            result: CachingResult::Item(PrepCacheItem::Cached(Served::Values(v))),
            places: start,
            to: x.to,
            counts: after,
        }
    } else {
        plan_write::write_bare(plan, to, NodeKind::Several, v.keys as u64);
        let end = plan_write::write_bare(plan, x.to, NodeKind::End, 0);
        Prepared {
            result: CachingResult::Item(PrepCacheItem::NotCached(CacheableCommand::Multiple(
                v, x.missing, expiry,
            ))),
            places: start,
            to: end,
            counts: after,
        }
    }
}

// A command with one key.
fn write_one(
    plan: &mut [u8],
    to: usize,
    arena: &mut [u8],
    bytes: &[u8],
    head: Head,
    key: Range,
    expiry: u64,
    g: Settings,
    when: Now,
    counts: Statistics,
    seen: &[u64],
) -> Prepared
    requires { ArgsHere bytes.now head.args × RangeIn bytes.now key × (length bytes.now ≤ max_bytes) × Filtered g arena.old seen.now
        × ((rows : ℕ → Row) → Lent g arena.old rows → to + length
        (nodes_as (item (single_item (place_on (setup_now g) rows when.clock when.epoch
        (whole_key (command_of bytes.now head) (range_bytes bytes.now key))) expiry))) ≤ length plan.old) }
    ensures { Looks g when.clock when.epoch (whole_key (command_of bytes.now head) (range_bytes bytes.now key) ∷ [])
        arena.old counts arena.new result.counts
        × ((rows : ℕ → Row) → Lent g arena.old rows
        → Prepares g rows when.clock when.epoch bytes.now arena.new plan.old to plan.new
        (command_of bytes.now head) (item (single_item
        (place_on (setup_now g) rows when.clock when.epoch (whole_key (command_of bytes.now head) (range_bytes bytes.now key)))
        expiry)) result) }
{
    let args = head.args;
    let command = CommandKey::Joined(args);
    let found = planning_look_up::look_up_key(arena, bytes, key, command, g, when, counts, seen);
    let after = found.counts;
    let looked = found.looked;
    match looked {
        Looked::Hit { from, to: end } => {
            let value = Range {
                start: from,
                end: end,
            };
            Prepared {
                result: CachingResult::Item(PrepCacheItem::Cached(Served::Value(value))),
                places: to,
                to: plan_write::write_served(plan, to, &arena[from..end]),
                counts: after,
            }
        }
        Looked::Miss(_) => {
            let text = cursor::bytes_in(bytes, key);
            Prepared {
                result: CachingResult::Item(PrepCacheItem::NotCached(CacheableCommand::Single(
                    key, expiry,
                ))),
                places: to,
                to: write_missing(plan, to, NodeKind::Missing, text, bytes, command, expiry),
                counts: after,
            }
        }
    }
}

// A command, by what it asks for.
pub fn get_cached_cmd(
    plan: &mut [u8],
    to: usize,
    arena: &mut [u8],
    bytes: &[u8],
    head: Head,
    g: Settings,
    when: Now,
    counts: Statistics,
    seen: &[u64],
) -> Prepared
    requires { ArgsHere bytes.now head.args × OnTime g when.clock (command_of bytes.now head) × (length bytes.now ≤ max_bytes)
        × Filtered g arena.old seen.now × ((rows : ℕ → Row) → Lent g arena.old rows
        → to + length (nodes_as (outcome_for (setup_now g) rows when.clock when.epoch (ask g when.clock) (command_of bytes.now head))) ≤ length
        plan.old) }
    ensures { Looks g when.clock when.epoch (wants (command_of bytes.now head)
        (ask g when.clock (command_of bytes.now head))) arena.old counts arena.new result.counts
        × ((rows : ℕ → Row) → Lent g arena.old rows
        → Prepares g rows when.clock when.epoch bytes.now arena.new plan.old to plan.new
        (command_of bytes.now head) (outcome_for (setup_now g) rows when.clock when.epoch (ask g when.clock)
        (command_of bytes.now head)) result) }
{
    match planning_ask::ask(bytes, head, g, when.clock) {
        Asked::Nothing => Prepared {
            result: CachingResult::Ignored,
            places: to,
            to: plan_write::write_bare(plan, to, NodeKind::HandOn, 0),
            counts: counts,
        },
        Asked::Uncacheable => Prepared {
            result: CachingResult::Item(PrepCacheItem::NotCacheable),
            places: to,
            to: plan_write::write_bare(plan, to, NodeKind::HandOn, 0),
            counts: counts,
        },
        Asked::OneKey(key, expiry) => write_one(
            plan, to, arena, bytes, head, key, expiry, g, when, counts, seen,
        ),
        Asked::SeveralKeys(v, expiry) => write_several(
            plan, to, arena, bytes, v, expiry, g, when, counts, seen,
        ),
    }
}
