// Several keys of a command: what they take, each peeked once; and those that wait, written as they are sent, after the loops of `pack_command`
// (caching/cmd.rs). They are read from the nodes of their places in the plan, so that no key is searched for again; or, where every key waits, from the record
// (specs/Source.antt). What is written of a key is a parameter (specs/Pieces.antt).
#![tactic(auto)]

ghost use Rattle.std.specs.Prelude.{ℕ, suc, ◌+◌, ◌≤◌, length};
ghost use Rattle.config.specs.Limits.{max_bytes};
ghost use Rattle.cursor.specs.At.{RangeIn};
ghost use Rattle.cmd.specs.Laws.{Wrote};
ghost use Rattle.book.specs.Book.{Row};
ghost use Rattle.planning_ask.specs.Asked.{SeveralIn};
ghost use Rattle.sharded_lru.specs.Lent.{Lent};
ghost use Rattle.key_filter.specs.Filter.{Filtered};
ghost use Rattle.planning_places.specs.Pieces.{pieces, place_at, places_now};
ghost use Rattle.planning_places.specs.Measure.{Measures, More, Grows, Bounded};
ghost use Rattle.planning_places.specs.Source.{keys_at, KeysIn, PlaceIn, piece_at, Step};

use command_key::CommandKey;
use config::{Now, Settings};
use cursor::{Args, Range};
use planning::NodeKind;
use planning_ask::Several;
use shard_lookup::Looked;

// What several keys take: how many of them wait, the bytes of their places' nodes, the bytes of the keys that wait as blobs.
#[derive(Clone, Copy)]
pub struct Measured {
    pub missing: usize,
    pub nodes: usize,
    pub keys: usize,
}

// With one key more, which is peeked.
fn measure_key(
    bytes: &[u8],
    v: Several,
    key: Range,
    arena: &[u8],
    g: Settings,
    when: Now,
    m: Measured,
    seen: &[u64],
) -> Measured
    requires { SeveralIn bytes.now v × RangeIn bytes.now key × (length bytes.now ≤ max_bytes) × Filtered g arena.now seen.now
        × Bounded max_bytes m }
    ensures { ((rows : ℕ → Row) → Lent g arena.now rows → More m (place_at g rows when.clock when.epoch bytes.now v key) result)
        × Grows m result }
{
    let path = v.path;
    let command = CommandKey::Named(v.json, key, path);
    match planning_outcome::peek_key(bytes, v, key, arena, g, when, seen) {
        Looked::Hit { from, to } => Measured {
            missing: m.missing,
            nodes: m.nodes + (planning::NODE_HEAD + (to - from)),
            keys: m.keys,
        },
        Looked::Miss(_) => {
            let text = cursor::bytes_in(bytes, key);
            Measured {
                missing: m.missing + 1,
                nodes: m.nodes + plan_write::missing_len(text, bytes, command),
                keys: m.keys + cmd::bulklen(text.len()),
            }
        }
    }
}

// What all of them take: each is peeked once.
pub fn measure(
    bytes: &[u8],
    v: Several,
    arena: &[u8],
    g: Settings,
    when: Now,
    seen: &[u64],
) -> Measured
    requires { SeveralIn bytes.now v × (length bytes.now ≤ max_bytes) × Filtered g arena.now seen.now }
    ensures { ((rows : ℕ → Row) → Lent g arena.now rows → Measures (places_now g rows when.clock when.epoch bytes.now v) result)
        × Bounded v.keys result }
{
    let mut k = v.args;
    let mut m = Measured {
        missing: 0,
        nodes: 0,
        keys: 0,
    };
    for _ in 0..v.keys {
        let here = planning_ask::next_key(bytes, k);
        let key = here.key;
        m = measure_key(bytes, v, key, arena, g, when, m, seen);
        k = here.rest;
    }
    m
}

// What is written of a key that waits: the key as a blob; or `PTTL` and the key.
// Kept: `keys-are` and `pttls-are` are theorems over it, and a closure's clauses could not say, before it is called, how long what it writes is.
#[derive(Clone, Copy)]
pub enum Piece {
    Key,
    Pttl,
}

// Where places are read from: the plan, from this place on; or the record, from this cursor on, where every key waits.
// Kept: no plainer as a Result, since neither source is the failure of the other.
#[derive(Clone, Copy)]
pub enum Source {
    Nodes(usize),
    Keys(Args),
}

// A place: its key, unless it is served; and where the others are read from.
#[derive(Clone, Copy)]
pub struct PlaceAt {
    pub key: Option<Range>,
    pub rest: Source,
}

// The next place.
fn place_at(src: &[u8], from: Source) -> PlaceAt
    requires { KeysIn src.now from 1 }
    ensures { (n : ℕ) → KeysIn src.now from (suc n) → Step src.now from n result }
{
    match from {
        Source::Nodes(at) => {
            let node = plan::node_at(src, at);
            let key = Range {
                start: node.first,
                end: node.second,
            };
            PlaceAt {
                key: if node.kind == Ok(NodeKind::Served) {
                    None
                } else {
                    Some(key)
                },
                rest: Source::Nodes(node.end),
            }
        }
        Source::Keys(k) => {
            let next = planning_ask::next_key(src, k);
            let key = next.key;
            let rest = next.rest;
            PlaceAt {
                key: Some(key),
                rest: Source::Keys(rest),
            }
        }
    }
}

// One place: nothing, if it is served.
fn write_place(dst: &mut [u8], to: usize, what: Piece, src: &[u8], key: Option<Range>) -> usize
    requires { PlaceIn src.now key × (to + length (piece_at what src.now key) ≤ length dst.old) }
    ensures { Wrote dst.old to (piece_at what src.now key) dst.new result }
{
    let Some(key) = key else {
        return to;
    };
    let text = cursor::bytes_in(src, key);
    match what {
        Piece::Key => cmd::write_blob(dst, to, text),
        Piece::Pttl => cmd::write_pttl(dst, to, text),
    }
}

// The keys that wait among n places, in their order.
pub fn write_waiting(
    dst: &mut [u8],
    to: usize,
    what: Piece,
    src: &[u8],
    from: Source,
    n: usize,
) -> usize
    requires { KeysIn src.now from n × (to + length (pieces what (keys_at src.now from n)) ≤ length dst.old) }
    ensures { Wrote dst.old to (pieces what (keys_at src.now from n)) dst.new result }
{
    let mut at = from;
    let mut next = to;
    for _ in 0..n {
        let here = place_at(src, at);
        next = write_place(dst, next, what, src, here.key);
        at = here.rest;
    }
    next
}
