// What the program trap_plan sends: the call record is planned, at clock 0 in mode All, on a cache of four keys that holds nothing (docs/BEHAVIOUR.md, T1).
// A plan of such a record can be far longer than what is sent for it, so none is written: planning's own pieces are: on the empty cache
// every key waits. specs/Send.antt says what is written.
#![tactic(auto)]

ghost use Rattle.std.specs.Prelude.{◌≡◌, ℕ, ◌≤◌, Ok, length};
ghost use Rattle.config.specs.Limits.{max_bytes};
ghost use Rattle.call_record.specs.Check.{check_def};
ghost use Rattle.cursor.specs.At.{command_of, commands_of, record_at};
ghost use Rattle.book.specs.Book.{Row, Counts};
ghost use Rattle.sharded_lru.specs.Lent.{setup_now, Lent, Arena};
ghost use Rattle.planning_outcome.specs.Sizes.{sent_for, all_sent};
ghost use Rattle.trap_send.specs.Walk.{Fits, Puts};
ghost use Rattle.trap_send.specs.Blank.{Blank, Waits};
ghost use Rattle.room.specs.Room.{spent};
ghost use Rattle.planning_dry_pass.specs.Dry.{Planable, One};
ghost use Rattle.cache_manager.specs.Pipeline.{recorded, admitted_to};
ghost use Rattle.cache_manager.specs.Planned.{send_bytes};
ghost use Rattle.trap_send.specs.Send.{max_record, held, output, output_of, Settles, sends_with, Within};
ghost use Rattle.planning.specs.Ask.{ask};

use config::{CacheConfig, Now, Settings};
use cursor::{Commands, Head};
use planning_ask::Asked;
use planning_outcome::{CacheableCommand, CachingResult, PrepCacheItem, Served};
use planning_places::Source;

// The longest record that is planned.
pub const MAX_RECORD: usize = 65_536;

// The settings: size, mode All and the default TTL, in milliseconds.
const SIZE: u64 = 4;

const MODE: u64 = 0;

const TTL: u64 = 1_800_000;

// How long that is which is sent for a command.
fn command_len(bytes: &[u8], head: Head, arena: &[u8], g: Settings, when: Now) -> usize
    requires { One g when.clock bytes.now head × (length bytes.now ≤ max_bytes) × Arena g arena.now }
    ensures { (rows : ℕ → Row) → Lent g arena.now rows →
        result ≡ length (sent_for (setup_now g) rows when.clock when.epoch (ask g when.clock) g.mode (command_of bytes.now head)) }
{
    let size = planning_dry_pass::size_of(bytes, head, arena, g, when);
    size.send
}

// A command's outcome where no key is served, and where its keys are read from.
#[derive(Clone, Copy)]
pub struct Waiting {
    pub result: CachingResult,
    pub keys: Source,
}

// The outcome of a command on a cache that holds nothing: every key that it asks for waits.
fn all_wait(bytes: &[u8], head: Head, g: Settings, clock: u64) -> Waiting
    requires { One g clock bytes.now head × (length bytes.now ≤ max_bytes) }
    ensures { (e : ℕ) → Waits g clock e bytes.now head result }
{
    let args = head.args;
    match planning_ask::ask(bytes, head, g, clock) {
        Asked::Nothing => Waiting {
            result: CachingResult::Ignored,
            keys: Source::Keys(args),
        },
        Asked::Uncacheable => Waiting {
            result: CachingResult::Item(PrepCacheItem::NotCacheable),
            keys: Source::Keys(args),
        },
        Asked::OneKey(key, expiry) => Waiting {
            result: CachingResult::Item(PrepCacheItem::NotCached(CacheableCommand::Single(
                key, expiry,
            ))),
            keys: Source::Keys(args),
        },
        Asked::SeveralKeys(v, expiry) => {
            let from = v.args;
            let n = v.keys;
            if n == 0 {
                return Waiting {
                    result: CachingResult::Item(PrepCacheItem::Cached(Served::Values(v))),
                    keys: Source::Keys(from),
                };
            }
            Waiting {
                result: CachingResult::Item(PrepCacheItem::NotCached(CacheableCommand::Multiple(
                    v, n, expiry,
                ))),
                keys: Source::Keys(from),
            }
        }
    }
}

// What is sent for a command, on a cache that holds nothing.
fn write_command(
    out: &mut [u8],
    to: usize,
    bytes: &[u8],
    head: Head,
    arena: &[u8],
    g: Settings,
    when: Now,
) -> usize
    requires { One g when.clock bytes.now head × (length bytes.now ≤ max_bytes) × Arena g arena.now
        × Fits g arena.now (λ rows. sent_for (setup_now g) rows when.clock when.epoch (ask g when.clock) g.mode (command_of bytes.now head)) to
        (length out.old)
        × Blank g arena.now }
    ensures { Puts g arena.now (λ rows. sent_for (setup_now g) rows when.clock when.epoch (ask g when.clock) g.mode
        (command_of bytes.now head))
        out.old to out.new result }
{
    let mode = g.mode;
    let w = all_wait(bytes, head, g, when.clock);
    let result = w.result;
    let keys = w.keys;
    planning_send::write_sent(out, to, bytes, head, result, mode, bytes, keys)
}

// The room that is left in a buffer once what is sent for the commands is taken.
fn send_room(
    bytes: &[u8],
    k: Commands,
    arena: &[u8],
    g: Settings,
    when: Now,
    room: Option<usize>,
) -> Option<usize>
    requires { Planable g when.clock bytes.now k.left k.at × (length bytes.now ≤ max_bytes) × Arena g arena.now }
    ensures { (rows : ℕ → Row) → Lent g arena.now rows →
        result ≡ spent room (length (all_sent (setup_now g) rows when.clock when.epoch (ask g when.clock) g.mode (commands_of bytes.now k))) }
{
    let mut at = k.at;
    let mut q = room;
    for _ in 0..k.left {
        let head = cursor::head_at(bytes, at);
        q = room::spend(q, command_len(bytes, head, arena, g, when));
        at = cursor::args_end(bytes, head.args);
    }
    q
}

// What is sent for the commands, in their order.
fn write_commands(
    out: &mut [u8],
    to: usize,
    bytes: &[u8],
    k: Commands,
    arena: &[u8],
    g: Settings,
    when: Now,
) -> usize
    requires { Planable g when.clock bytes.now k.left k.at × (length bytes.now ≤ max_bytes) × Arena g arena.now
        × Fits g arena.now (λ rows. all_sent (setup_now g) rows when.clock when.epoch (ask g when.clock) g.mode (commands_of bytes.now k)) to
        (length out.old)
        × Blank g arena.now }
    ensures { Puts g arena.now (λ rows. all_sent (setup_now g) rows when.clock when.epoch (ask g when.clock) g.mode
        (commands_of bytes.now k))
        out.old to out.new result }
{
    let mut at = k.at;
    let mut n = to;
    for _ in 0..k.left {
        let head = cursor::head_at(bytes, at);
        n = write_command(out, n, bytes, head, arena, g, when);
        at = cursor::args_end(bytes, head.args);
    }
    n
}

// All that is sent, where there is room.
fn write_pipeline(
    out: &mut [u8],
    bytes: &[u8],
    k: Commands,
    transaction: bool,
    arena: &[u8],
    g: Settings,
    when: Now,
) -> usize
    requires { Planable g when.clock bytes.now k.left k.at × (length bytes.now ≤ max_bytes) × Arena g arena.now
        × Fits g arena.now (λ rows. send_bytes (setup_now g) rows when.clock when.epoch g transaction (commands_of bytes.now k)) 0 (length out.old)
        × Blank g arena.now }
    ensures { Puts g arena.now (λ rows. send_bytes (setup_now g) rows when.clock when.epoch g transaction
        (commands_of bytes.now k))
        out.old 0 out.new result }
{
    let from = planning_send_len::write_start(out, 0, transaction);
    let to = write_commands(out, from, bytes, k, arena, g, when);
    planning_send_len::write_end(out, to, transaction)
}

// A record that is one. The answer here and below is how many bytes are sent from the buffer's beginning.
fn send_record(bytes: &[u8], out: &mut [u8], arena: &[u8], g: Settings) -> Option<usize>
    requires { Arena g arena.now × (length bytes.now ≤ max_bytes) × (check_def bytes.now ≡ Ok tt) × Blank g arena.now }
    ensures { ((rows : ℕ → Row) (n : Counts) (next : ℕ) → Lent g arena.now rows →
        Settles (λ d. output_of (recorded 0 0 bytes.now d out.old (held arena.now n next) g rows
        (record_at bytes.now))) (output result out.new))
        × Within result (length out.old) }
{
    let k = cursor::commands_of(bytes);
    if planning_ask::any_late(bytes, k, g, 0) {
        return None;
    }
    let transaction = cursor::is_transaction(bytes);
    let start = Now { clock: 0, epoch: 0 };
    let room = room::spend(Some(out.len()), planning_send_len::wrap_len(transaction));
    send_room(bytes, k, arena, g, start, room)?;
    Some(write_pipeline(out, bytes, k, transaction, arena, g, start))
}

// A record of which it is known that it is not too long, on a cache.
fn send_admitted(bytes: &[u8], out: &mut [u8], arena: &[u8], g: Settings) -> Option<usize>
    requires { Arena g arena.now × (length bytes.now ≤ max_record) × Blank g arena.now }
    ensures { ((rows : ℕ → Row) (n : Counts) (next : ℕ) → Lent g arena.now rows →
        Settles (λ d. output_of (admitted_to 0 0 bytes.now d out.old (held arena.now n next) g rows))
        (output result out.new))
        × Within result (length out.old) }
{
    match call_record::check(bytes) {
        Err(_) => None,
        Ok(()) => send_record(bytes, out, arena, g),
    }
}

// Writes what planning sends for the record on an empty cache; or nothing, where planning refuses, the record is too long or the buffer too short for it.
pub fn send_bytes(bytes: &[u8], out: &mut [u8]) -> Option<usize>
    ensures { Settles (sends_with bytes.now out.old) (output result out.new) × Within result (length out.old) }
{
    if MAX_RECORD < bytes.len() {
        return None;
    }
    let mut arena = [0u8; 64];
    let cache_config = CacheConfig {
        size: SIZE,
        mode: MODE,
        ttl: TTL,
    };
    let _ = single_calls::setup(&mut arena, cache_config);
    match sharded_lru::admit(&arena, cache_config) {
        Err(_) => None,
        Ok(g) => send_admitted(bytes, out, &arena, g),
    }
}
