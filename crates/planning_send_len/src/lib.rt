// Around what is sent for each command; after `write_pipeline` (pipeline.rs): how long it is and how many commands it is, and `MULTI` and `EXEC` around a
// transaction. What is sent for one command is crate planning_send; specs/Lengths.antt, specs/Counts.antt and specs/Wrapped.antt have the laws.
#![tactic(auto)]

ghost use Rattle.std.specs.Prelude.{◌≡◌, List, ◌+◌, ◌^◌, ◌≤◌, ◌<◌, length};
ghost use Rattle.buffer.specs.Same.{Bytes};
ghost use Rattle.config.specs.Limits.{max_bytes, max_arguments};
ghost use Rattle.cursor.specs.At.{RangeIn, ArgsHere};
ghost use Rattle.cmd.specs.Pack.{blob, blob_bytes};
ghost use Rattle.cmd.specs.Laws.{Wrote};
ghost use Rattle.planning_ask.specs.Asked.{several_name, path_in, SeveralIn};
ghost use Rattle.planning_places.specs.Measure.{Bounded};
ghost use Rattle.planning_send.specs.Sends.{caching_bytes, own_bytes, single_bytes, get_name, several_with};
ghost use Rattle.planning_send_len.specs.Wrapped.{start_bytes, end_bytes};
ghost use Rattle.planning_send_len.specs.Counts.{opt_in_count, CommandFew, packs_count, ResultFew, count_with};

use config::CacheMode;
use cursor::{Head, Range};
use planning_ask::Several;
use planning_outcome::{CacheableCommand, CachingResult, PrepCacheItem};
use planning_places::Measured;

// How long `CLIENT CACHING YES` is, in opt-in mode.
pub fn opt_in_len(mode: CacheMode) -> usize
    ensures { (result ≡ length (caching_bytes mode)) × (result ≤ 38) }
{
    match mode {
        CacheMode::All => 0,
        CacheMode::OptIn => 38,
    }
}

// How long the command itself is.
pub fn own_len(bytes: &[u8], head: Head) -> usize
    requires { ArgsHere bytes.now head.args × (length bytes.now ≤ max_bytes) × (head.args.left ≤ max_arguments) }
    ensures { (result ≡ length (own_bytes bytes.now head)) × (result ≤ 2 ^ 32) }
{
    let args = head.args;
    cmd::args_len(bytes, args, head.cursor)
}

// For one missing key: `PTTL` and the key, and the command.
pub fn single_len(bytes: &[u8], head: Head, key: Range) -> usize
    requires { ArgsHere bytes.now head.args × (length bytes.now ≤ max_bytes) × (head.args.left ≤ max_arguments) × RangeIn bytes.now key }
    ensures { (result ≡ length (single_bytes bytes.now head key)) × (result ≤ 2 ^ 57) }
{
    14 + cmd::bulklen(key.end - key.start) + own_len(bytes, head)
}

// The name of a several-key command, as a blob.
fn name_len(json: bool) -> usize
    ensures { (result ≡ length (blob (several_name json))) × (result ≤ 15) }
{
    if json { 15 } else { 10 }
}

// The number of its arguments, and the name.
fn get_len(json: bool, n: usize) -> usize
    requires { n ≤ max_bytes }
    ensures { (result ≡ length (get_name json n)) × (result ≤ 38) }
{
    let count = planning_send::argument_count(json, n);
    3 + decimal::countdigits(count as u64) + name_len(json)
}

// Its path, for JSON.
fn path_len(bytes: &[u8], v: Several) -> usize
    requires { SeveralIn bytes.now v × (length bytes.now ≤ max_bytes) × (0 < v.keys) }
    ensures { (result ≡ length (blob_bytes (path_in bytes.now v))) × (result ≤ 2 ^ 32) }
{
    let path = v.path;
    if v.json {
        cmd::bulklen(path.end - path.start)
    } else {
        0
    }
}

// For several keys, as they were measured: the name with the missing ones and the path, and a `PTTL` for each.
pub fn several_len(bytes: &[u8], v: Several, m: Measured) -> usize
    requires { SeveralIn bytes.now v × (length bytes.now ≤ max_bytes) × (0 < v.keys) × Bounded max_bytes m }
    ensures { ((ks : List Bytes) → m.missing ≡ length ks → m.keys ≡ length (blob_bytes ks)
        → result ≡ length (several_with bytes.now v m.missing ks)) × (result ≤ 2 ^ 58) }
{
    let pttls = m.keys + 14 * m.missing;
    get_len(v.json, m.missing) + m.keys + path_len(bytes, v) + pttls
}

// How many commands `CLIENT CACHING YES` is: one in opt-in mode.
// Kept: one function for this and `opt_in_len`, given the number, would be no plainer than two arms, and its clause would name neither definition.
fn opt_in_count(mode: CacheMode) -> usize
    ensures { result ≡ opt_in_count mode }
{
    match mode {
        CacheMode::All => 0,
        CacheMode::OptIn => 1,
    }
}

// How many commands what is missing is.
fn packs_count(cc: CacheableCommand) -> usize
    requires { CommandFew cc }
    ensures { (result ≡ packs_count cc) × (result ≤ 2 ^ 25) }
{
    match cc {
        CacheableCommand::Single(_, _) => 2,
        CacheableCommand::Multiple(_, n, _) => 1 + n,
    }
}

// How many commands are sent for a command.
pub fn sent_count(r: CachingResult, mode: CacheMode) -> usize
    requires { ResultFew r }
    ensures { (result ≡ count_with mode r) × (result ≤ 2 ^ 26) }
{
    match r {
        CachingResult::Ignored => 1,
        CachingResult::Item(i) => match i {
            PrepCacheItem::Cached(_) => 0,
            PrepCacheItem::NotCached(cc) => opt_in_count(mode) + packs_count(cc),
            PrepCacheItem::NotCacheable => 1,
        },
    }
}

// `MULTI`, for a transaction.
pub fn write_start(dst: &mut [u8], to: usize, transaction: bool) -> usize
    requires { to + length (start_bytes transaction) ≤ length dst.old }
    ensures { Wrote dst.old to (start_bytes transaction) dst.new result }
{
    if transaction {
        cmd::write_multi(dst, to)
    } else {
        to
    }
}

// `EXEC`, for a transaction.
// Kept: `write_start` and this write two texts by two definitions, `start_bytes` and `end_bytes`, each with theorems of its own.
pub fn write_end(dst: &mut [u8], to: usize, transaction: bool) -> usize
    requires { to + length (end_bytes transaction) ≤ length dst.old }
    ensures { Wrote dst.old to (end_bytes transaction) dst.new result }
{
    if transaction {
        cmd::write_exec(dst, to)
    } else {
        to
    }
}

// How long `MULTI` and `EXEC` are, for a transaction.
pub fn wrap_len(transaction: bool) -> usize
    ensures { result ≡ length (start_bytes transaction) + length (end_bytes transaction) }
{
    if transaction { 29 } else { 0 }
}
