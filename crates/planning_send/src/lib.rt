// What is sent for one command, from its outcome; after `pack_command` (caching/cmd.rs): nothing where it is cached; itself where it is ignored or not
// cacheable; otherwise `CLIENT CACHING YES` in opt-in mode, and then `PTTL` and the command, or the name with the missing keys and the path and a `PTTL` for
// each. specs/Sends.antt says which bytes those are. Keys of several that wait are read from their nodes in the plan, or from the record (crate
// planning_places).
#![tactic(auto)]

ghost use Rattle.std.specs.Prelude.{◌≡◌, ◌+◌, ◌≤◌, ◌<◌, length};
ghost use Rattle.config.specs.Limits.{max_bytes};
ghost use Rattle.cursor.specs.At.{RangeIn, ArgsHere};
ghost use Rattle.cmd.specs.Pack.{blob, blob_bytes};
ghost use Rattle.cmd.specs.Laws.{Wrote};
ghost use Rattle.planning_ask.specs.Asked.{several_name, path_in, SeveralIn};
ghost use Rattle.planning_places.specs.Source.{keys_at, KeysIn};
ghost use Rattle.planning_send.specs.Sends.{caching_bytes, half_bytes, single_bytes, argument_count, get_name};
ghost use Rattle.planning_send.specs.Sends.{get_with, several_with, command_with, CommandSends, sent_with, ResultSends};

use config::CacheMode;
use cursor::{Head, Range};
use planning_ask::Several;
use planning_outcome::{CacheableCommand, CachingResult, PrepCacheItem};
use planning_places::{Piece, Source};

// `CLIENT CACHING YES`, in opt-in mode.
fn write_opt_in(dst: &mut [u8], to: usize, mode: CacheMode) -> usize
    requires { to + length (caching_bytes mode) ≤ length dst.old }
    ensures { Wrote dst.old to (caching_bytes mode) dst.new result }
{
    match mode {
        CacheMode::All => to,
        CacheMode::OptIn => cmd::write_client_caching(dst, to),
    }
}

// One of the two commands that are sent for one missing key: `PTTL` and the key, or the command itself.
// Kept: `half_room` and `other-room` are theorems over it: the rooms follow in either order, so that an exchange of the two is refused for the bytes alone.
#[derive(Clone, Copy)]
enum Half {
    Pttl,
    Own,
}

fn write_half(dst: &mut [u8], to: usize, half: Half, bytes: &[u8], head: Head, key: Range) -> usize
    requires { ArgsHere bytes.now head.args × RangeIn bytes.now key × (to + length (half_bytes bytes.now head key half) ≤ length dst.old) }
    ensures { Wrote dst.old to (half_bytes bytes.now head key half) dst.new result }
{
    let text = cursor::bytes_in(bytes, key);
    let args = head.args;
    match half {
        Half::Pttl => cmd::write_pttl(dst, to, text),
        Half::Own => cmd::write_command(bytes, args, head.cursor, dst, to),
    }
}

// For one missing key: `PTTL` and the key, and then the command.
fn write_single(dst: &mut [u8], to: usize, bytes: &[u8], head: Head, key: Range) -> usize
    requires { ArgsHere bytes.now head.args × RangeIn bytes.now key × (to + length (single_bytes bytes.now head key) ≤ length dst.old) }
    ensures { Wrote dst.old to (single_bytes bytes.now head key) dst.new result }
{
    let next = write_half(dst, to, Half::Pttl, bytes, head, key);
    write_half(dst, next, Half::Own, bytes, head, key)
}

// How many arguments are sent for several keys of which n are missing: the name, these keys, and a path for JSON.
pub fn argument_count(json: bool, n: usize) -> usize
    requires { n ≤ max_bytes }
    ensures { result ≡ argument_count json n }
{
    if json { n + 2 } else { n + 1 }
}

// The name, as a blob.
fn write_name(dst: &mut [u8], to: usize, json: bool) -> usize
    requires { to + length (blob (several_name json)) ≤ length dst.old }
    ensures { Wrote dst.old to (blob (several_name json)) dst.new result }
{
    if json {
        cmd::write_blob(dst, to, b"JSON.MGET")
    } else {
        cmd::write_blob(dst, to, b"MGET")
    }
}

// The number of arguments, and the name.
fn write_get(dst: &mut [u8], to: usize, json: bool, n: usize) -> usize
    requires { (n ≤ max_bytes) × (to + length (get_name json n) ≤ length dst.old) }
    ensures { Wrote dst.old to (get_name json n) dst.new result }
{
    let count = argument_count(json, n);
    let next = cmd::write_head(dst, to, b'*', count as u64);
    write_name(dst, next, json)
}

// The path, for JSON.
fn write_path(dst: &mut [u8], to: usize, bytes: &[u8], v: Several) -> usize
    requires { SeveralIn bytes.now v × (0 < v.keys) × (to + length (blob_bytes (path_in bytes.now v)) ≤ length dst.old) }
    ensures { Wrote dst.old to (blob_bytes (path_in bytes.now v)) dst.new result }
{
    let path = v.path;
    if v.json {
        cmd::write_blob(dst, to, cursor::bytes_in(bytes, path))
    } else {
        to
    }
}

// The name with the n missing keys and the path.
fn write_keys(
    dst: &mut [u8],
    to: usize,
    bytes: &[u8],
    v: Several,
    n: usize,
    src: &[u8],
    from: Source,
) -> usize
    requires { SeveralIn bytes.now v × (0 < v.keys) × (n ≤ max_bytes) × KeysIn src.now from v.keys
        × (to + length (get_with bytes.now v n (keys_at src.now from v.keys)) ≤ length dst.old) }
    ensures { Wrote dst.old to (get_with bytes.now v n (keys_at src.now from v.keys)) dst.new result }
{
    let first = write_get(dst, to, v.json, n);
    let what = Piece::Key;
    let next = planning_places::write_waiting(dst, first, what, src, from, v.keys);
    write_path(dst, next, bytes, v)
}

// For several keys: the name with the n missing keys and the path, and then a `PTTL` for each.
fn write_several(
    dst: &mut [u8],
    to: usize,
    bytes: &[u8],
    v: Several,
    n: usize,
    src: &[u8],
    from: Source,
) -> usize
    requires { SeveralIn bytes.now v × (0 < v.keys) × (n ≤ max_bytes) × KeysIn src.now from v.keys
        × (to + length (several_with bytes.now v n (keys_at src.now from v.keys)) ≤ length dst.old) }
    ensures { Wrote dst.old to (several_with bytes.now v n (keys_at src.now from v.keys)) dst.new result }
{
    let next = write_keys(dst, to, bytes, v, n, src, from);
    let what = Piece::Pttl;
    planning_places::write_waiting(dst, next, what, src, from, v.keys)
}

// For what is missing: in opt-in mode `CLIENT CACHING YES` first. The keys of several that wait are read from `from` on.
pub fn pack_command(
    dst: &mut [u8],
    to: usize,
    bytes: &[u8],
    head: Head,
    cc: CacheableCommand,
    mode: CacheMode,
    src: &[u8],
    from: Source,
) -> usize
    requires { ArgsHere bytes.now head.args × CommandSends bytes.now src.now from cc
        × (to + length (command_with mode bytes.now head src.now from cc) ≤ length dst.old) }
    ensures { Wrote dst.old to (command_with mode bytes.now head src.now from cc) dst.new result }
{
    let next = write_opt_in(dst, to, mode);
    match cc {
        CacheableCommand::Single(key, _) => write_single(dst, next, bytes, head, key),
        CacheableCommand::Multiple(v, n, _) => write_several(dst, next, bytes, v, n, src, from),
    }
}

// What is sent for a command.
pub fn write_sent(
    dst: &mut [u8],
    to: usize,
    bytes: &[u8],
    head: Head,
    r: CachingResult,
    mode: CacheMode,
    src: &[u8],
    from: Source,
) -> usize
    requires { ArgsHere bytes.now head.args × ResultSends bytes.now src.now from r
        × (to + length (sent_with mode bytes.now head src.now from r) ≤ length dst.old) }
    ensures { Wrote dst.old to (sent_with mode bytes.now head src.now from r) dst.new result }
{
    let args = head.args;
    match r {
        CachingResult::Ignored => cmd::write_command(bytes, args, head.cursor, dst, to),
        CachingResult::Item(i) => match i {
            PrepCacheItem::Cached(_) => to,
            PrepCacheItem::NotCached(cc) => {
                pack_command(dst, to, bytes, head, cc, mode, src, from)
            }
            PrepCacheItem::NotCacheable => { cmd::write_command(bytes, args, head.cursor, dst, to) }
        },
    }
}
