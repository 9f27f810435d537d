// What a command of a checked call record asks the cache for, before any lookup; after `get_cached_cmd` and what it calls (cache_manager.rs).
// `planning/specs/Ask.antt` has the definitions; specs/Asked.antt says what the answers here stand for.
#![tactic(auto)]

ghost use Rattle.std.specs.Prelude.{◌≡◌, ◌+◌, ◌^◌, ◌<◌, length};
ghost use Rattle.cursor.specs.At.{range_bytes, RangeIn, args_of, ArgsHere, command_of, commands_of, CommandsHere};
ghost use Rattle.cursor.specs.Steps.{arg_next};
ghost use Rattle.planning.specs.Ask as plan;
ghost use Rattle.planning_ask.specs.Asked.{reached_of, ReachedIn, late, OnTime, simples_of, KeyStep, asked_of, AskedIn};
ghost use Rattle.planning_ask.specs.Steps.{takes_part_by, ttl_by, late_by, simple_range, with_argument, Extracted, SeveralOf, asked_several, HasName, ask_named};

use commands::MultiKey;
use config::{CacheMode, Settings};
use cursor::{Arg, Args, Commands, Head, Range};

// How far a command gets: it is ignored; it is stopped as not cacheable; or it has this name.
// Kept: no plainer as an Option or a Result, since there are three answers, and none of them is a failure.
#[derive(Clone, Copy)]
pub enum Reached {
    Skipped,
    Stopped,
    Named(Range),
}

// The next key of several, and a cursor behind it.
#[derive(Clone, Copy)]
pub struct KeyAt {
    pub key: Range,
    pub rest: Args,
}

// Several keys: the first `keys` simple arguments from `args` on, which stands behind the name; for JSON the last one's range as path.
#[derive(Clone, Copy)]
pub struct Several {
    pub json: bool,
    pub args: Args,
    pub keys: usize,
    pub path: Range,
}

// What a command asks for: nothing, since it is ignored; nothing, since it is not cacheable; one key; several. With keys the client expiry.
#[derive(Clone, Copy)]
pub enum Asked {
    Nothing,
    Uncacheable,
    OneKey(Range, u64),
    SeveralKeys(Several, u64),
}

// The simple arguments before a cursor: how many, and the last one's range; an empty range where there is none.
#[derive(Clone, Copy)]
pub struct SimpleArgs {
    pub count: usize,
    pub last: Range,
}

// Whether a command takes part in caching: every one, or in opt-in mode those that ask for it.
fn takes_part(mode: CacheMode, flags: u8) -> bool
    ensures { result ≡ takes_part_by mode flags }
{
    match mode {
        CacheMode::All => true,
        CacheMode::OptIn => flags / 4 % 2 == 1,
    }
}

// How far a command gets.
pub fn reach(bytes: &[u8], head: Head, mode: CacheMode) -> Reached
    requires { ArgsHere bytes.now head.args }
    ensures { (reached_of bytes.now result ≡ plan.reach mode (command_of bytes.now head)) × ReachedIn bytes.now result }
{
    let flags = head.flags;
    let args = head.args;
    if flags % 2 == 1 {
        return Reached::Skipped;
    }
    if takes_part(mode, flags) {
        match cursor::arg_idx(bytes, args, 0) {
            Some(n) => Reached::Named(n),
            None => Reached::Stopped,
        }
    } else {
        Reached::Stopped
    }
}

// The command's client TTL if present, else the default.
fn client_ttl(flags: u8, own: u64, usual: u64) -> u64
    ensures { result ≡ ttl_by flags own usual }
{
    if flags / 8 % 2 == 1 { own } else { usual }
}

// Whether a client expiry is worked out and is past 64 bits.
fn past_end(reached: Reached, clock: u64, ttl: u64) -> bool
    ensures { result ≡ late_by reached (clock + ttl) }
{
    match reached {
        Reached::Skipped => false,
        Reached::Stopped => false,
        Reached::Named(_) => 18446744073709551615 - clock < ttl,
    }
}

// Cause 4, of one command.
pub fn is_late(bytes: &[u8], head: Head, g: Settings, clock: u64) -> bool
    requires { ArgsHere bytes.now head.args }
    ensures { result ≡ late g clock (command_of bytes.now head) }
{
    let mode = g.mode;
    let reached = reach(bytes, head, mode);
    past_end(reached, clock, client_ttl(head.flags, head.ttl, g.ttl))
}

// Cause 4, of any command.
pub fn any_late(bytes: &[u8], k: Commands, g: Settings, clock: u64) -> bool
    requires { CommandsHere bytes.now k }
    ensures { result ≡ plan.any_late g clock (commands_of bytes.now k) }
{
    let mut at = k.at;
    // Where the next command stands is asked for only once this one was judged: a late one's arguments are not gone over.
    for _ in 0..k.left {
        let head = cursor::head_at(bytes, at);
        if is_late(bytes, head, g, clock) {
            return true;
        }
        at = cursor::args_end(bytes, head.args);
    }
    false
}

// The client expiry: clock and TTL.
fn calculate_expiration_time(head: Head, g: Settings, clock: u64) -> u64
    requires { clock + ttl_by head.flags head.ttl g.ttl < 2 ^ 64 }
    ensures { result ≡ clock + ttl_by head.flags head.ttl g.ttl }
{
    clock + client_ttl(head.flags, head.ttl, g.ttl)
}

// A simple argument's range: a cursor has no bytes of its own.
fn simple(arg: Arg) -> Option<Range>
    ensures { result ≡ simple_range arg }
{
    match arg {
        Arg::Simple(g) => Some(g),
        Arg::Cursor => None,
    }
}

// The next simple argument.
pub fn next_key(bytes: &[u8], k: Args) -> KeyAt
    requires { ArgsHere bytes.now k × (0 < length (simples_of bytes.now k)) }
    ensures { KeyStep bytes.now k result }
{
    let mut k = k;
    loop {
        let (arg, rest) = cursor::next_arg(bytes, k).unwrap();
        if let Some(key) = simple(arg) {
            return KeyAt { key, rest };
        }
        k = rest;
    }
}

// With one argument more.
fn with_argument(found: SimpleArgs, arg: Arg) -> SimpleArgs
    requires { found.count + 1 < 2 ^ 64 }
    ensures { result ≡ with_argument found arg }
{
    match simple(arg) {
        Some(last) => SimpleArgs {
            count: found.count + 1,
            last,
        },
        None => found,
    }
}

// The simple arguments before the cursor.
fn extract_simple_arguments(bytes: &[u8], k: Args) -> SimpleArgs
    requires { ArgsHere bytes.now k }
    ensures { Extracted bytes.now k result }
{
    let mut found = SimpleArgs {
        count: 0,
        last: Range {
            start: k.at,
            end: k.at,
        },
    };
    for arg in cursor::args_iter(bytes, k) {
        found = with_argument(found, arg);
    }
    found
}

// A cursor behind the first argument.
fn behind_name(bytes: &[u8], k: Args) -> Args
    requires { ArgsHere bytes.now k × (0 < k.left) }
    ensures { result ≡ arg_next bytes.now k }
{
    let (_, rest) = cursor::next_arg(bytes, k).unwrap();
    rest
}

// Several keys, of arguments whose first is the name.
fn several_of(bytes: &[u8], k: Args, json: bool) -> Several
    requires { ArgsHere bytes.now k × (0 < k.left) }
    ensures { SeveralOf bytes.now (args_of bytes.now k) json result }
{
    let args = behind_name(bytes, k);
    let found = extract_simple_arguments(bytes, args);
    let last = found.last;
    let none = Range {
        start: args.at,
        end: args.at,
    };
    if json {
        if found.count == 0 {
            return Several {
                json: true,
                args: args,
                keys: 0,
                path: none,
            };
        }
        return Several {
            json: true,
            args: args,
            keys: found.count - 1,
            path: last,
        };
    }
    Several {
        json: false,
        args: args,
        keys: found.count,
        path: none,
    }
}

// Argument 1 is the key.
fn ask_one(bytes: &[u8], k: Args, expiry: u64) -> Asked
    requires { ArgsHere bytes.now k × HasName (args_of bytes.now k) }
    ensures { (asked_of bytes.now result ≡ plan.ask_one (args_of bytes.now k) expiry) × AskedIn bytes.now result }
{
    match cursor::arg_idx(bytes, k, 1) {
        Some(key) => Asked::OneKey(key, expiry),
        None => Asked::Uncacheable,
    }
}

// Whether a command of this name may be cached with so many arguments, the name among them.
fn may_have(name: &[u8], count: usize) -> bool
    ensures { result ≡ plan.may_have name.now count }
{
    if commands::takes_sole_key(name) {
        return count == 2;
    }
    true
}

// Several keys, if there are any.
fn ask_several(v: Several, expiry: u64) -> Asked
    ensures { result ≡ asked_several v expiry }
{
    if v.keys == 0 {
        return Asked::Uncacheable;
    }
    Asked::SeveralKeys(v, expiry)
}

// By the command's name.
fn ask_named(bytes: &[u8], k: Args, name: Range, expiry: u64) -> Asked
    requires { ArgsHere bytes.now k × RangeIn bytes.now name × (plan.reach_by (args_of bytes.now k) ≡ plan.named (range_bytes bytes.now name)) }
    ensures { (asked_of bytes.now result ≡ ask_named (range_bytes bytes.now name) (args_of bytes.now k) expiry)
        × AskedIn bytes.now result }
{
    let text = cursor::bytes_in(bytes, name);
    match commands::is_multi_key(text) {
        Some(MultiKey::Mget) => ask_several(several_of(bytes, k, false), expiry),
        Some(MultiKey::JsonMget) => ask_several(several_of(bytes, k, true), expiry),
        None => {
            if commands::is_cachable_cmd(text) {
                if may_have(text, k.left) {
                    ask_one(bytes, k, expiry)
                } else {
                    Asked::Uncacheable
                }
            } else {
                Asked::Uncacheable
            }
        }
    }
}

// What a command asks for.
pub fn ask(bytes: &[u8], head: Head, g: Settings, clock: u64) -> Asked
    requires { ArgsHere bytes.now head.args × OnTime g clock (command_of bytes.now head) }
    ensures { (asked_of bytes.now result ≡ plan.ask g clock (command_of bytes.now head)) × AskedIn bytes.now result }
{
    let args = head.args;
    let mode = g.mode;
    match reach(bytes, head, mode) {
        Reached::Skipped => Asked::Nothing,
        Reached::Stopped => Asked::Uncacheable,
        Reached::Named(name) => {
            let expiry = calculate_expiration_time(head, g, clock);
            ask_named(bytes, args, name, expiry)
        }
    }
}
