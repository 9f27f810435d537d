// The dry pass of planning: whether what planning writes fits its two buffers, found by peeking, before anything is written or looked up.
// specs/Size.antt measures a command, crate room counts the room down; planning_outcome says what is written for each command.
// `seen` is a filter of keys that tells of the arena (crate key_filter): a key that it says is absent is not searched for.
#![tactic(auto)]

ghost use Rattle.std.specs.Prelude.{◌≡◌, ◌||◌, is_none, ℕ, ◌≤◌, length};
ghost use Rattle.config.specs.Limits.{max_bytes, max_arguments};
ghost use Rattle.config.specs.declared.CacheMode.{CacheMode};
ghost use Rattle.call_record.specs.Record.{Command};
ghost use Rattle.cursor.specs.At.{range_bytes, RangeIn, ArgsHere, command_of, commands_of};
ghost use Rattle.book.specs.Book.{Row};
ghost use Rattle.planning.specs.Ask.{ask};
ghost use Rattle.planning.specs.Outcome.{ignored, item, not_cacheable, single_item, whole_key};
ghost use Rattle.planning_ask.specs.Asked.{SeveralIn};
ghost use Rattle.sharded_lru.specs.Lent.{setup_now, Lent, Arena};
ghost use Rattle.key_filter.specs.Filter.{Filtered};
ghost use Rattle.planning_outcome.specs.Result.{place_on, several_item, PlaceTold};
ghost use Rattle.planning_outcome.specs.Sizes.{all_nodes, all_sent};
ghost use Rattle.room.specs.Room.{spent};
ghost use Rattle.planning_dry_pass.specs.Size.{SizedAs};
ghost use Rattle.planning_dry_pass.specs.Dry.{Planable, One, SizeIs};

use command_key::CommandKey;
use config::{Now, Settings};
use cursor::{Commands, Head, Range};
use planning_ask::{Asked, Several};
use shard_lookup::Looked;

// The bytes that a command takes in the plan and in what is sent.
#[derive(Clone, Copy)]
pub struct Size {
    pub plan: usize,
    pub send: usize,
}

// The bytes that a command takes whose reply is handed on: a node, and the command itself.
fn size_own(bytes: &[u8], head: Head) -> Size
    requires { ArgsHere bytes.now head.args × (length bytes.now ≤ max_bytes) × (head.args.left ≤ max_arguments) }
    ensures { (m : CacheMode) → SizedAs m (command_of bytes.now head) ignored result
        × SizedAs m (command_of bytes.now head) (item not_cacheable) result }
{
    Size {
        plan: planning::NODE_HEAD,
        send: planning_send_len::own_len(bytes, head),
    }
}

// One key of a command, peeked.
fn peek_one(
    bytes: &[u8],
    head: Head,
    key: Range,
    arena: &[u8],
    g: Settings,
    when: Now,
    seen: &[u64],
) -> Looked
    requires { ArgsHere bytes.now head.args × RangeIn bytes.now key × Filtered g arena.now seen.now }
    ensures { (rows : ℕ → Row) → Lent g arena.now rows
        → PlaceTold arena.now (whole_key (command_of bytes.now head) (range_bytes bytes.now key))
        (place_on (setup_now g) rows when.clock when.epoch (whole_key (command_of bytes.now head) (range_bytes bytes.now key))) result }
{
    let text = cursor::bytes_in(bytes, key);
    let args = head.args;
    let command = CommandKey::Joined(args);
    key_filter::peek(arena, g, text, bytes, command, when, seen)
}

// The bytes that a command with one key takes.
fn size_one(
    bytes: &[u8],
    head: Head,
    key: Range,
    arena: &[u8],
    g: Settings,
    when: Now,
    seen: &[u64],
) -> Size
    requires { ArgsHere bytes.now head.args × (length bytes.now ≤ max_bytes) × (head.args.left ≤ max_arguments) × RangeIn bytes.now key
        × Filtered g arena.now seen.now }
    ensures { (rows : ℕ → Row) → Lent g arena.now rows → (x : ℕ)
        → SizedAs g.mode (command_of bytes.now head)
        (item (single_item (place_on (setup_now g) rows when.clock when.epoch
        (whole_key (command_of bytes.now head) (range_bytes bytes.now key))) x)) result }
{
    let mode = g.mode;
    let args = head.args;
    match peek_one(bytes, head, key, arena, g, when, seen) {
        Looked::Hit { from, to } => Size {
            plan: planning::NODE_HEAD + (to - from),
            send: 0,
        },
        Looked::Miss(_) => {
            let text = cursor::bytes_in(bytes, key);
            Size {
                plan: plan_write::missing_len(text, bytes, CommandKey::Joined(args)),
                send: planning_send_len::opt_in_len(mode)
                    + planning_send_len::single_len(bytes, head, key),
            }
        }
    }
}

// The bytes that a command with several keys takes.
fn size_several(
    bytes: &[u8],
    v: Several,
    arena: &[u8],
    g: Settings,
    when: Now,
    seen: &[u64],
) -> Size
    requires { SeveralIn bytes.now v × (length bytes.now ≤ max_bytes) × Filtered g arena.now seen.now }
    ensures { (rows : ℕ → Row) → Lent g arena.now rows → (c : Command) (x : ℕ)
        → SizedAs g.mode c (item (several_item (setup_now g) rows when.clock when.epoch bytes.now v x)) result }
{
    let mode = g.mode;
    let m = planning_places::measure(bytes, v, arena, g, when, seen);
    if m.missing == 0 {
        Size {
            plan: planning::NODE_HEAD + m.nodes,
            send: 0,
        }
    } else {
        Size {
            plan: 2 * planning::NODE_HEAD + m.nodes,
            send: planning_send_len::opt_in_len(mode) + planning_send_len::several_len(bytes, v, m),
        }
    }
}

// The bytes that one command takes: each of its keys is peeked once.
fn size_by(bytes: &[u8], head: Head, arena: &[u8], g: Settings, when: Now, seen: &[u64]) -> Size
    requires { One g when.clock bytes.now head × (length bytes.now ≤ max_bytes) × Filtered g arena.now seen.now }
    ensures { (rows : ℕ → Row) → Lent g arena.now rows
        → SizeIs g rows when.clock when.epoch (command_of bytes.now head) result }
{
    match planning_ask::ask(bytes, head, g, when.clock) {
        Asked::Nothing => size_own(bytes, head),
        Asked::Uncacheable => size_own(bytes, head),
        Asked::OneKey(key, _) => size_one(bytes, head, key, arena, g, when, seen),
        Asked::SeveralKeys(v, _) => size_several(bytes, v, arena, g, when, seen),
    }
}

// The same without a filter.
pub fn size_of(bytes: &[u8], head: Head, arena: &[u8], g: Settings, when: Now) -> Size
    requires { One g when.clock bytes.now head × (length bytes.now ≤ max_bytes) × Arena g arena.now }
    ensures { (rows : ℕ → Row) → Lent g arena.now rows
        → SizeIs g rows when.clock when.epoch (command_of bytes.now head) result }
{
    let none = [0u64; 0];
    size_by(bytes, head, arena, g, when, &none)
}

// Whether either room is short for what the commands take.
pub fn dry_pass(
    bytes: &[u8],
    k: Commands,
    arena: &[u8],
    g: Settings,
    when: Now,
    plan: Option<usize>,
    send: Option<usize>,
    seen: &[u64],
) -> bool
    requires { Planable g when.clock bytes.now k.left k.at × (length bytes.now ≤ max_bytes) × Filtered g arena.now seen.now }
    ensures { (rows : ℕ → Row) → Lent g arena.now rows
        → result ≡ (is_none (spent plan (length (all_nodes (setup_now g) rows when.clock when.epoch (ask g when.clock)
        (commands_of bytes.now k)))) || is_none (spent send
        (length (all_sent (setup_now g) rows when.clock when.epoch (ask g when.clock) g.mode (commands_of bytes.now k))))) }
{
    let mut at = k.at;
    let mut p = plan;
    let mut q = send;
    for _ in 0..k.left {
        let head = cursor::head_at(bytes, at);
        let size = size_by(bytes, head, arena, g, when, seen);
        p = room::spend(p, size.plan);
        q = room::spend(q, size.send);
        at = cursor::args_end(bytes, head.args);
    }
    p.is_none() || q.is_none()
}
