// The second pass of planning: each command's keys are looked up and its nodes written as they are found (crate planning_nodes), and then what is
// sent for it, its
// missing keys read from those nodes. That this is what the dry pass has measured is specs/Unseen.antt: a planning's lookups change no command's outcome.
// `seen` is a filter of keys, as in planning_nodes.
#![tactic(auto)]

ghost use Rattle.std.specs.Prelude.{ℕ, ◌+◌, ◌*◌, ◌^◌, ◌≤◌, ◌<◌, length};
ghost use Rattle.config.specs.Limits.{max_bytes};
ghost use Rattle.cursor.specs.At.{command_of, commands_of};
ghost use Rattle.book.specs.Book.{Row};
ghost use Rattle.sharded_lru.specs.Lent.{setup_now, Lent};
ghost use Rattle.key_filter.specs.Filter.{Filtered};
ghost use Rattle.planning_outcome.specs.Sizes.{nodes_for, sent_for};
ghost use Rattle.planning_dry_pass.specs.Dry as dry;
ghost use Rattle.planning_second_pass.specs.Does.{One, Does, Room};
ghost use Rattle.planning.specs.Ask.{ask};

use config::{Now, Settings};
use cursor::{Commands, Head};
use planning_places::Source;
use statistics::Statistics;

// How far the pass is: the place in the plan buffer, the place in the send buffer, how many commands are sent, and the counts.
#[derive(Clone, Copy)]
pub struct Progress {
    pub to: usize,
    pub from: usize,
    pub sent: usize,
    pub counts: Statistics,
}

// One command.
fn plan_command(
    arena: &mut [u8],
    plan: &mut [u8],
    send: &mut [u8],
    bytes: &[u8],
    head: Head,
    g: Settings,
    when: Now,
    x: Progress,
    seen: &[u64],
) -> Progress
    requires { dry.One g when.clock bytes.now head × (length bytes.now ≤ max_bytes) × Filtered g arena.old seen.now
        × ((rows : ℕ → Row) → Lent g arena.old rows → x.to + length
        (nodes_for (setup_now g) rows when.clock when.epoch (ask g when.clock) (command_of bytes.now head)) ≤ length plan.old)
        × ((rows : ℕ → Row) → Lent g arena.old rows → x.from + length
        (sent_for (setup_now g) rows when.clock when.epoch (ask g when.clock) g.mode (command_of bytes.now head)) ≤ length send.old)
        × (x.sent + 2 ^ 26 < 2 ^ 64) }
    ensures { One g when.clock when.epoch (command_of bytes.now head) arena.old plan.old send.old x
        arena.new plan.new send.new result × (result.sent ≤ x.sent + 2 ^ 26) }
{
    let before = x.counts;
    let p = planning_nodes::get_cached_cmd(plan, x.to, arena, bytes, head, g, when, before, seen);
    let result = p.result;
    let mode = g.mode;
    let places = Source::Nodes(p.places);
    let from = planning_send::write_sent(send, x.from, bytes, head, result, mode, plan, places);
    let n = planning_send_len::sent_count(result, mode);
    let counts = p.counts;
    Progress {
        to: p.to,
        from: from,
        sent: x.sent + n,
        counts: counts,
    }
}

// All commands, in their order.
pub fn plan_commands(
    arena: &mut [u8],
    plan: &mut [u8],
    send: &mut [u8],
    bytes: &[u8],
    k: Commands,
    g: Settings,
    when: Now,
    x: Progress,
    seen: &[u64],
) -> Progress
    requires { dry.Planable g when.clock bytes.now k.left k.at × (length bytes.now ≤ max_bytes) × Filtered g arena.old seen.now
        × Room g when.clock when.epoch (commands_of bytes.now k) arena.old plan.old send.old x × (x.sent + 2 ^ 26 * k.left < 2 ^ 63) }
    ensures { Does g when.clock when.epoch (commands_of bytes.now k) arena.old plan.old send.old x
        arena.new plan.new send.new result × (result.sent ≤ x.sent + 2 ^ 26 * k.left) }
{
    let mut at = k.at;
    let mut y = x;
    for _ in 0..k.left {
        let head = cursor::head_at(bytes, at);
        y = plan_command(arena, plan, send, bytes, head, g, when, y, seen);
        at = cursor::args_end(bytes, head.args);
    }
    y
}
