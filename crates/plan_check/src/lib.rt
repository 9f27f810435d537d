// Cause 10's test: whether bytes are a plan, by the rules of docs/LAYOUT.md. One walk over the nodes, whatever the bytes; each node is tested by itself
// and by what has to follow, and a served value is read once.
#![tactic(auto)]

ghost use Rattle.std.specs.Prelude.{◌≡◌, ◌≤◌, length};
ghost use Rattle.resp3.specs.Ends.{is_value};
ghost use Rattle.planning.specs.Plan.{plan_head_size};
ghost use Rattle.plan.specs.Decode.{is_plan};
ghost use Rattle.plan_check.specs.Check.{whole_at, empty_fine, value_fine, places_fine, key_fine, head_fine, as_command, as_value, as_end, as_place};
ghost use Rattle.plan_check.specs.Check.{followed, walked_past, finished, start_fine, start_at};

use plan::NodeHead;
use planning::NodeKind;

// Where the walk over the nodes stands, and what has to follow there: so many places of a command whose places are all served, or of several keys
// (and then the end of several), and after them so many commands.
// Kept: the flag is no plainer as an enum over the number, which is counted down alike either way, and asked for by itself at the end.
#[derive(Clone, Copy)]
struct Walk {
    at: usize,
    commands: u32,
    places: u64,
    several: bool,
}

// Whether a whole node stands at `at`.
fn whole_at(plan: &[u8], at: usize) -> bool
    requires { at ≤ length plan.now }
    ensures { result ≡ whole_at plan.now at }
{
    if plan.len() - at < planning::NODE_HEAD {
        return false;
    }
    let rest = plan.len() - at - planning::NODE_HEAD;
    let first = buffer::read_u32(plan, at + 4) as usize;
    if rest < first {
        return false;
    }
    buffer::read_u32(plan, at + 8) as usize <= rest - first
}

// A reply handed on, the end of several: no parts and no number.
fn empty_ok(first: usize, second: usize, number: u64) -> bool
    ensures { result ≡ empty_fine first second number }
{
    if first != 0 {
        return false;
    }
    if second != 0 {
        return false;
    }
    number == 0
}

// A served value: a value alone.
fn value_ok(value: &[u8], second: usize, number: u64) -> bool
    ensures { result ≡ value_fine second number (is_value value.now) }
{
    if second != 0 {
        return false;
    }
    if number != 0 {
        return false;
    }
    resp3::is_value(value)
}

// All places served, several keys: a number of places alone.
fn places_ok(first: usize, second: usize, number: u64) -> bool
    ensures { result ≡ places_fine first second number }
{
    if first != 0 {
        return false;
    }
    if second != 0 {
        return false;
    }
    number <= config::MAX_ARGUMENTS as u64
}

// A missing key, a place that waits: a key and a command key.
fn key_ok(first: usize, second: usize) -> bool
    ensures { result ≡ key_fine first second }
{
    if first > config::MAX_KEY {
        return false;
    }
    second <= config::MAX_COMMAND_KEY
}

// Whether the node of that head is one by itself: its kind, parts and number.
fn node_ok(plan: &[u8], h: NodeHead) -> bool
    requires { (h.first ≤ h.second) × (h.second ≤ h.end) × (h.end ≤ length plan.now) }
    ensures { result ≡ head_fine plan.now h }
{
    let number = h.number;
    let from = h.first;
    let to = h.second;
    let first = to - from;
    let second = h.end - to;
    let Ok(kind) = h.kind else {
        return false;
    };
    match kind {
        NodeKind::HandOn | NodeKind::End => empty_ok(first, second, number),
        NodeKind::Served => value_ok(&plan[from..to], second, number),
        NodeKind::AllServed | NodeKind::Several => places_ok(first, second, number),
        NodeKind::Missing | NodeKind::Waiting => key_ok(first, second),
    }
}

// Past a node that has to be a command's first.
fn as_command(commands: u32, kind: NodeKind, number: u64, end: usize) -> Option<Walk>
    ensures { result ≡ as_command commands kind number end }
{
    if commands == 0 {
        return None;
    }
    let (places, several) = match kind {
        NodeKind::AllServed => (number, false),
        NodeKind::Several => (number, true),
        NodeKind::HandOn | NodeKind::Served | NodeKind::Missing => (0, false),
        NodeKind::Waiting | NodeKind::End => return None,
    };
    Some(Walk {
        at: end,
        commands: commands - 1,
        places,
        several,
    })
}

// Past a node where so many served values have to follow.
fn as_value(places: u64, commands: u32, kind: NodeKind, number: u64, end: usize) -> Option<Walk>
    ensures { result ≡ as_value places commands kind number end }
{
    if places == 0 {
        return as_command(commands, kind, number, end);
    }
    if kind == NodeKind::Served {
        return Some(Walk {
            at: end,
            commands,
            places: places - 1,
            several: false,
        });
    }
    None
}

// Past a node that has to be the end of several keys.
fn as_end(commands: u32, kind: NodeKind, end: usize) -> Option<Walk>
    ensures { result ≡ as_end commands kind end }
{
    if kind == NodeKind::End {
        return Some(Walk {
            at: end,
            commands,
            places: 0,
            several: false,
        });
    }
    None
}

// Past a node where so many places of several keys, and their end, have to follow.
fn as_place(places: u64, commands: u32, kind: NodeKind, end: usize) -> Option<Walk>
    ensures { result ≡ as_place places commands kind end }
{
    if places == 0 {
        return as_end(commands, kind, end);
    }
    if kind == NodeKind::Served || kind == NodeKind::Waiting {
        return Some(Walk {
            at: end,
            commands,
            places: places - 1,
            several: true,
        });
    }
    None
}

// Past the node of that head, where the walk stands.
fn follow(w: Walk, h: NodeHead) -> Option<Walk>
    ensures { result ≡ followed w h }
{
    let kind = h.kind.ok()?;
    if w.several {
        return as_place(w.places, w.commands, kind, h.end);
    }
    as_value(w.places, w.commands, kind, h.number, h.end)
}

// Past the node at which the walk stands, if one stands there that may follow.
fn past_node(plan: &[u8], w: Walk) -> Option<Walk>
    requires { w.at ≤ length plan.now }
    ensures { result ≡ walked_past plan.now w }
{
    let at = w.at;
    if !whole_at(plan, at) {
        return None;
    }
    let h = plan::node_at(plan, at);
    if !node_ok(plan, h) {
        return None;
    }
    follow(w, h)
}

// Whether nothing has to follow.
fn walk_done(w: Walk) -> bool
    ensures { result ≡ finished w }
{
    if w.commands != 0 {
        return false;
    }
    if w.places != 0 {
        return false;
    }
    !w.several
}

// Flags, the bytes of `_` and the count of commands.
fn start_ok(plan: &[u8]) -> bool
    ensures { result ≡ start_fine plan.now }
{
    if plan.len() < planning::PLAN_HEAD {
        return false;
    }
    if plan[0] > 1 {
        return false;
    }
    if !resp3::null_at(plan, planning::NULL_START) {
        return false;
    }
    buffer::read_u32(plan, planning::NULL_END) as usize <= config::MAX_COMMANDS
}

// At the first node.
fn walk_start(plan: &[u8]) -> Walk
    requires { plan_head_size ≤ length plan.now }
    ensures { result ≡ start_at plan.now }
{
    Walk {
        at: planning::PLAN_HEAD,
        commands: buffer::read_u32(plan, planning::NULL_END),
        places: 0,
        several: false,
    }
}

// Whether the bytes are a plan: cause 10's test.
pub fn is_plan(plan: &[u8]) -> bool
    ensures { result ≡ is_plan plan.now }
{
    if !start_ok(plan) {
        return false;
    }
    let mut w = walk_start(plan);
    // Kept: a walk is no list: where the next node stands is known only once this one was read, and the walk may end early.
    while w.at < plan.len() {
        let Some(next) = past_node(plan, w) else {
            return false;
        };
        w = next;
    }
    walk_done(w)
}
