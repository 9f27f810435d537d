// One step of resolving, over a plan's nodes and the list of replies: every pass of resolving is a loop over `step_at`, so that all of them say the
// same. After caching/cmd.rs; its iterators are the cursors here. specs/Steps.antt says what a step means, crate resolving_walk what all steps do.
// `list` is the list of replies: exactly one array. What is handed out is never copied: each element is a part of one of the two.
#![tactic(auto)]

ghost use Rattle.std.specs.Prelude.{◌≡◌, ◌+◌, ◌≤◌, min, length, IfSome};
ghost use Rattle.resp3_element.specs.Meaning.{Inside};
ghost use Rattle.plan.specs.Head.{HeadIn};
ghost use Rattle.resolving.specs.Store.{expiry_of};
ghost use Rattle.resolving_step.specs.Steps.{missed_of, Fetches, Placed, HandsOn, Readies, TakesSingle, TakesSeveral, Waits, Ends, OnNode, StepIs};
ghost use Rattle.resolving_step.specs.Steps.{part_bytes, part_holder, part_start, NextIn};

use config::CacheMode;
use plan::NodeHead;
use planning::NodeKind;
use resp3_element::Cursor;

// Where the walk stands: at a node, at a reply, and at an element of the array that stands in the list from `from` up to `to`.
#[derive(Clone, Copy)]
pub struct Walk {
    pub at: usize,
    pub reply: Cursor,
    pub from: usize,
    pub to: usize,
    pub element: Cursor,
}

// A missing key: in the plan its key stands from `key` up to `command`, its command key from there up to `end`.
#[derive(Clone, Copy)]
pub struct Missed {
    pub key: usize,
    pub command: usize,
    pub end: usize,
    pub expiry: u64,
}

impl From<NodeHead> for Missed {
    ghost from_gives = { λ n m. m ≡ missed_of n };

    fn from(n: NodeHead) -> Missed {
        Missed {
            key: n.first,
            command: n.second,
            end: n.end,
            expiry: n.number,
        }
    }
}

// What comes next in the answer.
// Kept: pairs of places are no plainer as `cursor::Range`: this file names no crate of the call record, and would for this type alone.
#[derive(Clone, Copy)]
pub enum Next {
    // These bytes of the plan.
    Plan(usize, usize),
    // These bytes of the list.
    Reply(usize, usize),
    // The head of an array of so many.
    Head(u64),
    // These bytes of the list, and they are stored under this key until its expiry.
    Keep(Missed, usize, usize),
    // Nothing.
    Pass,
}

// A step. Where a reply is absent, or of the wrong shape, there is none.
#[derive(Clone, Copy)]
pub struct Step {
    pub next: Next,
    pub walk: Walk,
}

// The smaller of clock + n and the client's expiry.
fn sooner(clock: u64, client: u64, n: u64) -> u64
    ensures { result ≡ min (clock + n) client }
{
    if client <= clock {
        return client;
    }
    if n < client - clock {
        return clock + n;
    }
    client
}

// Until when a reply with this PTTL is stored.
pub fn expire_time(clock: u64, client: u64, pttl: Option<i64>) -> u64
    ensures { result ≡ expiry_of clock client pttl }
{
    let Some(t) = pttl else {
        return client;
    };
    if t <= 0 {
        return client;
    }
    sooner(clock, client, t as u64)
}

// A fetched value, which stands in the list from `from` up to `to`, with its PTTL: an error is passed on, all else is stored too.
fn fetched(list: &[u8], m: Missed, clock: u64, pttl: Cursor, from: usize, to: usize) -> Next
    requires { Inside list.now pttl × (from ≤ to) × (to ≤ length list.now) }
    ensures { Fetches list.now m clock pttl from to result }
{
    if resp3_element::is_error(&list[from..to]) {
        return Next::Reply(from, to);
    }
    let t = resp3_element::number(resp3_element::element(list, pttl));
    let x = expire_time(clock, m.expiry, t);
    Next::Keep(
        Missed {
            key: m.key,
            command: m.command,
            end: m.end,
            expiry: x,
        },
        from,
        to,
    )
}

// The walk with the next reply.
fn with_reply(c: Walk, reply: Cursor) -> Walk
    ensures { result ≡ record { at = c.at; reply = reply; from = c.from; to = c.to; element = c.element } }
{
    let element = c.element;
    Walk {
        at: c.at,
        reply,
        from: c.from,
        to: c.to,
        element,
    }
}

// A command whose reply is handed on.
fn hand_on(list: &[u8], c: Walk) -> Option<Step>
    ensures { HandsOn list.now c result }
{
    let at = c.reply;
    if at.left == 0 {
        return None;
    }
    let rest = resp3_element::next(list, at);
    Some(Step {
        next: Next::Reply(at.at, at.end),
        walk: with_reply(c, rest),
    })
}

// In opt-in mode a missing command first drops one reply.
fn drop_reply(list: &[u8], c: Walk, mode: CacheMode) -> Option<Walk>
    ensures { Readies list.now c mode result }
{
    match mode {
        CacheMode::All => Some(c),
        CacheMode::OptIn => {
            let at = c.reply;
            if at.left == 0 {
                return None;
            }
            let rest = resp3_element::next(list, at);
            Some(with_reply(c, rest))
        }
    }
}

// One missing key: its PTTL, then its reply.
fn single(list: &[u8], c: Walk, m: Missed, clock: u64) -> Option<Step>
    requires { Placed list.now c }
    ensures { TakesSingle list.now c m clock result }
{
    let pttl = c.reply;
    if pttl.left < 2 {
        return None;
    }
    let reply = resp3_element::next(list, pttl);
    let rest = resp3_element::next(list, reply);
    let next = fetched(list, m, clock, pttl, reply.at, reply.end);
    Some(Step {
        next,
        walk: with_reply(c, rest),
    })
}

// The head of several keys: a reply that is an array.
fn several(list: &[u8], c: Walk, n: u64) -> Option<Step>
    requires { Placed list.now c }
    ensures { TakesSeveral list.now c n result }
{
    let at = c.reply;
    if at.left == 0 {
        return None;
    }
    let Some(first) = resp3_element::array(resp3_element::element(list, at)) else {
        return None;
    };
    let rest = resp3_element::next(list, at);
    Some(Step {
        next: Next::Head(n),
        walk: Walk {
            at: c.at,
            reply: rest,
            from: at.at,
            to: at.end,
            element: first,
        },
    })
}

// A place that waits for its key: an element, then a PTTL; where one is absent it stays `_`.
fn waiting(list: &[u8], c: Walk, m: Missed, clock: u64) -> Step
    requires { Placed list.now c }
    ensures { Waits list.now c m clock result }
{
    let unfilled = Step {
        next: Next::Plan(planning::NULL_START, planning::NULL_END),
        walk: c,
    };
    let e = c.element;
    let pttl = c.reply;
    if e.left == 0 {
        return unfilled;
    }
    if pttl.left == 0 {
        return unfilled;
    }
    let from = c.from;
    let to = c.to;
    let after = resp3_element::next(&list[from..to], e);
    let rest = resp3_element::next(list, pttl);
    let next = fetched(list, m, clock, pttl, from + e.at, from + e.end);
    Step {
        next,
        walk: Walk {
            at: c.at,
            reply: rest,
            from,
            to,
            element: after,
        },
    }
}

// The end of several keys: an array that is longer eats one PTTL more.
fn ended(list: &[u8], c: Walk) -> Step
    ensures { Ends list.now c result }
{
    let e = c.element;
    let pttl = c.reply;
    let none = Cursor {
        at: 0,
        end: 0,
        left: 0,
    };
    let over = Walk {
        at: c.at,
        reply: pttl,
        from: 0,
        to: 0,
        element: none,
    };
    if e.left == 0 {
        return Step {
            next: Next::Pass,
            walk: over,
        };
    }
    if pttl.left == 0 {
        return Step {
            next: Next::Pass,
            walk: over,
        };
    }
    let rest = resp3_element::next(list, pttl);
    Step {
        next: Next::Pass,
        walk: with_reply(over, rest),
    }
}

// The step for a node, with the cursor behind it. A missing command, one key or several, first drops opt-in's reply.
fn on_node(list: &[u8], c: Walk, n: NodeHead, mode: CacheMode, clock: u64) -> Option<Step>
    requires { Placed list.now c }
    ensures { OnNode list.now c n mode clock result }
{
    match n.kind.ok()? {
        NodeKind::HandOn => hand_on(list, c),
        NodeKind::Served => Some(Step {
            next: Next::Plan(n.first, n.second),
            walk: c,
        }),
        NodeKind::AllServed => Some(Step {
            next: Next::Head(n.number),
            walk: c,
        }),
        NodeKind::Missing => single(list, drop_reply(list, c, mode)?, Missed::from(n), clock),
        NodeKind::Several => several(list, drop_reply(list, c, mode)?, n.number),
        NodeKind::Waiting => Some(waiting(list, c, Missed::from(n), clock)),
        NodeKind::End => Some(ended(list, c)),
    }
}

// The step at the node at which the walk stands.
pub fn step_at(plan: &[u8], list: &[u8], c: Walk, mode: CacheMode, clock: u64) -> Option<Step>
    requires { HeadIn plan.now c.at × Placed list.now c }
    ensures { StepIs plan.now list.now c mode clock result }
{
    let n = plan::node_at(plan, c.at);
    let reply = c.reply;
    let element = c.element;
    let behind = Walk {
        at: n.end,
        reply,
        from: c.from,
        to: c.to,
        element,
    };
    on_node(list, behind, n, mode, clock)
}

// What a step hands out, where it stands: in one slice or the other. Where there is no step, since a reply is absent or of the wrong shape, nothing.
pub fn element_part<'a>(plan: &'a [u8], list: &'a [u8], next: Option<Next>) -> &'a [u8]
    requires { IfSome next (λ n. NextIn plan.now list.now n) }
    ensures bytes { result.now ≡ part_bytes plan.now list.now next }
    ensures place { (result.ref_ptr.0 ≡ part_holder next plan.entry.ref_ptr.0 list.entry.ref_ptr.0)
        × (result.ref_ptr.1 ≡ part_start next + part_holder next plan.entry.ref_ptr.1 list.entry.ref_ptr.1) }
{
    let Some(next) = next else {
        return &plan[..0];
    };
    match next {
        Next::Plan(a, e) => &plan[a..e],
        Next::Reply(a, e) => &list[a..e],
        Next::Keep(_, a, e) => &list[a..e],
        Next::Head(_) => &plan[..0],
        Next::Pass => &plan[..0],
    }
}
