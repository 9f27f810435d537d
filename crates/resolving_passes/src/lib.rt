// The passes of resolving that change nothing of the cache, each a loop over the same step: the dry pass finds cause 7 and whether the answers
// have room (cause 8), the answer pass writes them. specs/Passes.antt says what each finds or writes. After `CacheablePipeline::resolve`.
#![tactic(auto)]

ghost use Rattle.std.specs.Prelude.{◌≡◌, ◌+◌, ◌≤◌, length};
ghost use Rattle.buffer.specs.Part.{put};
ghost use Rattle.resolving_step.specs.Steps.{element_bytes, next_bytes, NextIn};
ghost use Rattle.resolving_passes.specs.Passes.{Ordered, next_size, Begins, DryIs, Fine, AnswerIs};

use config::CacheMode;
use resolving_step::{Next, Walk};

// How many bytes a step adds to the answer.
fn next_size(next: Next) -> usize
    requires { Ordered next }
    ensures { result ≡ next_size next }
{
    match next {
        Next::Plan(a, e) => e - a,
        Next::Reply(a, e) => e - a,
        Next::Head(n) => decimal::countdigits(n) + 3,
        Next::Keep(_, a, e) => e - a,
        Next::Pass => 0,
    }
}

// What the dry pass finds.
// Kept: both callers match all three side by side, and store, zero or write by each: no `?` would take one of them further, so a Result is no plainer.
#[derive(Clone, Copy)]
pub enum Dry {
    Fits,
    Short,
    Wrong,
}

// Whether every reply from the walk's place on is of the right shape, and whether the answers have room. Cause 7 goes before 8, so that the walk goes
// on where the room is short.
pub fn dry_pass(
    plan: &[u8],
    list: &[u8],
    from: Walk,
    mode: CacheMode,
    clock: u64,
    room: Option<usize>,
) -> Dry
    requires { Begins plan.now list.now from }
    ensures { DryIs plan.now list.now from mode clock room result }
{
    let mut c = from;
    let mut r = room;
    // Kept: a walk is no list: where the next node stands is known only once this one was read, and the walk may end early.
    while c.at < plan.len() {
        let Some(t) = resolving_step::step_at(plan, list, c, mode, clock) else {
            return Dry::Wrong;
        };
        r = room::spend(r, next_size(t.next));
        c = t.walk;
    }
    match r {
        Some(_) => Dry::Fits,
        None => Dry::Short,
    }
}

// Copies what a step hands out to `at`, and answers the place behind it.
fn copy_element<'a>(plan: &'a [u8], list: &'a [u8], next: Next, out: &mut [u8], at: usize) -> usize
    requires { NextIn plan.now list.now next × (at + length (element_bytes plan.now list.now next) ≤ length out.old) }
    ensures { (result ≡ at + length (element_bytes plan.now list.now next))
        × (out.new ≡ put out.old at (element_bytes plan.now list.now next)) }
{
    let part = resolving_step::element_part(plan, list, Some(next));
    buffer::copy_to(out, at, part);
    at + part.len()
}

// Writes what a step adds to the answer at `at`, and answers the place behind it.
fn write_next<'a>(plan: &'a [u8], list: &'a [u8], next: Next, out: &mut [u8], at: usize) -> usize
    requires { NextIn plan.now list.now next × (at + length (next_bytes plan.now list.now next) ≤ length out.old) }
    ensures { (result ≡ at + length (next_bytes plan.now list.now next))
        × (out.new ≡ put out.old at (next_bytes plan.now list.now next)) }
{
    let Next::Head(n) = next else {
        return copy_element(plan, list, next, out, at);
    };
    cmd::write_head(out, at, b'*', n)
}

// Writes the answers from the walk's place on to `at`, and answers the place behind them.
pub fn answer_pass<'a>(
    plan: &'a [u8],
    list: &'a [u8],
    from: Walk,
    mode: CacheMode,
    clock: u64,
    out: &mut [u8],
    at: usize,
) -> usize
    requires { Begins plan.now list.now from × Fine plan.now list.now from mode clock at (length out.old) }
    ensures { AnswerIs plan.now list.now from mode clock at result out.old out.new }
{
    let mut w = from;
    let mut i = at;
    // Kept: a walk is no list, as in the dry pass. That there is a step is what `Fine` says.
    while w.at < plan.len() {
        let t = resolving_step::step_at(plan, list, w, mode, clock).unwrap();
        i = write_next(plan, list, t.next, out, i);
        w = t.walk;
    }
    i
}
