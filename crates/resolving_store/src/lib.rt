// The store pass of resolving: the same walk, storing what each step keeps, up to the end or up to the step that finds no fitting reply. A store
// that finds no space stops nothing: it is counted (rule S11 of docs/BEHAVIOUR.md). specs/Stores.antt says it on the book. After `CacheablePipeline::resolve`.
//
// The functions are lent a filter of keys that tells of the arena, and keep it true, so that a key that is not there is stored without a search.
#![tactic(auto)]

ghost use Rattle.std.specs.Prelude.{◌≤◌, length, [], ◌∷◌};
ghost use Rattle.sharded_lru.specs.Lent.{Arena};
ghost use Rattle.key_filter.specs.Filter.{Filters};
ghost use Rattle.resolving.specs.Kept.{Storable, AllStorable};
ghost use Rattle.resolving_step.specs.Steps.{keeping, next_stores, MissedIn, NextIn};
ghost use Rattle.resolving_passes.specs.Passes.{Begins};
ghost use Rattle.resolving_store.specs.Stores.{Stores, StorePass};

use config::{CacheMode, Now, Settings};
use resolving_step::{Missed, Next, Walk};

// Stores the value that stands in the list from `from` up to `to`: 1 where there is no space, else 0.
// Kept: a number, since what is asked for is how many stores there was no space for, and this is one of them or none.
fn store_one(
    arena: &mut [u8],
    g: Settings,
    plan: &[u8],
    list: &[u8],
    m: Missed,
    from: usize,
    to: usize,
    epoch: u64,
    seen: &mut [u64],
) -> u64
    requires { Arena g arena.old × MissedIn plan.now m × (from ≤ to) × (to ≤ length list.now) × Storable (keeping plan.now list.now m from to)
        × Filters g arena.old seen.old }
    ensures { Stores g epoch (keeping plan.now list.now m from to ∷ []) arena.old arena.new result × (result ≤ 1)
        × Filters g arena.new seen.new }
{
    let key = m.key;
    let command = m.command;
    let end = m.end;
    let kept = key_filter::insert(
        arena,
        g,
        &plan[key..command],
        &plan[command..end],
        &list[from..to],
        m.expiry,
        epoch,
        seen,
    );
    match kept {
        Ok(()) => 0,
        Err(_) => 1,
    }
}

// Stores what a step keeps, if anything: how many stores there was no space for.
fn keep(
    arena: &mut [u8],
    g: Settings,
    plan: &[u8],
    list: &[u8],
    next: Next,
    epoch: u64,
    seen: &mut [u64],
) -> u64
    requires { Arena g arena.old × NextIn plan.now list.now next × AllStorable (next_stores plan.now list.now next)
        × Filters g arena.old seen.old }
    ensures { Stores g epoch (next_stores plan.now list.now next) arena.old arena.new result × (result ≤ 1)
        × Filters g arena.new seen.new }
{
    let Next::Keep(m, from, to) = next else {
        return 0;
    };
    store_one(arena, g, plan, list, m, from, to, epoch, seen)
}

// Stores from the walk's place on: how many stores there was no space for.
fn store_each(
    arena: &mut [u8],
    g: Settings,
    plan: &[u8],
    list: &[u8],
    from: Walk,
    mode: CacheMode,
    when: Now,
    seen: &mut [u64],
) -> u64
    requires { Arena g arena.old × Begins plan.now list.now from × Filters g arena.old seen.old }
    ensures { StorePass g when.epoch plan.now list.now from mode when.clock arena.old arena.new result }
{
    let mut c = from;
    let mut refused: u64 = 0;
    // Kept: a walk is no list: where the next node stands is known only once this one was read, and the walk may end early.
    while c.at < plan.len() {
        let Some(t) = resolving_step::step_at(plan, list, c, mode, when.clock) else {
            return refused;
        };
        refused += keep(arena, g, plan, list, t.next, when.epoch, seen);
        c = t.walk;
    }
    refused
}

// The same with a filter that is made first, of as many words as the keys' bits need.
fn store_filtered(
    arena: &mut [u8],
    g: Settings,
    plan: &[u8],
    list: &[u8],
    from: Walk,
    mode: CacheMode,
    when: Now,
) -> u64
    requires { Arena g arena.old × Begins plan.now list.now from }
    ensures { StorePass g when.epoch plan.now list.now from mode when.clock arena.old arena.new result }
{
    let mut seen = [0u64; 1536];
    key_filter::fill(arena, g, &mut seen);
    store_each(arena, g, plan, list, from, mode, when, &mut seen)
}

// Stores from the walk's place on: how many stores there was no space for. A filter pays from some dozens of stores on.
pub fn store_pass(
    arena: &mut [u8],
    g: Settings,
    plan: &[u8],
    list: &[u8],
    from: Walk,
    mode: CacheMode,
    when: Now,
) -> u64
    requires { Arena g arena.old × Begins plan.now list.now from }
    ensures { StorePass g when.epoch plan.now list.now from mode when.clock arena.old arena.new result }
{
    if plan.len() < 4096 {
        let mut none = [0u64; 0];
        return store_each(arena, g, plan, list, from, mode, when, &mut none);
    }
    store_filtered(arena, g, plan, list, from, mode, when)
}
