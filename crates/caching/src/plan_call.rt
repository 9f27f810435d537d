// Planning through C linkage, thin over `cache_manager::get_cached_pipeline`. include/redis_cache.h says what each parameter means. Assumes nothing of the
// caller.
ghost use Rattle.std.specs.Prelude.{◌≡◌, ℕ};
ghost use Rattle.book.specs.Counted.{Counted};
ghost use Rattle.statistics.specs.OfBook.{counts_of};
ghost use Rattle.cache_manager.specs.Pipeline.{returned_of};
ghost use Rattle.caching.specs.Planned.{offset_of, refused_return, plan_return, plan_by, PlanLeft};

use crate::{counted, none_yet};
use cache_manager::Written;
use config::{CacheConfig, Cause, Now};
use statistics::Statistics;

// What planning returns: the number of the cause that refuses it, or 0; cause 2's offset; how many bytes of the plan buffer and of the send buffer are
// written; the response counts.
#[repr(C)]
#[derive(Clone, Copy)]
pub struct RedisCachePlan {
    pub cause: u64,
    pub at: u64,
    pub plan: u64,
    pub send: u64,
    pub offset: u64,
    pub count: u64,
}

// What a planning comes to: what is returned, and what it adds to the counts.
#[derive(Clone, Copy)]
pub struct PlanAdded {
    pub answer: RedisCachePlan,
    pub adds: Statistics,
}

// A refusal: its number, and the offset where there is one.
fn refusal(cause: u64, at: u64) -> RedisCachePlan
    ensures { result ≡ refused_return cause at }
{
    RedisCachePlan {
        cause,
        at,
        plan: 0,
        send: 0,
        offset: 0,
        count: 0,
    }
}

// Where a call record is wrong.
fn offset_of(cause: Cause) -> u64
    ensures { result ≡ offset_of cause }
{
    match cause {
        Cause::BadRecord(at) => at as u64,
        _ => 0,
    }
}

fn plan_return(answer: Result<Written, Cause>) -> RedisCachePlan
    ensures { result ≡ plan_return (returned_of answer) }
{
    match answer {
        Ok(w) => RedisCachePlan {
            cause: single_calls::NO_CAUSE,
            at: 0,
            plan: w.plan as u64,
            send: w.send as u64,
            offset: w.offset as u64,
            count: w.count as u64,
        },
        Err(cause) => refusal(u64::from(cause), offset_of(cause)),
    }
}

// Looks the record's commands up, writes the plan and what is to be sent, and tells what that adds to the counts.
fn plan_counting(
    arena: &mut [u8],
    cache_config: CacheConfig,
    when: Now,
    bytes: &[u8],
    plan: &mut [u8],
    send: &mut [u8],
) -> PlanAdded
    ensures { (was : Statistics) (next : ℕ) → Counted (counts_of was) →
        PlanLeft (plan_by cache_config.size cache_config.mode cache_config.ttl when.clock when.epoch bytes.now plan.old send.old
        arena.old (counts_of was) next) arena.new plan.new send.new was result }
{
    let none = none_yet();
    let r = cache_manager::get_cached_pipeline(arena, cache_config, when, bytes, plan, send, none);
    let answer = r.answer;
    let adds = r.counts;
    PlanAdded {
        answer: plan_return(answer),
        adds,
    }
}

// Looks the record's commands up, and writes the plan and what is to be sent.
#[unsafe(no_mangle)]
pub extern "C" fn redis_cache_plan(
    arena: &mut [u8],
    size: u64,
    mode: u64,
    ttl: u64,
    clock: u64,
    epoch: u64,
    bytes: &[u8],
    counts: &mut Statistics,
    plan: &mut [u8],
    send: &mut [u8],
) -> RedisCachePlan
    ensures answer { (next : ℕ) →
        result ≡ plan_return (plan_by size mode ttl clock epoch bytes.now plan.old send.old
        arena.old (counts_of counts.old) next).returned }
    ensures arena { (next : ℕ) →
        arena.new ≡ (plan_by size mode ttl clock epoch bytes.now plan.old send.old
        arena.old (counts_of counts.old) next).held.arena }
    ensures counts { (next : ℕ) →
        counts_of counts.new ≡ (plan_by size mode ttl clock epoch bytes.now plan.old send.old
        arena.old (counts_of counts.old) next).held.counts }
    ensures plan { (next : ℕ) →
        plan.new ≡ (plan_by size mode ttl clock epoch bytes.now plan.old send.old
        arena.old (counts_of counts.old) next).plan }
    ensures send { (next : ℕ) →
        send.new ≡ (plan_by size mode ttl clock epoch bytes.now plan.old send.old
        arena.old (counts_of counts.old) next).send }
{
    counted(*counts);
    let cache_config = CacheConfig { size, mode, ttl };
    let when = Now { clock, epoch };
    let r = plan_counting(arena, cache_config, when, bytes, plan, send);
    statistics::increase(counts, r.adds);
    r.answer
}
