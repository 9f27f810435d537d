// Resolving through C linkage, thin over `caching_cmd::resolve`. include/redis_cache.h says what each parameter means. Assumes nothing of the caller.
ghost use Rattle.std.specs.Prelude.{◌≡◌, ℕ};
ghost use Rattle.book.specs.Book.{Counts};
ghost use Rattle.caching.specs.Resolved.{resolve_return, answer_return, resolve_by};

use caching_cmd::Answered;
use config::{CacheConfig, Cause, Now};

// What resolving returns: the number of the cause that refuses it, or 0; how many bytes of the answer buffer are the result; how many stores were
// refused as 11.
#[repr(C)]
#[derive(Clone, Copy)]
pub struct RedisCacheResolve {
    pub cause: u64,
    pub answer: u64,
    pub refused: u64,
}

fn resolve_return(answer: Result<Answered, Cause>) -> RedisCacheResolve
    ensures { result ≡ answer_return answer }
{
    match answer {
        Ok(a) => RedisCacheResolve {
            cause: single_calls::NO_CAUSE,
            answer: a.written as u64,
            refused: a.refused,
        },
        Err(cause) => RedisCacheResolve {
            cause: u64::from(cause),
            answer: 0,
            refused: 0,
        },
    }
}

// Makes the result of a plan and the replies to what was sent, and stores what was fetched.
#[unsafe(no_mangle)]
pub extern "C" fn redis_cache_resolve<'a>(
    arena: &mut [u8],
    size: u64,
    mode: u64,
    ttl: u64,
    clock: u64,
    epoch: u64,
    plan: &'a [u8],
    replies: &'a [u8],
    answer: &mut [u8],
) -> RedisCacheResolve
    ensures answer { (lent : Counts) (next : ℕ) →
        result ≡ resolve_return (resolve_by size mode ttl clock epoch plan.now replies.now answer.old
        arena.old lent next) }
    ensures arena { (lent : Counts) (next : ℕ) →
        arena.new ≡ (resolve_by size mode ttl clock epoch plan.now replies.now answer.old
        arena.old lent next).held.arena }
    ensures buffer { (lent : Counts) (next : ℕ) →
        answer.new ≡ (resolve_by size mode ttl clock epoch plan.now replies.now answer.old
        arena.old lent next).buffer }
{
    let when = Now { clock, epoch };
    let cache_config = CacheConfig { size, mode, ttl };
    resolve_return(caching_cmd::resolve(arena, cache_config, plan, replies, when, answer))
}
