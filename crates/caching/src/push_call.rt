// A push through C linkage, thin over `push::handle_push`. include/redis_cache.h says what each parameter means. Assumes nothing of the caller.
ghost use Rattle.std.specs.Prelude.{◌≡◌, ℕ};
ghost use Rattle.book.specs.Counted.{Counted};
ghost use Rattle.statistics.specs.OfBook.{counts_of};
ghost use Rattle.caching.specs.Added.{AddedLeft};
ghost use Rattle.caching.specs.Pushed.{push_by};

use crate::{Added, comes_to, counted, none_yet};
use config::CacheConfig;
use statistics::Statistics;

// Does what a push asks for, and tells what that adds to the counts.
fn push_counting(arena: &mut [u8], cache_config: CacheConfig, bytes: &[u8]) -> Added
    ensures { (was : Statistics) (next : ℕ) → Counted (counts_of was) →
        AddedLeft (push_by cache_config.size cache_config.mode cache_config.ttl bytes.now arena.old (counts_of was) next) arena.new was result }
{
    comes_to(push::handle_push(arena, cache_config, bytes, none_yet()))
}

// Does what a push asks for.
#[unsafe(no_mangle)]
pub extern "C" fn redis_cache_push(
    arena: &mut [u8],
    size: u64,
    mode: u64,
    ttl: u64,
    bytes: &[u8],
    counts: &mut Statistics,
) -> u64
    ensures answer { (next : ℕ) → result ≡ (push_by size mode ttl bytes.now arena.old (counts_of counts.old) next).cause }
    ensures arena { (next : ℕ) →
        arena.new ≡ (push_by size mode ttl bytes.now arena.old (counts_of counts.old) next).held.arena }
    ensures counts { (next : ℕ) →
        counts_of counts.new ≡ (push_by size mode ttl bytes.now
        arena.old (counts_of counts.old) next).held.counts }
{
    counted(*counts);
    let r = push_counting(arena, CacheConfig { size, mode, ttl }, bytes);
    statistics::increase(counts, r.adds);
    r.cause
}
