// A new epoch through C linkage. include/redis_cache.h says what the parameter means. Assumes nothing of the caller, and nothing refuses the call.
ghost use Rattle.std.specs.Prelude.{◌≡◌, ◌+◌};
ghost use Rattle.config.specs.Wrap.{wrap};
ghost use Rattle.caching.specs.Epoch.{epoch_by};

// What a new epoch returns: the number that it takes, and the next epoch number.
#[repr(C)]
#[derive(Clone, Copy)]
pub struct RedisCacheEpoch {
    pub epoch: u64,
    pub next: u64,
}

// What the next number becomes when it is taken. After `ShardedLRU::increase_epoch`, whose atomic counter is here a number that goes in and comes back.
fn increase_epoch(next: u64) -> u64
    ensures { result ≡ wrap (next + 1) }
{
    std::num::wrapping_add_u64(next, 1)
}

// Takes the next epoch number.
#[unsafe(no_mangle)]
pub extern "C" fn redis_cache_new_epoch(next: u64) -> RedisCacheEpoch
    ensures { result ≡ epoch_by next }
{
    let after = increase_epoch(next);
    RedisCacheEpoch {
        epoch: next,
        next: after,
    }
}
