// Where the first value of bytes received so far ends, through C linkage, thin over `resp3_prefix::first_value`. include/redis_cache.h says what comes out.
// Assumes nothing of the caller.
ghost use Rattle.std.specs.Prelude.{◌≡◌};
ghost use Rattle.resp3_prefix.specs.Begun.{first_value};
ghost use Rattle.caching.specs.ValueEnd.{value_end_return};

use resp3_prefix::NotWhole;

// The verdict: 0 complete, and its length; 1 more bytes are needed, and how many at least; 2 no value begins so.
#[repr(C)]
#[derive(Clone, Copy)]
pub struct RedisCacheValueEnd {
    pub verdict: u64,
    pub bytes: u64,
}

fn value_end_return(x: Result<usize, NotWhole>) -> RedisCacheValueEnd
    ensures { result ≡ value_end_return x }
{
    match x {
        Ok(e) => RedisCacheValueEnd {
            verdict: 0,
            bytes: e as u64,
        },
        Err(NotWhole::Lacks(k)) => RedisCacheValueEnd {
            verdict: 1,
            bytes: k as u64,
        },
        Err(NotWhole::Never) => RedisCacheValueEnd {
            verdict: 2,
            bytes: 0,
        },
    }
}

// How far the first value stands in the bytes, of at most 16 MiB and 16 levels.
#[unsafe(no_mangle)]
pub extern "C" fn redis_cache_value_end(received: &[u8]) -> RedisCacheValueEnd
    ensures { result ≡ value_end_return (first_value received.now) }
{
    value_end_return(resp3_prefix::first_value(received))
}
