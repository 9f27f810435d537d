// A plan answered without arena and replies, through C linkage, thin over `served::served`. include/redis_cache.h says what each parameter means. Assumes
// nothing of the caller.
ghost use Rattle.std.specs.Prelude.{◌≡◌, length};
ghost use Rattle.served.specs.Served.{served_call, served_buffer};
ghost use Rattle.caching.specs.ServedAlone.{served_return};

use config::Cause;

// What it returns: the number of the cause that refuses it, or 0; how many bytes of the answer buffer are the result; 1 where some command needs
// replies, else 0.
#[repr(C)]
#[derive(Clone, Copy)]
pub struct RedisCacheServed {
    pub cause: u64,
    pub answer: u64,
    pub replies: u64,
}

fn served_return(answer: Result<Option<usize>, Cause>) -> RedisCacheServed
    ensures { result ≡ served_return answer }
{
    match answer {
        Ok(Some(written)) => RedisCacheServed {
            cause: single_calls::NO_CAUSE,
            answer: written as u64,
            replies: 0,
        },
        Ok(None) => RedisCacheServed {
            cause: single_calls::NO_CAUSE,
            answer: 0,
            replies: 1,
        },
        Err(cause) => RedisCacheServed {
            cause: u64::from(cause),
            answer: 0,
            replies: 0,
        },
    }
}

// Makes the result of a plan whose commands are all served.
#[unsafe(no_mangle)]
pub extern "C" fn redis_cache_served(plan: &[u8], answer: &mut [u8]) -> RedisCacheServed
    ensures answer { result ≡ served_return (served_call plan.now (length answer.old)) }
    ensures buffer { answer.new ≡ served_buffer plan.now answer.old }
{
    served_return(served::served(plan, answer))
}
