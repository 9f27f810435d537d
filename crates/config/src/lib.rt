// The limits as specs/Limits.antt defines them, the causes with their numbers as specs/Causes.antt does, and the settings of a
// call: cause 1, the shards and what each has (specs/Config.antt). After config.rs and the sizes of sharded_lru.rs.
#![tactic(auto)]

ghost use Rattle.std.specs.Prelude.{◌≡◌};
ghost use Rattle.config.specs.Causes.{number};
ghost use Rattle.config.specs.Config.{shard_count, shard_size, shard_bytes, mode_of, checked};

// Keys of the whole cache: 1 to this many.
pub const MAX_SIZE: u64 = 65536;
// A mode's number.
pub const MAX_MODE: u64 = 1;
// Shards of a cache of that many keys or more.
pub const MAX_SHARD_COUNT: u64 = 32;
// Bytes of the arena.
pub const MAX_ARENA: usize = 2147483648;
// Arena bytes for each shard, at least.
pub const MIN_SHARD_BYTES: usize = 64;
// Commands of a call record.
pub const MAX_COMMANDS: usize = 1024;
// Arguments of a command.
pub const MAX_ARGUMENTS: usize = 1024;
// Bytes of an argument.
pub const MAX_ARGUMENT: usize = 65535;
// Bytes of a key.
pub const MAX_KEY: usize = 65535;
// Bytes of a call record, a value, a reply or a push: 16 MiB.
pub const MAX_BYTES: usize = 16777216;
// Bytes of a command key.
pub const MAX_COMMAND_KEY: usize = 16777216;
// Levels of a RESP3 value.
pub const MAX_DEPTH: usize = 16;

// Why a call is refused: the causes of docs/BEHAVIOUR.md, in the order of their numbers.
#[derive(Clone, Copy, PartialEq, Eq, Debug)]
pub enum Cause {
    // Settings or arena length out of bounds.
    BadConfig,
    // No call record: the first wrong offset.
    BadRecord(usize),
    // A record, key, command key or value over its limit.
    TooLong,
    // A client expiry that needs more than 64 bits.
    LateExpiry,
    // The plan or the send buffer of planning is too small.
    ShortBuffer,
    // Replies, push or value to store are not one RESP3 value.
    BadReply,
    // No list of replies, or no fitting reply for a command.
    BadShape,
    // The answer buffer of resolving is too small.
    ShortAnswer,
    // No arena.
    BadArena,
    // No plan.
    BadPlan,
    // No space for a store.
    NoSpace,
}

// The number that callers are told.
impl From<Cause> for u64 {
    ghost from_gives = { λ cause n. n ≡ number cause };

    fn from(cause: Cause) -> u64 {
        match cause {
            Cause::BadConfig => 1,
            Cause::BadRecord(_) => 2,
            Cause::TooLong => 3,
            Cause::LateExpiry => 4,
            Cause::ShortBuffer => 5,
            Cause::BadReply => 6,
            Cause::BadShape => 7,
            Cause::ShortAnswer => 8,
            Cause::BadArena => 9,
            Cause::BadPlan => 10,
            Cause::NoSpace => 11,
        }
    }
}

// Which commands are cached: every one that can be, or those alone that ask for it.
#[derive(Clone, Copy, PartialEq, Eq, Debug)]
pub enum CacheMode {
    All,
    OptIn,
}

// The mode that a number stands for.
impl From<u64> for CacheMode {
    ghost from_gives = { λ n mode. mode ≡ mode_of n };

    fn from(mode: u64) -> CacheMode {
        if mode == 0 {
            CacheMode::All
        } else {
            CacheMode::OptIn
        }
    }
}

// When a call is made: its clock (ms) and its epoch, as it was given them.
#[derive(Clone, Copy, PartialEq, Eq, Debug)]
pub struct Now {
    pub clock: u64,
    pub epoch: u64,
}

// A cache's size in keys, its mode's number and its default TTL in milliseconds, as a call is given them: cause 1's test comes after.
#[derive(Clone, Copy, PartialEq, Eq, Debug)]
pub struct CacheConfig {
    pub size: u64,
    pub mode: u64,
    pub ttl: u64,
}

// What a call works with, once cause 1 is ruled out.
#[derive(Clone, Copy, PartialEq, Eq, Debug)]
pub struct Settings {
    pub mode: CacheMode,
    // the default client TTL, in milliseconds
    pub ttl: u64,
    pub shards: usize,
    // of each shard
    pub keys: usize,
    // of each shard, its header among them
    pub bytes: usize,
}

// The number of shards for a size.
pub fn shard_count(size: u64) -> usize
    ensures { result ≡ shard_count size }
{
    if size < MAX_SHARD_COUNT {
        1
    } else {
        MAX_SHARD_COUNT as usize
    }
}

// The number of keys of each shard for a size.
pub fn shard_size(size: u64) -> usize
    ensures { result ≡ shard_size size }
{
    if size < MAX_SHARD_COUNT {
        size as usize
    } else {
        (size / MAX_SHARD_COUNT) as usize
    }
}

// The number of bytes of each shard for a size and an arena's length.
pub fn shard_bytes(size: u64, arena: usize) -> usize
    ensures { result ≡ shard_bytes size arena }
{
    arena / shard_count(size)
}

// Cause 1's test of what a call is given and of an arena's length, and what the call works with where it passes.
#[tactic(auto, unfolding(crate::specs::Config::checked, crate::specs::Config::refused, crate::specs::Config::settings_of))]
pub fn check_config(cache_config: CacheConfig, arena: usize) -> Result<Settings, Cause>
    ensures { result ≡ checked cache_config.size cache_config.mode cache_config.ttl arena }
{
    let size = cache_config.size;
    let shards = shard_count(size);
    if size < 1 {
        return Err(Cause::BadConfig);
    }
    if MAX_SIZE < size {
        return Err(Cause::BadConfig);
    }
    if MAX_MODE < cache_config.mode {
        return Err(Cause::BadConfig);
    }
    if MAX_ARENA < arena {
        return Err(Cause::BadConfig);
    }
    if arena < MIN_SHARD_BYTES * shards {
        return Err(Cause::BadConfig);
    }
    Ok(Settings {
        mode: CacheMode::from(cache_config.mode),
        ttl: cache_config.ttl,
        shards,
        keys: shard_size(size),
        bytes: shard_bytes(size, arena),
    })
}
