// The counts of hits, misses and invalidated entries: they wrap at 64 bits (specs/Counts.antt). After statistics.rs, whose atomics are here a state that goes
// in and comes back, and a record that the caller lends: an increase of a lent record is thin over the one by value.
#![tactic(auto)]

ghost use Rattle.std.specs.Prelude.{◌≡◌};
ghost use Rattle.statistics.specs.Counts.{more_hit, more_miss, more_invalidate, more_of, more, reading};

// The counts as they are kept.
// Kept: two structs of the same fields, for the C interface: this one is the record that a caller lends, `CacheStatistics` what `redis_cache_counts` returns.
// redis-rs has both, too.
#[repr(C)]
#[derive(Clone, Copy, PartialEq, Eq, Debug)]
pub struct Statistics {
    pub hit: u64,
    pub miss: u64,
    pub invalidate: u64,
}

// The counts as they are read.
#[repr(C)]
#[derive(Clone, Copy, PartialEq, Eq, Debug)]
pub struct CacheStatistics {
    pub hit: u64,
    pub miss: u64,
    pub invalidate: u64,
}

impl Statistics {
    pub fn increase_hit(self, val: u64) -> Statistics
        ensures { result ≡ more_hit self val }
    {
        Statistics {
            hit: std::num::wrapping_add_u64(self.hit, val),
            miss: self.miss,
            invalidate: self.invalidate,
        }
    }

    pub fn increase_miss(self, val: u64) -> Statistics
        ensures { result ≡ more_miss self val }
    {
        Statistics {
            hit: self.hit,
            miss: std::num::wrapping_add_u64(self.miss, val),
            invalidate: self.invalidate,
        }
    }

    pub fn increase_invalidate(self, val: u64) -> Statistics
        ensures { result ≡ more_invalidate self val }
    {
        Statistics {
            hit: self.hit,
            miss: self.miss,
            invalidate: std::num::wrapping_add_u64(self.invalidate, val),
        }
    }

    // So many more of each.
    pub fn increase_each(self, hits: u64, misses: u64, invalidates: u64) -> Statistics
        ensures { result ≡ more_of self hits misses invalidates }
    {
        self.increase_hit(hits)
            .increase_miss(misses)
            .increase_invalidate(invalidates)
    }
}

// The counts at this moment.
impl From<Statistics> for CacheStatistics {
    ghost from_gives = { λ counts shown. shown ≡ reading counts };

    fn from(value: Statistics) -> CacheStatistics {
        CacheStatistics {
            hit: value.hit,
            miss: value.miss,
            invalidate: value.invalidate,
        }
    }
}

// So many more hits in the record that is lent.
// Kept: functions by value and thin ones over the lent record are a rule of the project (docs/DECISIONS.md); so are the two below.
pub fn increase_hit(counts: &mut Statistics, val: u64)
    ensures { counts.new ≡ more_hit counts.old val }
{
    *counts = Statistics::increase_hit(*counts, val);
}

// So many more misses in the record that is lent.
pub fn increase_miss(counts: &mut Statistics, val: u64)
    ensures { counts.new ≡ more_miss counts.old val }
{
    *counts = Statistics::increase_miss(*counts, val);
}

// So many more invalidated entries in the record that is lent.
pub fn increase_invalidate(counts: &mut Statistics, val: u64)
    ensures { counts.new ≡ more_invalidate counts.old val }
{
    *counts = Statistics::increase_invalidate(*counts, val);
}

// So many more of each in the record that is lent.
pub fn increase(counts: &mut Statistics, val: Statistics)
    ensures { counts.new ≡ more counts.old val }
{
    increase_hit(counts, val.hit);
    increase_miss(counts, val.miss);
    increase_invalidate(counts, val.invalidate);
}
