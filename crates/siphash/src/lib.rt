// SipHash-1-3 with both key words zero, over the bytes of a slice (specs/Sip.antt), and a key's shard (specs/Shard.antt). This is what
// Rust's `DefaultHasher` answers where the bytes are written to it, as `get_shard` of sharded_lru.rs does.
#![tactic(auto)]

ghost use Rattle.std.specs.Prelude.{◌≡◌, ◌<◌};
ghost use Rattle.siphash.specs.Sip.{sip_round, initial, compressed, last_word, finished, sip_hash13};
ghost use Rattle.siphash.specs.Shard.{shard_of};

// The four words of the hash's state.
#[derive(Clone, Copy, Drop)]
struct Sip {
    v0: u64,
    v1: u64,
    v2: u64,
    v3: u64,
}

impl Sip {
    // The state before the first word: the paper's four constants, since the key words are zero.
    #[tactic(auto, unfolding(crate::specs::Sip::initial))]
    fn new() -> Sip
        ensures { result ≡ initial 0 0 }
    {
        Sip {
            v0: 8317987319222330741,
            v1: 7237128888997146477,
            v2: 7816392313619706465,
            v3: 8387220255154660723,
        }
    }

    #[tactic(auto, unfolding(crate::specs::Sip::sip_round, crate::specs::Sip::rotated))]
    fn sip_round(self) -> Sip
        ensures { result ≡ sip_round self }
    {
        let a0 = self.v0.wrapping_add(self.v1);
        let a2 = self.v2.wrapping_add(self.v3);
        let a1 = self.v1.rotate_left(13) ^ a0;
        let a3 = self.v3.rotate_left(16) ^ a2;
        let b2 = a2.wrapping_add(a1);
        let b0 = a0.rotate_left(32).wrapping_add(a3);
        let b1 = a1.rotate_left(17) ^ b2;
        let b3 = a3.rotate_left(21) ^ b0;
        Sip {
            v0: b0,
            v1: b1,
            v2: b2.rotate_left(32),
            v3: b3,
        }
    }

    // One word of the message goes in, by one round.
    #[tactic(auto, unfolding(crate::specs::Sip::compressed, crate::specs::Sip::rounds))]
    fn compress(self, m: u64) -> Sip
        ensures { result ≡ compressed 1 self m }
    {
        let s = Sip {
            v3: self.v3 ^ m,
            ..self
        };
        let t = s.sip_round();
        Sip { v0: t.v0 ^ m, ..t }
    }

    // The hash, by three rounds.
    #[tactic(auto, unfolding(crate::specs::Sip::finished, crate::specs::Sip::rounds))]
    fn finish(self) -> u64
        ensures { result ≡ finished 3 self }
    {
        let s = Sip {
            v2: self.v2 ^ 255,
            ..self
        };
        let t = s.sip_round().sip_round().sip_round();
        t.v0 ^ t.v1 ^ t.v2 ^ t.v3
    }
}

// The bytes behind the whole words, from the last one down, and the length's lowest byte above them.
fn last_word(key: &[u8]) -> u64
    ensures { result ≡ last_word key.now }
{
    let (_, rest) = key.as_chunks::<8>();
    let low = rest
        .iter()
        .rev()
        .fold(0, |word, byte| word << 8 | u64::from(*byte));
    low + (key.len() % 256) as u64 * 72057594037927936
}

// The hash of a key's bytes.
pub fn sip_hash_13(key: &[u8]) -> u64
    ensures { result ≡ sip_hash13 key.now }
{
    let (words, _) = key.as_chunks::<8>();
    let mut s = Sip::new();
    for word in words {
        s = s.compress(u64::from_le_bytes(*word));
    }
    s.compress(last_word(key)).finish()
}

// The number of the shard that a key belongs to, of that many.
pub fn shard_of(key: &[u8], shards: usize) -> usize
    requires { 0 < shards }
    ensures { result ≡ shard_of key.now shards }
{
    sip_hash_13(key) as usize % shards
}
