// Whether bytes are an image of the arena: the test behind cause 9, of every call that is lent an arena. It goes over each byte once, and over heads
// and keys once more where several stand in a row; of many keys only those are compared that share a mark.
#![tactic(auto)]

ghost use Rattle.std.specs.Prelude.{◌≡◌, ℕ, ◌+◌, ◌*◌, ◌-◌, ◌%◌, ◌^◌, ◌≤◌, ◌<◌, true, false, length};
ghost use Rattle.std.proofs.Common.{arith};
ghost use Rattle.buffer.specs.Field.{read32};
ghost use Rattle.buffer.specs.Part.{part};
ghost use Rattle.buffer.specs.Same.{Bytes, same};
ghost use Rattle.resp3.specs.Ends.{is_value};
ghost use Rattle.arena_check.specs.Walk.{nth, before};
ghost use Rattle.siphash.specs.Sip.{sip_hash13};
ghost use Rattle.arena.specs.Decode.{is_image};
ghost use Rattle.arena.specs.SetupOf.{setup_of};
ghost use Rattle.arena_check.specs.Home.{home_in, mixed, marked_by, mark_of};
ghost use Rattle.arena_check.specs.Chain.{Stand, keys_from, Among, Answers, Latest, Chains, Linked, Tables, Chained};
ghost use Rattle.arena_check.specs.Check.{key_in, next_in, key_at, item_next, item_within, entry_ok, entries_end, item_ok, items_end, shard_ok};

// Whether two ranges of n bytes differ in their last eight: few keys that share a mark are then compared in full. False where they have no eight bytes.
fn other_tails(s: &[u8], a: usize, b: usize, n: usize) -> bool
    requires { (a + n ≤ length s.now) × (b + n ≤ length s.now) }
    ensures { result ≡ true → same (part s.now a n) (part s.now b n) ≡ false }
{
    if n < 8 {
        return false;
    }
    buffer::read_u64(s, a + (n - 8)) != buffer::read_u64(s, b + (n - 8))
}

// Whether two ranges of s have the same bytes.
// Kept: not `==` alone, since keys that share a mark mostly differ at their end, which is looked at first.
fn same_part(s: &[u8], a: usize, n: usize, b: usize, m: usize) -> bool
    requires { (a + n ≤ length s.now) × (b + m ≤ length s.now) }
    ensures { result ≡ same (part s.now a n) (part s.now b m) }
{
    if n != m {
        return false;
    }
    if other_tails(s, a, b, n) {
        return false;
    }
    let e = a + n;
    let d = b + m;
    buffer::same(&s[a..e], &s[b..d])
}

// What stands one after the other: a thing has a head of HEAD bytes, its key's length at the head's start and the length of what follows its key at REST.
trait Thing {
    const HEAD: usize;

    const REST: usize;

    ghost HEAD: { ℕ };

    ghost REST: { ℕ };

    // Both lengths are in the head, and that of the key comes first.
    ghost in_head: { (4 ≤ HEAD) × (REST + 4 ≤ HEAD) };
}

// An entry, under its command key.
struct Entry;

impl Thing for Entry {
    const HEAD: usize = 16;

    const REST: usize = 4;

    ghost HEAD = { 16 };

    ghost REST = { 4 };

    ghost in_head = { (omega arith, omega arith) };
}

// An item, under its key.
struct Item;

impl Thing for Item {
    const HEAD: usize = 32;

    const REST: usize = 24;

    ghost HEAD = { 32 };

    ghost REST = { 24 };

    ghost in_head = { (omega arith, omega arith) };
}

// Where the thing at p ends.
fn next_place<T: Thing>(s: &[u8], p: usize) -> usize
    requires { (next_in T.HEAD T.REST s.now p ≤ length s.now) × (length s.now < 2 ^ 32) }
    ensures { result ≡ next_in T.HEAD T.REST s.now p }
{
    let key = buffer::read_u32(s, p) as usize;
    let rest = buffer::read_u32(s, p + T::REST) as usize;
    p + T::HEAD + key + rest
}

// Whether one of the n things from `from` on has the key of the thing at `at`.
fn key_before<T: Thing>(s: &[u8], n: usize, from: usize, at: usize) -> bool
    requires { ((k : ℕ) → k < n → next_in T.HEAD T.REST s.now (nth (next_in T.HEAD T.REST s.now) k from) ≤ length s.now)
        × (next_in T.HEAD T.REST s.now at ≤ length s.now) × (length s.now < 2 ^ 32) }
    ensures { result ≡ before (key_in T.HEAD s.now) (next_in T.HEAD T.REST s.now) n from at }
{
    let key = at + T::HEAD;
    let len = buffer::read_u32(s, at) as usize;
    let mut p = from;
    for _ in 0..n {
        let m = buffer::read_u32(s, p) as usize;
        if same_part(s, p + T::HEAD, m, key, len) {
            return true;
        }
        p = p + T::HEAD + m + buffer::read_u32(s, p + T::REST) as usize;
    }
    false
}

// Whether no two of the n things from `first` on have the same key, where they are few: each is compared with all before it.
fn few_distinct<T: Thing>(s: &[u8], n: usize, first: usize) -> bool
    requires { Stand T.HEAD T.REST s.now n first }
    ensures { Answers (keys_from T.HEAD T.REST s.now first) result n n }
{
    let mut at = first;
    for i in 0..n {
        if key_before::<T>(s, i, first, at) {
            return false;
        }
        at = next_place::<T>(s, at);
    }
    true
}

// The hash of the key of the thing at `at`.
fn key_hash<T: Thing>(s: &[u8], at: usize) -> u64
    requires { (at + T.HEAD + read32 s.now at ≤ length s.now) × (length s.now < 2 ^ 32) }
    ensures { result ≡ sip_hash13 (key_in T.HEAD s.now at) }
{
    let from = at + T::HEAD;
    let to = from + buffer::read_u32(s, at) as usize;
    siphash::sip_hash_13(&s[from..to])
}

// A word of a key goes into a number below 2^32.
fn mixed(x: u64, w: u64) -> u64
    requires { x < 2 ^ 32 }
    ensures { (result ≡ mixed x w) × (result < 2 ^ 32) }
{
    let low = w % 4294967296;
    let high = w / 4294967296;
    ((x + low) * 668265263 + high * 1540483477) / 16777216 % 4294967296
}

// What a key's mark is made of. Keys of 8 to 32 bytes, as most are, go in by two or four words that hold all their bytes; others by their hash.
pub fn marked_by(key: &[u8]) -> u64
    ensures { result ≡ marked_by key.now }
{
    let n = key.len();
    if n < 8 {
        return siphash::sip_hash_13(key);
    }
    if 32 < n {
        return siphash::sip_hash_13(key);
    }
    let ends = mixed(
        mixed(n as u64, buffer::read_u64(key, 0)),
        buffer::read_u64(key, n - 8),
    );
    if n <= 16 {
        return ends;
    }
    mixed(
        mixed(ends, buffer::read_u64(key, 8)),
        buffer::read_u64(key, n - 16),
    )
}

// The mark of the key of the thing at `at`, at most `top`: things with the same key have the same.
fn mark_at<T: Thing>(s: &[u8], top: usize, at: usize) -> usize
    requires { (at + T.HEAD + read32 s.now at ≤ length s.now) × (length s.now < 2 ^ 32) }
    ensures { (result ≡ mark_of top (key_in T.HEAD s.now at)) × (result ≤ top) }
{
    let from = at + T::HEAD;
    let to = from + buffer::read_u32(s, at) as usize;
    (marked_by(&s[from..to]) / 65536) as usize & top
}

// Whether a thing of a chain has the key of the one at `at`. Things are numbered from 1 on; `place` has where each stands and `prev` the number of
// the one before it that has its mark, 0 for none; `last` is the number of the last one with the mark of the thing at `at`. How marks are made does not matter.
fn in_chain<T: Thing>(s: &[u8], place: &[u32], prev: &[u16], last: usize, at: usize) -> bool
    requires { Linked T.HEAD s.now place.now prev.now last × (at + T.HEAD + read32 s.now at ≤ length s.now) × (length s.now < 2 ^ 32) }
    ensures { (mark : Bytes → ℕ) (key : ℕ → Bytes) (k : ℕ) → Chains mark key (key_in T.HEAD s.now) place.now prev.now k
        → Latest mark key (mark (key_in T.HEAD s.now at)) last k → Among key result k (key_in T.HEAD s.now at) }
{
    let key = at + T::HEAD;
    let len = buffer::read_u32(s, at) as usize;
    let mut c = last;
    // Kept: no count: the thing before is the one that `prev` names.
    while 0 < c {
        let p = place[c - 1] as usize;
        let m = buffer::read_u32(s, p) as usize;
        if same_part(s, p + T::HEAD, m, key, len) {
            return true;
        }
        c = prev[c - 1] as usize;
    }
    false
}

// Where the first m of n things from `first` on end; none where two things have the same key, one of them among the first m. Each is compared with those
// of the first m before it that share its mark, of marks up to `top`. It is lent the tables of the chains: for each mark the number of the latest thing that
// has it, all 0 at first, and what `in_chain` follows.
// Kept: three tables and none of structs, since a link and a place side by side would be padded from six bytes to eight: a third more memory to clear, of a
// check that every call makes.
fn chained<T: Thing>(
    s: &[u8],
    top: usize,
    m: usize,
    n: usize,
    first: usize,
    last: &mut [u16],
    prev: &mut [u16],
    place: &mut [u32],
) -> Option<usize>
    requires { Stand T.HEAD T.REST s.now n first × (m ≤ n) × (m ≤ 4096) × Tables top m last.old prev.old place.old }
    ensures { Chained T.HEAD T.REST s.now first m n result }
{
    let mut at = first;
    let mut end = first;
    for i in 0..n {
        let mark = mark_at::<T>(s, top, at);
        let c = last[mark];
        if in_chain::<T>(s, place, prev, c as usize, at) {
            return None;
        }
        let from = at;
        at = next_place::<T>(s, from);
        if m <= i {
            continue;
        }
        place[i] = from as u32;
        prev[i] = c;
        last[mark] = (i + 1) as u16;
        end = at;
    }
    Some(end)
}

// So for at most THINGS of n, with MARKS marks, and the tables for them. Few things have few marks: small tables are soon cleared. Many have many: then few
// share one, and a thing far off is seldom read again. Not inlined, so that the tables stand on the stack only while keys are compared.
#[inline(never)]
fn block<T: Thing, const MARKS: usize, const THINGS: usize>(
    s: &[u8],
    m: usize,
    n: usize,
    first: usize,
) -> Option<usize>
    requires { Stand T.HEAD T.REST s.now n first × (m ≤ n) × (m ≤ THINGS) × (THINGS ≤ 4096) × (0 < MARKS) × (MARKS < 2 ^ 32) }
    ensures { Chained T.HEAD T.REST s.now first m n result }
{
    let mut last = [0u16; MARKS];
    let mut prev = [0u16; THINGS];
    let mut place = [0u32; THINGS];
    chained::<T>(s, MARKS - 1, m, n, first, &mut last, &mut prev, &mut place)
}

// Whether no two of the n things from `first` on have the same key: few are compared pairwise, more are chained, with as many marks as they ask for, and
// beyond 4,096 they are taken in blocks.
fn many_distinct<T: Thing>(s: &[u8], n: usize, first: usize) -> bool
    requires { Stand T.HEAD T.REST s.now n first }
    ensures { Answers (keys_from T.HEAD T.REST s.now first) result n n }
{
    if n < 8 {
        return few_distinct::<T>(s, n, first);
    }
    if n <= 64 {
        return block::<T, 256, 64>(s, n, n, first).is_some();
    }
    if n <= 512 {
        return block::<T, 2048, 512>(s, n, n, first).is_some();
    }
    let mut at = first;
    let mut left = n;
    // Kept: no chunks of a slice: where the next block begins is what the last one's check found.
    while 0 < left {
        let m = left.min(4096);
        let Some(next) = block::<T, 8192, 4096>(s, m, left, at) else {
            return false;
        };
        at = next;
        left -= m;
    }
    true
}

// The same. Most items have one entry, and one thing is not walked.
fn distinct<T: Thing>(s: &[u8], n: usize, first: usize) -> bool
    requires { Stand T.HEAD T.REST s.now n first }
    ensures { Answers (keys_from T.HEAD T.REST s.now first) result n n }
{
    if n <= 1 {
        return true;
    }
    many_distinct::<T>(s, n, first)
}

// Whether an entry stands at `at`, within `end`.
fn entry_ok(s: &[u8], end: usize, at: usize) -> bool
    requires { (at ≤ end) × (end ≤ length s.now) × (length s.now < 2 ^ 32) }
    ensures { result ≡ entry_ok is_value s.now end at }
{
    if end - at < 16 {
        return false;
    }
    let c = buffer::read_u32(s, at) as usize;
    let v = buffer::read_u32(s, at + 4) as usize;
    let from = at + 16 + c;
    let next = from + v;
    if next > end {
        return false;
    }
    if buffer::read_u64(s, at + 8) != 0 {
        return false;
    }
    if c > config::MAX_COMMAND_KEY {
        return false;
    }
    resp3::value_in(s, from, next)
}

// Where n entries end that stand from `first` on, within `end`; none where they do not, or a command key is there twice.
fn entries_end(s: &[u8], end: usize, n: usize, first: usize) -> Option<usize>
    requires { (first ≤ end) × (end ≤ length s.now) × (length s.now < 2 ^ 32) }
    ensures { result ≡ entries_end is_value s.now end n first }
{
    let mut at = first;
    for _ in 0..n {
        if !entry_ok(s, end, at) {
            return None;
        }
        at = next_place::<Entry>(s, at);
    }
    if !distinct::<Entry>(s, n, first) {
        return None;
    }
    Some(at)
}

// Whether the item at `at` is within `end`, by its lengths.
fn item_within(s: &[u8], end: usize, at: usize) -> bool
    requires { (at ≤ end) × (end ≤ length s.now) × (length s.now < 2 ^ 32) }
    ensures { result ≡ item_within s.now end at }
{
    if end - at < 32 {
        return false;
    }
    let k = buffer::read_u32(s, at) as usize;
    let e = buffer::read_u32(s, at + 24) as usize;
    at + 32 + k + e <= end
}

// The number of the shard of a key with that hash. There are mostly 32 shards, and then no division is needed.
fn home_of(hash: u64, shards: usize) -> usize
    requires { 0 < shards }
    ensures { result ≡ hash % shards }
{
    if shards == 32 {
        return hash as usize % 32;
    }
    hash as usize % shards
}

// Whether an item of that shard stands at `at`, within `end`; its lengths are, and its key's hash is given.
fn item_ok(s: &[u8], shards: usize, shard: usize, end: usize, at: usize, hash: u64) -> bool
    requires { (at + 32 ≤ end) × (item_next s.now at ≤ end) × (end ≤ length s.now) × (length s.now < 2 ^ 32)
        × (hash ≡ sip_hash13 (key_at s.now at)) × (0 < shards) }
    ensures { result ≡ item_ok is_value (home_in shards) s.now shard end at }
{
    if buffer::read_u32(s, at + 28) != 0 {
        return false;
    }
    let k = buffer::read_u32(s, at) as usize;
    if k > config::MAX_KEY {
        return false;
    }
    if home_of(hash, shards) != shard {
        return false;
    }
    let n = buffer::read_u32(s, at + 4) as usize;
    if n < 1 {
        return false;
    }
    let next = next_place::<Item>(s, at);
    entries_end(s, next, n, at + 32 + k) == Some(next)
}

// Where n items of that shard end that stand from byte 16 on, within `end`; none where they do not, or a key is there twice. A shard with one item or none
// is not asked for that.
fn items_end(s: &[u8], shards: usize, shard: usize, end: usize, n: usize) -> Option<usize>
    requires { (16 ≤ end) × (end ≤ length s.now) × (length s.now < 2 ^ 32) × (0 < shards) }
    ensures { result ≡ items_end is_value (home_in shards) s.now shard end n }
{
    let mut at = 16;
    for _ in 0..n {
        if !item_within(s, end, at) {
            return None;
        }
        let hash = key_hash::<Item>(s, at);
        if !item_ok(s, shards, shard, end, at, hash) {
            return None;
        }
        at = next_place::<Item>(s, at);
    }
    if n < 2 {
        return Some(at);
    }
    if !many_distinct::<Item>(s, n, 16) {
        return None;
    }
    Some(at)
}

// Whether the bytes are those of the shard of that number, which holds so many keys.
fn shard_ok(s: &[u8], shards: usize, shard: usize, keys: usize) -> bool
    requires { (16 ≤ length s.now) × (length s.now < 2 ^ 32) × (0 < shards) }
    ensures { result ≡ shard_ok is_value (home_in shards) keys s.now shard }
{
    let n = buffer::read_u32(s, 0) as usize;
    if n > keys {
        return false;
    }
    let end = 16 + buffer::read_u32(s, 4) as usize;
    if end > s.len() {
        return false;
    }
    if buffer::read_u64(s, 8) != 0 {
        return false;
    }
    if !buffer::all_zero(s, end, s.len()) {
        return false;
    }
    items_end(s, shards, shard, end, n) == Some(end)
}

// Whether the bytes are an image of the arena, for so many shards of so many keys and bytes each.
pub fn is_image(arena: &[u8], shards: usize, keys: usize, bytes: usize) -> bool
    requires { (0 < shards) × (16 ≤ bytes) × (bytes < 2 ^ 32) × (shards * bytes ≤ length arena.now) }
    ensures { result ≡ is_image is_value (setup_of sip_hash13 shards keys bytes) arena.now }
{
    let all = shards * bytes;
    if !buffer::all_zero(arena, all, arena.len()) {
        return false;
    }
    for i in (0..shards).rev() {
        let from = i * bytes;
        let to = from + bytes;
        if !shard_ok(&arena[from..to], shards, i, keys) {
            return false;
        }
    }
    true
}
