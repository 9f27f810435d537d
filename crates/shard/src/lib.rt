// The cache's operations in place, on the bytes of one shard: read an item's fields, find, touch, remove, invalidate.
//
// Every function is lent bytes that hold a row (specs/Holds.antt), as the entry points have checked; none tests that again. A contract speaks
// of the row that the bytes hold, or of the item that stands at the place given.
#![tactic(auto)]

ghost use Rattle.std.specs.Prelude.{◌≡◌, [], ◌∷◌, ◌++◌, true, false, length};
ghost use Rattle.buffer.specs.Field.{read32};
ghost use Rattle.buffer.specs.Same.{same};
ghost use Rattle.book.specs.Book.{Item, Row, find, without, entries_of, row_entries};
ghost use Rattle.arena.specs.Layout.{enc_shard};
ghost use Rattle.arena.specs.Edit.{item_bytes};
ghost use Rattle.shard.specs.Holds.{Holds, Shard, Stands, ItemAt};
ghost use Rattle.shard.specs.Position.{position_of};

// The bytes that the item at `at` takes.
pub fn item_len(s: &[u8], at: usize) -> usize
    requires { ItemAt s.now at }
    ensures { (front back : Row) (it : Item) → Stands s.now at front back it → result ≡ item_bytes it }
{
    let key = buffer::read_u32(s, at) as usize;
    let entries = buffer::read_u32(s, at + 24) as usize;
    32 + key + entries
}

// How many entries the item at `at` has.
pub fn entry_count(s: &[u8], at: usize) -> usize
    requires { ItemAt s.now at }
    ensures { (front back : Row) (it : Item) → Stands s.now at front back it → result ≡ length it.entries }
{
    buffer::read_u32(s, at + 4) as usize
}

// The epoch of the item at `at`.
pub fn epoch_of(s: &[u8], at: usize) -> u64
    requires { ItemAt s.now at }
    ensures { (front back : Row) (it : Item) → Stands s.now at front back it → result ≡ it.epoch }
{
    buffer::read_u64(s, at + 8)
}

// The expiry of the item at `at`.
pub fn expiry_of(s: &[u8], at: usize) -> u64
    requires { ItemAt s.now at }
    ensures { (front back : Row) (it : Item) → Stands s.now at front back it → result ≡ it.expiry }
{
    buffer::read_u64(s, at + 16)
}

// Whether the last eight bytes of the item's key, which is as long as this one, are others: keys that begin alike mostly differ there, so that few are
// compared in full. False where they have no eight bytes.
fn other_tail(s: &[u8], at: usize, key: &[u8]) -> bool
    requires { ItemAt s.now at × (read32 s.now at ≡ length key.now) }
    ensures { (front back : Row) (it : Item) → Stands s.now at front back it → result ≡ true → same key.now it.key ≡ false }
{
    let n = key.len();
    if n < 8 {
        return false;
    }
    buffer::read_u64(s, at + 24 + n) != buffer::read_u64(key, n - 8)
}

// Whether the item at `at` has this key. The lengths are compared first.
fn has_key(s: &[u8], at: usize, key: &[u8]) -> bool
    requires { ItemAt s.now at }
    ensures { (front back : Row) (it : Item) → Stands s.now at front back it → result ≡ same key.now it.key }
{
    if buffer::read_u32(s, at) as usize != key.len() {
        return false;
    }
    if other_tail(s, at, key) {
        return false;
    }
    buffer::same_at(s, at + 32, key)
}

// Where the key's item stands.
pub fn find(s: &[u8], key: &[u8]) -> Option<usize>
    requires { Shard s.now }
    ensures { (row : Row) → Holds s.now row → result ≡ position_of key.now row }
{
    let end = 16 + buffer::read_u32(s, 4) as usize;
    let mut at: usize = 16;
    // Kept: no plainer as an iterator, which would hold the bytes, the place and the end, and whose laws would say again what these lines do.
    while at < end {
        if has_key(s, at, key) {
            return Some(at);
        }
        at = at + item_len(s, at);
    }
    None
}

// Brings the item at `at` to the front: it is the newest then.
pub fn touch(s: &mut [u8], at: usize)
    requires { ItemAt s.old at }
    ensures { (front back : Row) (it : Item) → Stands s.old at front back it →
        s.new ≡ enc_shard (length s.old) (it ∷ (front ++ back)) }
{
    let end = at + item_len(s, at);
    ranges::rotate(s, 16, at, end);
}

// Takes the item at `at` out.
pub fn remove(s: &mut [u8], at: usize)
    requires { ItemAt s.old at }
    ensures { (front back : Row) (it : Item) → Stands s.old at front back it →
        s.new ≡ enc_shard (length s.old) (front ++ back) }
{
    let size = item_len(s, at);
    let count = buffer::read_u32(s, 0);
    let used = buffer::read_u32(s, 4) as usize;
    ranges::resize(s, at, at + size, 16 + used, 0);
    buffer::write_u32(s, 0, count - 1);
    buffer::write_u32(s, 4, (used - size) as u32);
}

// Drops the key's item, and answers how many entries it had.
pub fn invalidate_in(s: &mut [u8], key: &[u8]) -> usize
    requires { Shard s.old }
    ensures { (row : Row) → Holds s.old row →
        (s.new ≡ enc_shard (length s.old) (without key.now row)) × (result ≡ entries_of (find key.now row)) }
{
    match find(s, key) {
        Some(at) => {
            let dropped = entry_count(s, at);
            remove(s, at);
            dropped
        }
        None => 0,
    }
}

// How many entries the shard has.
fn all_entries(s: &[u8]) -> usize
    requires { Shard s.now }
    ensures { (row : Row) → Holds s.now row → result ≡ row_entries row }
{
    let end = 16 + buffer::read_u32(s, 4) as usize;
    let mut at: usize = 16;
    let mut n: usize = 0;
    // Kept: no plainer as an iterator, for what stands in `find`.
    while at < end {
        n += entry_count(s, at);
        at = at + item_len(s, at);
    }
    n
}

// Drops every item, and answers how many entries they had. The bytes behind the items are zero already.
pub fn clear(s: &mut [u8]) -> usize
    requires { Shard s.old }
    ensures { (row : Row) → Holds s.old row → (s.new ≡ enc_shard (length s.old) []) × (result ≡ row_entries row) }
{
    let n = all_entries(s);
    let end = 16 + buffer::read_u32(s, 4) as usize;
    buffer::fill_zero(s, 0, end);
    n
}
