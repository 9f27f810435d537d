// What a store writes, in place, on the bytes of one shard: entries and items at a place, bytes replaced by one, a new item in front, an entry
// set in an item.
//
// The functions are lent bytes with the room that their contracts ask for; none tests that again. A contract speaks of the bytes alone, or of the row that
// they hold.
#![tactic(auto)]

ghost use Rattle.std.specs.Prelude.{◌≡◌, ℕ, ◌+◌, ◌≤◌, List, ◌∷◌, ◌++◌, length};
ghost use Rattle.buffer.specs.Same.{Bytes};
ghost use Rattle.buffer.specs.Part.{put};
ghost use Rattle.buffer.specs.Move.{spliced};
ghost use Rattle.config.specs.Limits.{max_arena};
ghost use Rattle.book.specs.Book.{Entry, Row, new_item};
ghost use Rattle.arena.specs.Layout.{item_head, enc_entry, enc_item, enc_shard};
ghost use Rattle.arena.specs.Pieces.{item_of};
ghost use Rattle.shard_write.specs.Places.{new_entry, entry_room, item_room, Spliceable, Pushable, EntriesAt, Counts};

// What a store to an item that is there writes: the item's count of entries, expiry and bytes of its entries, and the shard's bytes used.
#[derive(Clone, Copy, Debug, PartialEq, Eq)]
pub struct Fields {
    pub count: u32,
    pub expiry: u64,
    pub bytes: u32,
    pub used: u32,
}

// Writes an entry at `at`.
fn write_entry(s: &mut [u8], at: usize, command: &[u8], value: &[u8])
    requires { (at + entry_room command.now value.now ≤ length s.old) × (length s.old ≤ max_arena) }
    ensures { s.new ≡ put s.old at (enc_entry (new_entry command.now value.now)) }
{
    let next = at + 16 + command.len();
    buffer::write_u32(s, at, command.len() as u32);
    buffer::write_u32(s, at + 4, value.len() as u32);
    buffer::write_u64(s, at + 8, 0);
    buffer::copy_to(s, at + 16, command);
    buffer::copy_to(s, next, value);
}

// Writes the head of an item at `at`.
fn write_head(s: &mut [u8], at: usize, key: u32, count: u32, epoch: u64, expiry: u64, bytes: u32)
    requires { (at + 32 ≤ length s.old) × (length s.old ≤ max_arena) }
    ensures { s.new ≡ put s.old at (item_head key count epoch expiry bytes) }
{
    buffer::write_u32(s, at, key);
    buffer::write_u32(s, at + 4, count);
    buffer::write_u64(s, at + 8, epoch);
    buffer::write_u64(s, at + 16, expiry);
    buffer::write_u32(s, at + 24, bytes);
    buffer::write_u32(s, at + 28, 0);
}

// Writes an item of one entry at `at`.
fn write_item(
    s: &mut [u8],
    at: usize,
    key: &[u8],
    command: &[u8],
    value: &[u8],
    expiry: u64,
    epoch: u64,
)
    requires { (at + item_room key.now command.now value.now ≤ length s.old) × (length s.old ≤ max_arena) }
    ensures { s.new ≡ put s.old at (enc_item (new_item key.now command.now value.now expiry epoch)) }
{
    let entry = 16 + command.len() + value.len();
    let next = at + 32 + key.len();
    write_head(s, at, key.len() as u32, 1, epoch, expiry, entry as u32);
    buffer::copy_to(s, at + 32, key);
    write_entry(s, next, command, value);
}

// Replaces the bytes from `from` up to `to` by an entry: what follows up to `end` moves, and what is freed is zeroed.
fn splice_entry(s: &mut [u8], from: usize, to: usize, end: usize, command: &[u8], value: &[u8])
    requires { Spliceable (length s.old) from to end (entry_room command.now value.now) }
    ensures { s.new ≡ spliced s.old from to end (enc_entry (new_entry command.now value.now)) }
{
    ranges::resize(s, from, to, end, 16 + command.len() + value.len());
    write_entry(s, from, command, value);
}

// Replaces the bytes from `from` up to `to` by an item of one entry: what follows up to `end` moves, and what is freed is zeroed.
fn splice_item(
    s: &mut [u8],
    from: usize,
    to: usize,
    end: usize,
    key: &[u8],
    command: &[u8],
    value: &[u8],
    expiry: u64,
    epoch: u64,
)
    requires { Spliceable (length s.old) from to end (item_room key.now command.now value.now) }
    ensures { s.new
        ≡ spliced s.old from to end (enc_item (new_item key.now command.now value.now expiry epoch)) }
{
    ranges::resize(
        s,
        from,
        to,
        end,
        32 + key.len() + (16 + command.len() + value.len()),
    );
    write_item(s, from, key, command, value, expiry, epoch);
}

// Puts an item of one entry before the items of a shard, which end at `end`: it is the newest then. With it they are `count` and take `used` bytes.
pub fn push_front(
    s: &mut [u8],
    end: usize,
    count: u32,
    used: u32,
    key: &[u8],
    command: &[u8],
    value: &[u8],
    expiry: u64,
    epoch: u64,
)
    requires { Spliceable (length s.old) 16 16 end (item_room key.now command.now value.now) }
    ensures { (row : Row) →
        Pushable s.old end count used row (new_item key.now command.now value.now expiry epoch) →
        s.new ≡ enc_shard (length s.old) (new_item key.now command.now value.now expiry epoch ∷ row) }
{
    splice_item(s, 16, 16, end, key, command, value, expiry, epoch);
    buffer::write_u32(s, 0, count);
    buffer::write_u32(s, 4, used);
}

// Replaces the entries from `from` up to `to` of the item at `at` by one entry, sets the item's expiry, count of entries and bytes of its entries, and
// the shard's bytes used. The shard's items end at `end` before.
pub fn set_entry(
    s: &mut [u8],
    at: usize,
    from: usize,
    to: usize,
    end: usize,
    fields: Fields,
    command: &[u8],
    value: &[u8],
)
    requires { Spliceable (length s.old) from to end (entry_room command.now value.now) × (at + 32 ≤ from) }
    ensures { (front back : Row) (k : Bytes) (e x : ℕ) (ef em eb : List Entry) →
        EntriesAt s.old at from to end front back k e x ef em eb →
        Counts fields front back k e (ef ++ (new_entry command.now value.now ∷ eb)) →
        s.new ≡ enc_shard (length s.old)
        (front ++ (item_of k e fields.expiry (ef ++ (new_entry command.now value.now ∷ eb)) ∷ back)) }
{
    splice_entry(s, from, to, end, command, value);
    buffer::write_u32(s, at + 4, fields.count);
    buffer::write_u64(s, at + 16, fields.expiry);
    buffer::write_u32(s, at + 24, fields.bytes);
    buffer::write_u32(s, 4, fields.used);
}
