// Looking up in place, on the bytes of one shard: an item's entries, the command key's entry, the value, and what a lookup makes of the shard.
//
// Every function is lent bytes that hold a row (shard's specs/Holds.antt) and a command key that lies in its source, as the entry points have checked; none
// tests that again. A contract speaks of the row that the bytes hold, or of the item or entry that stands at the place given.
#![tactic(auto)]

ghost use Rattle.std.specs.Prelude.{◌≡◌, length};
ghost use Rattle.buffer.specs.Same.{same};
ghost use Rattle.statistics.specs.OfBook.{adding};
ghost use Rattle.book.specs.Book.{Entry, Item, Row};
ghost use Rattle.arena.specs.Layout.{enc_shard};
ghost use Rattle.arena.specs.Place.{shard_place};
ghost use Rattle.command_key.specs.Key.{key_bytes, KeyIn};
ghost use Rattle.shard.specs.Holds.{Holds, Shard, Stands, ItemAt};
ghost use Rattle.shard_lookup.specs.Entries.{entry_size, entry_of, EntryStands, EntryAt};
ghost use Rattle.shard_lookup.specs.Looked.{Reads, lookup_on, adds_by, Told, BeginsAt};

use command_key::CommandKey;
use config::Now;
use statistics::Statistics;

// The bytes that the entry at `at` takes.
pub fn entry_len(s: &[u8], at: usize) -> usize
    requires { EntryAt s.now at }
    ensures { (en : Entry) → EntryStands s.now at en → result ≡ entry_size en }
{
    let command = buffer::read_u32(s, at) as usize;
    let value = buffer::read_u32(s, at + 4) as usize;
    16 + command + value
}

// Whether the entry at `at` is this command key's, which has `len` bytes. The lengths are compared first.
fn has_command(s: &[u8], at: usize, source: &[u8], command: CommandKey, len: usize) -> bool
    requires { EntryAt s.now at × KeyIn source.now command × (len ≡ length (key_bytes source.now command)) }
    ensures { (en : Entry) → EntryStands s.now at en → result ≡ same (key_bytes source.now command) en.command }
{
    if buffer::read_u32(s, at) as usize != len {
        return false;
    }
    let from = at + 16;
    let to = from + len;
    command_key::key_same(source, command, &s[from..to])
}

// Where the command key's entry stands in the item at `at`.
pub fn find_entry(s: &[u8], at: usize, source: &[u8], command: CommandKey) -> Option<usize>
    requires { ItemAt s.now at × KeyIn source.now command }
    ensures { (front back : Row) (it : Item) → Stands s.now at front back it
        → result ≡ entry_of at (key_bytes source.now command) it }
{
    let len = command_key::key_len(source, command);
    let end = at + shard::item_len(s, at);
    let mut e = at + 32 + buffer::read_u32(s, at) as usize;
    // Kept: no plainer as an iterator, which would hold the bytes, the place and the end of an item's entries, for this one loop.
    while e < end {
        if has_command(s, e, source, command, len) {
            return Some(e);
        }
        e = e + entry_len(s, e);
    }
    None
}

// What an item has for a lookup.
// Kept: no plainer as an Option or a Result, since there are three answers, and each leaves the shard otherwise: without the item, or with it in front.
#[derive(Clone, Copy, Debug, PartialEq, Eq)]
enum Reading {
    // It is under another epoch, or past its expiry.
    Stale,
    // It has no value for the command key.
    Bare,
    // The value: `len` bytes, `skip` bytes behind the item's first.
    Value { skip: usize, len: usize },
}

// What the item at `at` has for a lookup.
fn read_item(s: &[u8], at: usize, source: &[u8], command: CommandKey, when: Now) -> Reading
    requires { ItemAt s.now at × KeyIn source.now command }
    ensures { (front back : Row) (it : Item) → Stands s.now at front back it
        → Reads when.clock when.epoch (key_bytes source.now command) it result }
{
    if when.epoch != shard::epoch_of(s, at) {
        return Reading::Stale;
    }
    if shard::expiry_of(s, at) < when.clock {
        return Reading::Stale;
    }
    match find_entry(s, at, source, command) {
        Some(e) => {
            let skip = e - at + 16 + buffer::read_u32(s, e) as usize;
            let len = buffer::read_u32(s, e + 4) as usize;
            Reading::Value { skip, len }
        }
        None => Reading::Bare,
    }
}

// What a lookup answers.
// Kept: no plainer as a Result, since a miss is no error, nor as an Option, since a miss has the number of entries that it drops.
#[derive(Clone, Copy, Debug, PartialEq, Eq)]
pub enum Looked {
    // The value: the shard's bytes from `from` up to `to`.
    Hit { from: usize, to: usize },
    // No value; with the number of entries that are dropped.
    Miss(usize),
}

// The counts after a lookup that was answered so.
pub fn counted(counts: Statistics, looked: Looked) -> Statistics
    ensures { result ≡ adding counts (adds_by looked) }
{
    match looked {
        Looked::Hit { from: _, to: _ } => counts.increase_each(1, 0, 0),
        Looked::Miss(n) => counts.increase_each(0, 1, n as u64),
    }
}

// What `lookup_in` would answer; nothing changes, and a hit's bytes are those of the shard as it is.
pub fn peek_in(s: &[u8], key: &[u8], source: &[u8], command: CommandKey, when: Now) -> Looked
    requires { Shard s.now × KeyIn source.now command }
    ensures { (row : Row) → Holds s.now row
        → Told s.now (lookup_on key.now (key_bytes source.now command) when.clock when.epoch row) result }
{
    let Some(at) = shard::find(s, key) else {
        return Looked::Miss(0);
    };
    match read_item(s, at, source, command, when) {
        Reading::Stale => Looked::Miss(shard::entry_count(s, at)),
        Reading::Bare => Looked::Miss(0),
        Reading::Value { skip, len } => Looked::Hit {
            from: at + skip,
            to: at + skip + len,
        },
    }
}

// Looks the command key's value up under the key: an item that is not current is dropped, another becomes the newest. A hit's bytes are the entry's
// own, in the row
// that is left.
pub fn lookup_in(s: &mut [u8], key: &[u8], source: &[u8], command: CommandKey, when: Now) -> Looked
    requires { Shard s.old × KeyIn source.now command }
    ensures { (row : Row) → Holds s.old row
        → (s.new ≡ enc_shard (length s.old)
        (lookup_on key.now (key_bytes source.now command) when.clock when.epoch row).row)
        × Told s.new (lookup_on key.now (key_bytes source.now command) when.clock when.epoch row) result
        × BeginsAt (shard_place key.now (key_bytes source.now command)
        (lookup_on key.now (key_bytes source.now command) when.clock when.epoch row).row) result }
{
    let Some(at) = shard::find(s, key) else {
        return Looked::Miss(0);
    };
    match read_item(s, at, source, command, when) {
        Reading::Stale => {
            let n = shard::entry_count(s, at);
            shard::remove(s, at);
            Looked::Miss(n)
        }
        Reading::Bare => {
            shard::touch(s, at);
            Looked::Miss(0)
        }
        Reading::Value { skip, len } => {
            shard::touch(s, at);
            Looked::Hit {
                from: 16 + skip,
                to: 16 + skip + len,
            }
        }
    }
}
