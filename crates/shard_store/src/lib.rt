// A store in place, on the bytes of its key's shard: exactly the book's store, with the space rule judged before anything is changed.
//
// The functions go upwards: the oldest item; each of the book's cases with its test of the space; the whole store. They are lent bytes that hold a
// row (shard's specs/Holds.antt), as the entry points have checked, and arguments that cause 3 leaves; none tests that again.
#![tactic(auto)]

ghost use Rattle.std.specs.Prelude.{◌≡◌, ◌≤◌, List, ◌∷◌, ◌++◌, length, is_ok};
ghost use Rattle.std.proofs.Math.Option.{none};
ghost use Rattle.config.specs.Limits.{max_command_key, max_bytes};
ghost use Rattle.book.specs.Book.{Entry, Item, Row, find, new_item, updated, without_oldest};
ghost use Rattle.arena.specs.Edit.{place_after};
ghost use Rattle.arena.specs.Pieces.{item_of};
ghost use Rattle.shard.specs.Holds.{Holds, Shard, Stands, ItemAt};
ghost use Rattle.shard_write.specs.Places.{new_entry};
ghost use Rattle.shard_store.specs.Store.{judged, store_on, Leaves, Storable};
ghost use Rattle.shard_store.specs.Replaces.{Replaces, Replaceable};

use command_key::CommandKey;
use cursor::Range;
use shard_write::Fields;

// A value was not kept, since it lacks space in its shard.
#[derive(Clone, Copy, Debug, PartialEq, Eq)]
pub struct NoSpace;

// Where the oldest item stands, in a shard that has one.
fn oldest(s: &[u8]) -> usize
    requires { ItemAt s.now 16 }
    ensures { (row : Row) → Holds s.now row → result ≡ place_after (without_oldest row) }
{
    let end = 16 + buffer::read_u32(s, 4) as usize;
    let mut at: usize = 16;
    let mut next = 16 + shard::item_len(s, 16);
    // Kept: no plainer as an iterator's `last`, for what stands in `shard::find`.
    while next < end {
        at = next;
        next = at + shard::item_len(s, at);
    }
    at
}

// A new item becomes the newest. An error, with nothing changed, where it lacks space.
fn store_front(
    s: &mut [u8],
    key: &[u8],
    command: &[u8],
    value: &[u8],
    expiry: u64,
    epoch: u64,
) -> Result<(), NoSpace>
    requires { Shard s.old × Storable key.now command.now value.now }
    ensures { (row : Row) → Holds s.old row
        → Leaves s.old s.new (is_ok result) (judged (length s.old)
        (new_item key.now command.now value.now expiry epoch ∷ row) row) }
{
    let count = buffer::read_u32(s, 0);
    let end = 16 + buffer::read_u32(s, 4) as usize;
    let size = 32 + key.len() + (16 + command.len() + value.len());
    if s.len() - end < size {
        return Err(NoSpace);
    }
    shard_write::push_front(
        s,
        end,
        count + 1,
        (end - 16 + size) as u32,
        key,
        command,
        value,
        expiry,
        epoch,
    );
    Ok(())
}

// The item at `at` goes, and a new item becomes the newest. An error, with nothing changed, where it lacks space.
fn store_instead(
    s: &mut [u8],
    at: usize,
    key: &[u8],
    command: &[u8],
    value: &[u8],
    expiry: u64,
    epoch: u64,
) -> Result<(), NoSpace>
    requires { ItemAt s.old at × Storable key.now command.now value.now }
    ensures { (front back : Row) (it : Item) → Stands s.old at front back it
        → Leaves s.old s.new (is_ok result) (judged (length s.old)
        (new_item key.now command.now value.now expiry epoch ∷ (front ++ back)) (front ++ (it ∷ back))) }
{
    let count = buffer::read_u32(s, 0);
    let left = 16 + buffer::read_u32(s, 4) as usize - shard::item_len(s, at);
    let size = 32 + key.len() + (16 + command.len() + value.len());
    if s.len() - left < size {
        return Err(NoSpace);
    }
    shard::remove(s, at);
    shard_write::push_front(
        s,
        left,
        count,
        (left - 16 + size) as u32,
        key,
        command,
        value,
        expiry,
        epoch,
    );
    Ok(())
}

// An entry takes the place of those from `from` up to `to` of the item at `at`, which gets the expiry and is not moved. An error, with nothing changed, where
// it lacks space.
fn store_entry(
    s: &mut [u8],
    at: usize,
    from: usize,
    to: usize,
    added: u32,
    command: &[u8],
    value: &[u8],
    expiry: u64,
) -> Result<(), NoSpace>
    requires { Replaceable s.old at from to added × (length command.now ≤ max_command_key) × (length value.now ≤ max_bytes) }
    ensures { (front back : Row) (it : Item) (ef em eb : List Entry) → Replaces s.old at from to added front back it ef em eb
        → Leaves s.old s.new (is_ok result) (judged (length s.old)
        (front ++ (item_of it.key it.epoch expiry (ef ++ (new_entry command.now value.now ∷ eb)) ∷ back)) (front ++ (it ∷ back))) }
{
    let used = buffer::read_u32(s, 4) as usize - (to - from);
    let size = 16 + command.len() + value.len();
    if s.len() - 16 - used < size {
        return Err(NoSpace);
    }
    let count = buffer::read_u32(s, at + 4) + added;
    let bytes = buffer::read_u32(s, at + 24) as usize - (to - from) + size;
    let fields = Fields {
        count,
        expiry,
        bytes: bytes as u32,
        used: (used + size) as u32,
    };
    shard_write::set_entry(
        s,
        at,
        from,
        to,
        16 + used + (to - from),
        fields,
        command,
        value,
    );
    Ok(())
}

// The item at `at` gets the value for the command, and the expiry; it is not moved. An error, with nothing changed, where it lacks space.
fn store_update(
    s: &mut [u8],
    at: usize,
    command: &[u8],
    value: &[u8],
    expiry: u64,
) -> Result<(), NoSpace>
    requires { ItemAt s.old at × (length command.now ≤ max_command_key) × (length value.now ≤ max_bytes) }
    ensures { (front back : Row) (it : Item) → Stands s.old at front back it
        → Leaves s.old s.new (is_ok result) (judged (length s.old)
        (front ++ (updated command.now value.now expiry it ∷ back)) (front ++ (it ∷ back))) }
{
    let whole = CommandKey::Part(Range {
        start: 0,
        end: command.len(),
    });
    match shard_lookup::find_entry(s, at, command, whole) {
        Some(from) => {
            let to = from + shard_lookup::entry_len(s, from);
            store_entry(s, at, from, to, 0, command, value, expiry)
        }
        None => {
            let end = at + shard::item_len(s, at);
            store_entry(s, at, end, end, 1, command, value, expiry)
        }
    }
}

// The book's store of a key that the shard does not have, so that nothing is searched for: as the newest item, or where the shard has all its keys in the
// place of the oldest. What a shard that has the key would be left with is not said.
pub fn store_new(
    s: &mut [u8],
    keys: usize,
    key: &[u8],
    command: &[u8],
    value: &[u8],
    expiry: u64,
    epoch: u64,
) -> Result<(), NoSpace>
    requires { Shard s.old × Storable key.now command.now value.now × (1 ≤ keys) }
    ensures { (row : Row) → Holds s.old row → find key.now row ≡ none
        → Leaves s.old s.new (is_ok result) (store_on keys (length s.old) key.now command.now
        value.now expiry epoch row) }
{
    if (buffer::read_u32(s, 0) as usize) < keys {
        return store_front(s, key, command, value, expiry, epoch);
    }
    let at = oldest(s);
    store_instead(s, at, key, command, value, expiry, epoch)
}

// The book's store in a shard of at most `keys` keys. An error, cause 11, where the value was not kept: nothing is changed then.
pub fn store_in(
    s: &mut [u8],
    keys: usize,
    key: &[u8],
    command: &[u8],
    value: &[u8],
    expiry: u64,
    epoch: u64,
) -> Result<(), NoSpace>
    requires { Shard s.old × Storable key.now command.now value.now × (1 ≤ keys) }
    ensures { (row : Row) → Holds s.old row
        → Leaves s.old s.new (is_ok result) (store_on keys (length s.old) key.now command.now
        value.now expiry epoch row) }
{
    match shard::find(s, key) {
        Some(at) => {
            if shard::epoch_of(s, at) == epoch {
                return store_update(s, at, command, value, expiry);
            }
            store_instead(s, at, key, command, value, expiry, epoch)
        }
        None => store_new(s, keys, key, command, value, expiry, epoch),
    }
}
