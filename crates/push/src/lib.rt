// Pushes, by which the server says what is no longer true: rules U1 to U4 of docs/BEHAVIOUR.md.
// After the push handling of cache_manager.rs. specs/Push.antt says what a push returns and leaves; inner functions speak of whatever book the
// arena and the counts are those of.
#![tactic(auto)]

ghost use Rattle.std.specs.Prelude.{◌≡◌, ℕ};
ghost use Rattle.resp3.specs.declared.Kind.TheVariants.{BlobString};
ghost use Rattle.resp3.specs.Value.{Value, Values, none, more, Means};
ghost use Rattle.resp3_element.specs.Meaning.{of_kind, is_null, array_of, Stands};
ghost use Rattle.book.specs.Book.{Book, plus, count};
ghost use Rattle.book.specs.Calls.{push, after_call};
ghost use Rattle.resolving.specs.Pushes.{keys_of, invalidating, is_invalidate, from_elements, pushed};
ghost use Rattle.sharded_lru.specs.Lent.{setup_now, Arena};
ghost use Rattle.call_entry.specs.Entered.{holding};
ghost use Rattle.statistics.specs.OfBook.{counts_of};
ghost use Rattle.single_calls.specs.Answers.{InvalidationLeft};
ghost use Rattle.push.specs.Push.{push_call};
ghost use Rattle.push.specs.Kept.{Kept, One, Standing};

use config::{CacheConfig, Cause, Settings};
use resp3::Kind;
use resp3_element::Cursor;
use single_calls::Invalidated;
use statistics::Statistics;

// Whether the value is a blob string: only such a one is a key.
fn is_blob(value: &[u8]) -> bool
    ensures { (v : Value) → Means value.now v → result ≡ of_kind BlobString v }
{
    resp3_element::kind(value) == Kind::BlobString
}

// Whether the value is the blob `invalidate`.
fn is_invalidate(value: &[u8]) -> bool
    ensures { (v : Value) → Means value.now v → result ≡ is_invalidate v }
{
    buffer::same(resp3_element::blob(value), b"invalidate")
}

// The counts where so many entries were dropped; each of the three is added to, as in the book.
fn dropped(counts: Statistics, entries: usize) -> Statistics
    ensures { counts_of result ≡ count (counts_of counts) (plus 0 0 entries) }
{
    counts.increase_each(0, 0, entries as u64)
}

// Drops the item of the key that the element is, if it is one.
fn invalidate_key(arena: &mut [u8], g: Settings, element: &[u8], counts: Statistics) -> Statistics
    requires { Arena g arena.old }
    ensures { (v : Value) (bk : Book) → Means element.now v → Kept g arena.old counts bk →
        Kept g arena.new result (after_call (setup_now g) (push (keys_of (more v none))) bk) }
{
    if !is_blob(element) {
        return counts;
    }
    let n = sharded_lru::invalidate(arena, g, resp3_element::blob(element));
    dropped(counts, n)
}

// Drops the items of the keys among the elements of an array, from where the cursor stands.
fn invalidate_keys(
    arena: &mut [u8],
    g: Settings,
    array: &[u8],
    first: Cursor,
    counts: Statistics,
) -> Statistics
    requires { Arena g arena.old × Standing array.now first }
    ensures { (vs : Values) (bk : Book) → Stands array.now first vs → Kept g arena.old counts bk →
        Kept g arena.new result (after_call (setup_now g) (push (keys_of vs)) bk) }
{
    let mut c = first;
    let mut sum = counts;
    // Kept: no plainer as a `for`: the cursor itself says how many are left, and a second count beside it would have to be tied to it.
    while c.left > 0 {
        sum = invalidate_key(arena, g, resp3_element::element(array, c), sum);
        c = resp3_element::next(array, c);
    }
    sum
}

// By the element behind `invalidate`: its keys where it is an array, everything where it is a null.
fn invalidate_by(arena: &mut [u8], g: Settings, value: &[u8], counts: Statistics) -> Statistics
    requires { Arena g arena.old × One value.now }
    ensures { (v : Value) (bk : Book) → Means value.now v → Kept g arena.old counts bk →
        Kept g arena.new result (after_call (setup_now g) (invalidating (array_of v) (is_null v)) bk) }
{
    match resp3_element::array(value) {
        Some(c) => invalidate_keys(arena, g, value, c, counts),
        None => {
            if !resp3_element::is_null(value) {
                return counts;
            }
            let n = sharded_lru::invalidate_all(arena, g);
            dropped(counts, n)
        }
    }
}

// By the elements of a push, of which the cursor stands at the first.
fn by_elements(
    arena: &mut [u8],
    g: Settings,
    bytes: &[u8],
    first: Cursor,
    counts: Statistics,
) -> Statistics
    requires { Arena g arena.old × Standing bytes.now first }
    ensures { (vs : Values) (bk : Book) → Stands bytes.now first vs → Kept g arena.old counts bk →
        Kept g arena.new result (after_call (setup_now g) (from_elements vs) bk) }
{
    if first.left == 0 {
        return counts;
    }
    if !is_invalidate(resp3_element::element(bytes, first)) {
        return counts;
    }
    let c = resp3_element::next(bytes, first);
    if c.left == 0 {
        return counts;
    }
    invalidate_by(arena, g, resp3_element::element(bytes, c), counts)
}

// A push that no cause refuses.
fn push_in(arena: &mut [u8], g: Settings, bytes: &[u8], counts: Statistics) -> Statistics
    requires { Arena g arena.old × One bytes.now }
    ensures { (v : Value) (bk : Book) → Means bytes.now v → Kept g arena.old counts bk →
        Kept g arena.new result (after_call (setup_now g) (pushed v) bk) }
{
    match resp3_element::push(bytes) {
        Some(c) => by_elements(arena, g, bytes, c, counts),
        None => counts,
    }
}

// Does what a push asks for.
pub fn handle_push(
    arena: &mut [u8],
    cache_config: CacheConfig,
    bytes: &[u8],
    counts: Statistics,
) -> Invalidated
    ensures { (next : ℕ) →
        InvalidationLeft (push_call cache_config.size cache_config.mode cache_config.ttl bytes.now (holding arena.old (counts_of counts) next)) arena.new result }
{
    // Kept: a match, since a refusal is returned with the counts that were given, which `?` cannot add.
    match sharded_lru::admit(arena, cache_config) {
        Err(cause) => Invalidated {
            answer: Err(cause),
            counts,
        },
        Ok(g) => {
            if !resp3::is_value(bytes) {
                return Invalidated {
                    answer: Err(Cause::BadReply),
                    counts,
                };
            }
            let sum = push_in(arena, g, bytes, counts);
            Invalidated {
                answer: Ok(()),
                counts: sum,
            }
        }
    }
}
