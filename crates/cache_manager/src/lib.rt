// Planning: `get_cached_pipeline` (cache_manager.rs), on a lent arena, a call record and two lent buffers. Nothing is asked of the caller: what is wrong is
// refused by its cause. specs/Pipeline.antt says what is returned and left.
#![tactic(auto)]

ghost use Rattle.std.specs.Prelude.{◌≡◌, ◌||◌, ℕ, ◌+◌, ◌^◌, ◌≤◌, ◌<◌, Ok, ltb, length};
ghost use Rattle.config.specs.Limits.{max_bytes, max_commands};
ghost use Rattle.call_record.specs.Check.{check_def};
ghost use Rattle.cursor.specs.At.{commands_of, record_at};
ghost use Rattle.book.specs.Book.{Row, Book};
ghost use Rattle.sharded_lru.specs.Lent.{setup_now, Lent, Arena};
ghost use Rattle.key_filter.specs.Filter.{Filtered};
ghost use Rattle.planning_look_up.specs.Looks.{Keeps};
ghost use Rattle.planning_dry_pass.specs.Dry.{Planable};
ghost use Rattle.statistics.specs.OfBook.{counts_of};
ghost use Rattle.call_entry.specs.Entered.{holding};
ghost use Rattle.cache_manager.specs.Pipeline.{plan_call, recorded, admitted_to, Leaves};
ghost use Rattle.cache_manager.specs.Planned.{plan_bytes, send_bytes};
ghost use Rattle.cache_manager.specs.Passed.{written_of, Passed};

use config::{CacheConfig, Cause, Now, Settings};
use cursor::Commands;
use planning_second_pass::Progress;
use statistics::Statistics;

// What planning wrote: so many bytes to the plan buffer and to the send buffer; and how many responses are skipped and then taken.
#[derive(Clone, Copy, PartialEq, Eq, Debug)]
pub struct Written {
    pub plan: usize,
    pub send: usize,
    pub offset: usize,
    pub count: usize,
}

// What planning returns: with the counts, which it was given by value.
#[derive(Clone, Copy)]
pub struct CachedPipeline {
    // Where a cause refuses it, everything is left as it was.
    pub answer: Result<Written, Cause>,
    pub counts: Statistics,
}

// The response counts (rule P18 of docs/BEHAVIOUR.md).
fn written_of(transaction: bool, plan: usize, send: usize, sent: usize) -> Written
    requires { sent < 2 ^ 63 }
    ensures { result ≡ written_of transaction plan send sent }
{
    if transaction {
        Written {
            plan,
            send,
            offset: sent + 1,
            count: 1,
        }
    } else {
        Written {
            plan,
            send,
            offset: 0,
            count: sent,
        }
    }
}

// Cause 5: whether a buffer of so many bytes is short.
fn is_short(
    bytes: &[u8],
    k: Commands,
    transaction: bool,
    arena: &[u8],
    g: Settings,
    when: Now,
    plan: usize,
    send: usize,
    seen: &[u64],
) -> bool
    requires { Planable g when.clock bytes.now k.left k.at × (length bytes.now ≤ max_bytes) × Filtered g arena.now seen.now }
    ensures { (rows : ℕ → Row) → Lent g arena.now rows
        → result ≡ (ltb plan (length (plan_bytes (setup_now g) rows when.clock when.epoch g transaction (commands_of bytes.now k))) || ltb send
        (length (send_bytes (setup_now g) rows when.clock when.epoch g transaction (commands_of bytes.now k)))) }
{
    let p = room::spend(Some(plan), planning::PLAN_HEAD);
    let q = room::spend(Some(send), planning_send_len::wrap_len(transaction));
    planning_dry_pass::dry_pass(bytes, k, arena, g, when, p, q, seen)
}

// Both buffers written, where there is room, and the lookups done.
fn write_pipeline(
    arena: &mut [u8],
    plan: &mut [u8],
    send: &mut [u8],
    bytes: &[u8],
    k: Commands,
    transaction: bool,
    g: Settings,
    when: Now,
    counts: Statistics,
    seen: &[u64],
) -> CachedPipeline
    requires { Planable g when.clock bytes.now k.left k.at × (length bytes.now ≤ max_bytes) × Filtered g arena.old seen.now
        × (k.left ≤ max_commands) × ((rows : ℕ → Row) → Lent g arena.old rows
        → (length (plan_bytes (setup_now g) rows when.clock when.epoch g transaction (commands_of bytes.now k)) ≤ length plan.old)
        × (length (send_bytes (setup_now g) rows when.clock when.epoch g transaction (commands_of bytes.now k)) ≤ length send.old)) }
    ensures { (bk : Book) → Keeps g arena.old counts bk
        → Passed g when.clock when.epoch transaction (commands_of bytes.now k) bk plan.old send.old arena.new
        plan.new send.new result }
{
    let n = k.left;
    let to = plan_write::write_plan_head(plan, transaction, n as u32);
    let from = planning_send_len::write_start(send, 0, transaction);
    let x = Progress {
        to,
        from,
        sent: 0,
        counts,
    };
    let y = planning_second_pass::plan_commands(arena, plan, send, bytes, k, g, when, x, seen);
    let end = planning_send_len::write_end(send, y.from, transaction);
    let after = y.counts;
    let written = written_of(transaction, y.to, end, y.sent);
    CachedPipeline {
        answer: Ok(written),
        counts: after,
    }
}

// Planning refused by a cause that leaves everything as it was.
fn refused(cause: Cause, counts: Statistics) -> CachedPipeline
    ensures { (result.answer ≡ Err cause) × (result.counts ≡ counts) }
{
    CachedPipeline {
        answer: Err(cause),
        counts,
    }
}

// Planning a call record that is one, with a filter of keys that tells of the arena (crate key_filter).
fn plan_seen(
    arena: &mut [u8],
    plan: &mut [u8],
    send: &mut [u8],
    bytes: &[u8],
    g: Settings,
    when: Now,
    counts: Statistics,
    seen: &[u64],
) -> CachedPipeline
    requires { Filtered g arena.old seen.now × (length bytes.now ≤ max_bytes) × (check_def bytes.now ≡ Ok tt) }
    ensures { (rows : ℕ → Row) (next : ℕ) → Lent g arena.old rows
        → Leaves (recorded when.clock when.epoch bytes.now plan.old send.old
        (holding arena.old (counts_of counts) next) g rows (record_at bytes.now)) arena.new plan.new
        send.new result }
{
    let k = cursor::commands_of(bytes);
    if planning_ask::any_late(bytes, k, g, when.clock) {
        return refused(Cause::LateExpiry, counts);
    }
    let transaction = cursor::is_transaction(bytes);
    let n = plan.len();
    let m = send.len();
    if is_short(bytes, k, transaction, arena, g, when, n, m, seen) {
        return refused(Cause::ShortBuffer, counts);
    }
    write_pipeline(
        arena,
        plan,
        send,
        bytes,
        k,
        transaction,
        g,
        when,
        counts,
        seen,
    )
}

// The same with a filter that is made first, of as many words as the keys' bits need; it serves both passes.
fn plan_filtered(
    arena: &mut [u8],
    plan: &mut [u8],
    send: &mut [u8],
    bytes: &[u8],
    g: Settings,
    when: Now,
    counts: Statistics,
) -> CachedPipeline
    requires { Arena g arena.old × (length bytes.now ≤ max_bytes) × (check_def bytes.now ≡ Ok tt) }
    ensures { (rows : ℕ → Row) (next : ℕ) → Lent g arena.old rows
        → Leaves (recorded when.clock when.epoch bytes.now plan.old send.old
        (holding arena.old (counts_of counts) next) g rows (record_at bytes.now)) arena.new plan.new
        send.new result }
{
    let mut seen = [0u64; 1536];
    key_filter::fill(arena, g, &mut seen);
    plan_seen(arena, plan, send, bytes, g, when, counts, &seen)
}

// Planning a call record that is one. A filter pays from some dozens of keys on.
fn plan_record(
    arena: &mut [u8],
    plan: &mut [u8],
    send: &mut [u8],
    bytes: &[u8],
    g: Settings,
    when: Now,
    counts: Statistics,
) -> CachedPipeline
    requires { Arena g arena.old × (length bytes.now ≤ max_bytes) × (check_def bytes.now ≡ Ok tt) }
    ensures { (rows : ℕ → Row) (next : ℕ) → Lent g arena.old rows
        → Leaves (recorded when.clock when.epoch bytes.now plan.old send.old
        (holding arena.old (counts_of counts) next) g rows (record_at bytes.now)) arena.new plan.new
        send.new result }
{
    if bytes.len() < 2048 {
        let none = [0u64; 0];
        return plan_seen(arena, plan, send, bytes, g, when, counts, &none);
    }
    plan_filtered(arena, plan, send, bytes, g, when, counts)
}

// Planning that causes 1 and 9 admitted.
fn plan_admitted(
    arena: &mut [u8],
    plan: &mut [u8],
    send: &mut [u8],
    bytes: &[u8],
    g: Settings,
    when: Now,
    counts: Statistics,
) -> CachedPipeline
    requires { Arena g arena.old }
    ensures { (rows : ℕ → Row) (next : ℕ) → Lent g arena.old rows
        → Leaves (admitted_to when.clock when.epoch bytes.now plan.old send.old
        (holding arena.old (counts_of counts) next) g rows) arena.new plan.new send.new result }
{
    if config::MAX_BYTES < bytes.len() {
        return refused(Cause::TooLong, counts);
    }
    match call_record::check(bytes) {
        Err(wrong) => refused(Cause::BadRecord(wrong.at), counts),
        Ok(()) => plan_record(arena, plan, send, bytes, g, when, counts),
    }
}

// Plans the commands of a call record: what resolving needs goes to the plan buffer, what is sent to the send buffer.
pub fn get_cached_pipeline(
    arena: &mut [u8],
    cache_config: CacheConfig,
    when: Now,
    bytes: &[u8],
    plan: &mut [u8],
    send: &mut [u8],
    counts: Statistics,
) -> CachedPipeline
    ensures { (next : ℕ) → Leaves (plan_call cache_config.size cache_config.mode cache_config.ttl when.clock when.epoch bytes.now plan.old send.old
        (holding arena.old (counts_of counts) next)) arena.new plan.new send.new result }
{
    // Kept: a match, since a refusal is returned with the counts that were given, which `?` cannot add.
    match sharded_lru::admit(arena, cache_config) {
        Err(cause) => refused(cause, counts),
        Ok(g) => plan_admitted(arena, plan, send, bytes, g, when, counts),
    }
}
