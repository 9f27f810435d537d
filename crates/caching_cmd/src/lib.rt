// Resolving, after `CacheablePipeline::resolve` of caching/cmd.rs: a plan and the replies to what was sent become the result, and what was fetched is
// stored. Nothing is asked of the caller: what is wrong is refused by its cause. specs/Call.antt says what comes out, for all input.
#![tactic(auto)]

ghost use Rattle.std.specs.Prelude.{◌≡◌, true, ℕ, ◌≤◌, length};
ghost use Rattle.buffer.specs.Part.{put};
ghost use Rattle.resp3.specs.Ends.{is_value};
ghost use Rattle.book.specs.Book.{Counts};
ghost use Rattle.planning.specs.Plan.{plan_head_size};
ghost use Rattle.sharded_lru.specs.Lent.{Arena};
ghost use Rattle.plan.specs.Decode.{read_plan, is_plan};
ghost use Rattle.resolving_walk.specs.Same.{result_head};
ghost use Rattle.resolving_passes.specs.Passes.{Begins, Fine};
ghost use Rattle.call_entry.specs.Entered.{holding};
ghost use Rattle.caching_cmd.specs.Call.{resolve_call, Comes};
ghost use Rattle.caching_cmd.specs.Parts.{start_at, Finds, Listed, StoredIf, StoredFor, ShapeRefused, AllWritten};
ghost use Rattle.caching_cmd.specs.Parts.{ListResolved, CheckedResolved, AdmittedResolved};

use config::{CacheConfig, Cause, Now, Settings};
use resolving_passes::Dry;
use resolving_step::Walk;
use resp3_element::Cursor;

// What resolving gives: so many bytes of result stand in the answer buffer, and so many stores were refused as 11.
#[derive(Clone, Copy, PartialEq, Eq, Debug)]
pub struct Answered {
    pub written: usize,
    pub refused: u64,
}

// The list of replies: where it stands in the replies, and the cursor at its first element.
#[derive(Clone, Copy)]
struct ReplyList {
    from: usize,
    to: usize,
    first: Cursor,
}

// Finds the list (rule S1 of docs/BEHAVIOUR.md): a transaction's stands inside another array.
fn find_list(replies: &[u8], transaction: bool) -> Option<ReplyList>
    requires { is_value replies.now ≡ true }
    ensures { Finds replies.now transaction result }
{
    let Some(first) = resp3_element::array(replies) else {
        return None;
    };
    if !transaction {
        return Some(ReplyList {
            from: 0,
            to: replies.len(),
            first,
        });
    }
    if first.left != 1 {
        return None;
    }
    let from = first.at;
    let to = first.end;
    let Some(inner) = resp3_element::array(&replies[from..to]) else {
        return None;
    };
    Some(ReplyList {
        from,
        to,
        first: inner,
    })
}

// Whether a plan is a transaction's.
pub fn is_transaction(plan: &[u8]) -> bool
    requires { plan_head_size ≤ length plan.now }
    ensures { result ≡ (read_plan plan.now).transaction }
{
    plan[0] == 1
}

// How many commands a plan has.
pub fn command_count(plan: &[u8]) -> u64
    requires { plan_head_size ≤ length plan.now }
    ensures { result ≡ (read_plan plan.now).commands }
{
    buffer::read_u32(plan, planning::NULL_END) as u64
}

// The walk at the plan's first node and the list's first reply.
pub fn start_at(first: Cursor) -> Walk
    ensures { result ≡ start_at first }
{
    let none = Cursor {
        at: 0,
        end: 0,
        left: 0,
    };
    Walk {
        at: planning::PLAN_HEAD,
        reply: first,
        from: 0,
        to: 0,
        element: none,
    }
}

// How many bytes stand before the answers: `*n`, in a transaction behind `*1`.
pub fn head_len(transaction: bool, n: u64) -> usize
    ensures { result ≡ length (result_head transaction n) }
{
    let own = decimal::countdigits(n) + 3;
    if transaction { own + 4 } else { own }
}

// Writes them.
pub fn write_result_head(answer: &mut [u8], transaction: bool, n: u64) -> usize
    requires { length (result_head transaction n) ≤ length answer.old }
    ensures { (result ≡ length (result_head transaction n)) × (answer.new ≡ put answer.old 0 (result_head transaction n)) }
{
    if transaction {
        let at = cmd::write_head(answer, 0, b'*', 1);
        return cmd::write_head(answer, at, b'*', n);
    }
    cmd::write_head(answer, 0, b'*', n)
}

// Stores what was fetched where it is to be kept, and else nothing: how many stores there was no space for.
// Kept: a flag, since nothing goes with it and both ways answer a count; as a closure the store pass would be handed in by its one caller.
fn store_if(
    arena: &mut [u8],
    g: Settings,
    plan: &[u8],
    list: &[u8],
    start: Walk,
    when: Now,
    kept: bool,
) -> u64
    requires { Arena g arena.old × Begins plan.now list.now start }
    ensures { StoredIf g when.epoch plan.now list.now start when.clock kept arena.old arena.new result }
{
    let mode = g.mode;
    if !kept {
        return 0;
    }
    resolving_store::store_pass(arena, g, plan, list, start, mode, when)
}

// What a resolving stores, by what the dry pass found: where 7 refuses it, what was fetched before the reply that does not fit; where 8 does, nothing.
fn store_found(
    arena: &mut [u8],
    g: Settings,
    plan: &[u8],
    list: &[u8],
    start: Walk,
    when: Now,
    found: Dry,
) -> u64
    requires { Arena g arena.old × Begins plan.now list.now start }
    ensures { StoredFor g when.epoch plan.now list.now start when.clock found arena.old arena.new result }
{
    match found {
        Dry::Wrong => store_if(arena, g, plan, list, start, when, true),
        Dry::Short => store_if(arena, g, plan, list, start, when, false),
        Dry::Fits => store_if(arena, g, plan, list, start, when, true),
    }
}

// Cause 7: the whole answer buffer is zeroed.
fn refuse_shape(answer: &mut [u8]) -> Result<Answered, Cause>
    ensures { ShapeRefused answer.old answer.new result }
{
    let n = answer.len();
    buffer::fill_zero(answer, 0, n);
    Err(Cause::BadShape)
}

// Writes the result, with the number of stores that there was no space for.
fn write_result<'a>(
    g: Settings,
    plan: &'a [u8],
    list: &'a [u8],
    start: Walk,
    clock: u64,
    transaction: bool,
    n: u64,
    answer: &mut [u8],
    refused: u64,
) -> Result<Answered, Cause>
    requires { Begins plan.now list.now start × (length (result_head transaction n) ≤ length answer.old)
        × Fine plan.now list.now start g.mode clock (length (result_head transaction n)) (length answer.old) }
    ensures { AllWritten g plan.now list.now start clock transaction n refused answer.old answer.new result }
{
    let mode = g.mode;
    let at = write_result_head(answer, transaction, n);
    let end = resolving_passes::answer_pass(plan, list, start, mode, clock, answer, at);
    Ok(Answered {
        written: end,
        refused,
    })
}

// Causes 7 and 8, and the result: nothing is stored before it is known which of them it is.
fn resolve_list<'a>(
    arena: &mut [u8],
    g: Settings,
    plan: &'a [u8],
    list: &'a [u8],
    first: Cursor,
    when: Now,
    answer: &mut [u8],
) -> Result<Answered, Cause>
    requires { Arena g arena.old × (is_plan plan.now ≡ true) × Listed list.now first }
    ensures { ListResolved g when.epoch plan.now list.now first when.clock arena.old arena.new
        answer.old answer.new result }
{
    let mode = g.mode;
    let start = start_at(first);
    let transaction = is_transaction(plan);
    let n = command_count(plan);
    let room = room::spend(Some(answer.len()), head_len(transaction, n));
    let found = resolving_passes::dry_pass(plan, list, start, mode, when.clock, room);
    let refused = store_found(arena, g, plan, list, start, when, found);
    match found {
        Dry::Wrong => refuse_shape(answer),
        Dry::Short => Err(Cause::ShortAnswer),
        Dry::Fits => {
            write_result(
                g,
                plan,
                list,
                start,
                when.clock,
                transaction,
                n,
                answer,
                refused,
            )
        }
    }
}

// A plan and replies that are what they should be.
fn resolve_checked<'a>(
    arena: &mut [u8],
    g: Settings,
    plan: &'a [u8],
    replies: &'a [u8],
    when: Now,
    answer: &mut [u8],
) -> Result<Answered, Cause>
    requires { Arena g arena.old × (is_plan plan.now ≡ true) × (is_value replies.now ≡ true) }
    ensures { CheckedResolved g when.epoch plan.now replies.now when.clock arena.old arena.new
        answer.old answer.new result }
{
    match find_list(replies, is_transaction(plan)) {
        None => {
            let len = answer.len();
            buffer::fill_zero(answer, 0, len);
            Err(Cause::BadShape)
        }
        Some(list) => resolve_list(
            arena,
            g,
            plan,
            &replies[list.from..list.to],
            list.first,
            when,
            answer,
        ),
    }
}

// Causes 10 and 6.
fn resolve_admitted<'a>(
    arena: &mut [u8],
    g: Settings,
    plan: &'a [u8],
    replies: &'a [u8],
    when: Now,
    answer: &mut [u8],
) -> Result<Answered, Cause>
    requires { Arena g arena.old }
    ensures { AdmittedResolved g when.epoch plan.now replies.now when.clock arena.old arena.new
        answer.old answer.new result }
{
    if !plan_check::is_plan(plan) {
        return Err(Cause::BadPlan);
    }
    if !resp3::is_value(replies) {
        return Err(Cause::BadReply);
    }
    resolve_checked(arena, g, plan, replies, when, answer)
}

// Resolves a plan with the replies: causes 1, 9, 10, 6, 7 and 8, in that order.
pub fn resolve<'a>(
    arena: &mut [u8],
    cache_config: CacheConfig,
    plan: &'a [u8],
    replies: &'a [u8],
    when: Now,
    answer: &mut [u8],
) -> Result<Answered, Cause>
    ensures { (counts : Counts) (next : ℕ) →
        Comes (resolve_call cache_config.size cache_config.mode cache_config.ttl plan.now replies.now when.clock when.epoch answer.old
        (holding arena.old counts next)) result arena.new answer.new }
{
    let g = sharded_lru::admit(arena, cache_config)?;
    resolve_admitted(arena, g, plan, replies, when, answer)
}
