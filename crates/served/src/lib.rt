// A plan whose commands are all served, answered without arena and replies: the passes of resolving over no replies at all. Causes 10 and 8; where
// some command needs replies, that is said. specs/Served.antt says what comes out, proofs/Same.antt that resolving would answer the same.
#![tactic(auto)]

ghost use Rattle.std.specs.Prelude.{◌≡◌, true, ◌≤◌, length};
ghost use Rattle.resolving_walk.specs.Same.{result_head};
ghost use Rattle.resolving_passes.specs.Passes.{Begins, Fine};
ghost use Rattle.config.specs.declared.CacheMode.TheVariants.{All};
ghost use Rattle.plan.specs.Decode.{is_plan};
ghost use Rattle.served.specs.Served.{ServedIs};
ghost use Rattle.served.specs.Laws.{no_replies, WrittenFrom};

use config::{CacheMode, Cause};
use resolving_passes::Dry;
use resolving_step::Walk;
use resp3_element::Cursor;

// Writes the result.
fn write_served<'a>(
    plan: &'a [u8],
    none: &'a [u8],
    start: Walk,
    transaction: bool,
    n: u64,
    answer: &mut [u8],
) -> usize
    requires { Begins plan.now none.now start × (length (result_head transaction n) ≤ length answer.old)
        × Fine plan.now none.now start All 0 (length (result_head transaction n)) (length answer.old) }
    ensures { WrittenFrom plan.now none.now start transaction n answer.old answer.new result }
{
    let at = caching_cmd::write_result_head(answer, transaction, n);
    resolving_passes::answer_pass(plan, none, start, CacheMode::All, 0, answer, at)
}

// A plan that is one, with no replies.
fn served_checked<'a>(
    plan: &'a [u8],
    none: &'a [u8],
    answer: &mut [u8],
) -> Result<Option<usize>, Cause>
    requires { (is_plan plan.now ≡ true) × (none.now ≡ no_replies plan.now) }
    ensures { ServedIs plan.now answer.old answer.new result }
{
    let first = Cursor {
        at: 0,
        end: 0,
        left: 0,
    };
    let start = caching_cmd::start_at(first);
    let transaction = caching_cmd::is_transaction(plan);
    let n = caching_cmd::command_count(plan);
    let room = room::spend(Some(answer.len()), caching_cmd::head_len(transaction, n));
    match resolving_passes::dry_pass(plan, none, start, CacheMode::All, 0, room) {
        Dry::Wrong => Ok(None),
        Dry::Short => Err(Cause::ShortAnswer),
        Dry::Fits => {
            let end = write_served(plan, none, start, transaction, n, answer);
            Ok(Some(end))
        }
    }
}

// Answers a plan whose commands are all served: how many bytes of result stand in the answer buffer, or nothing where some command needs replies.
// Cause 10 comes first, then whether replies are needed, then cause 8.
pub fn served(plan: &[u8], answer: &mut [u8]) -> Result<Option<usize>, Cause>
    ensures { ServedIs plan.now answer.old answer.new result }
{
    if !plan_check::is_plan(plan) {
        return Err(Cause::BadPlan);
    }
    served_checked(plan, &plan[..0], answer)
}
