// The plan that is lent to resolving: its nodes read one by one. docs/LAYOUT.md, "The plan", has the layout and its rules;
// crates/planning/specs/Plan.antt and Rules.antt are both as definitions, and specs/Decode.antt decodes bytes by them.
#![tactic(auto)]

ghost use Rattle.std.specs.Prelude.{◌≡◌};
ghost use Rattle.plan.specs.Head.{head_at, HeadIn};

use planning::{NodeKind, UnknownKind};

// A node's head: its kind, or a number that is none's; its two parts, from `first` up to `second` and from there up to `end`, where the next node stands; its number.
#[derive(Clone, Copy)]
pub struct NodeHead {
    pub kind: Result<NodeKind, UnknownKind>,
    pub first: usize,
    pub second: usize,
    pub end: usize,
    pub number: u64,
}

// The head of the node that stands at `at`, whole.
pub fn node_at(plan: &[u8], at: usize) -> NodeHead
    requires { HeadIn plan.now at }
    ensures { result ≡ head_at plan.now at }
{
    let kind = NodeKind::try_from(buffer::read_u32(plan, at));
    let first = at + planning::NODE_HEAD;
    let second = first + buffer::read_u32(plan, at + 4) as usize;
    let end = second + buffer::read_u32(plan, at + 8) as usize;
    let number = buffer::read_u64(plan, at + 12);
    NodeHead {
        kind,
        first,
        second,
        end,
        number,
    }
}
