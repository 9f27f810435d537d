// The plan's sizes and the kinds of its nodes, as specs/Plan.antt names them. All else of planning (part P of docs/BEHAVIOUR.md) is definitions,
// in specs/, and theorems, in proofs/.
#![tactic(auto)]

ghost use Rattle.std.specs.Prelude.{◌≡◌};
ghost use Rattle.planning.specs.Kinds.{number_of_kind, kind_of_number};

// Bytes of the plan's head.
pub const PLAN_HEAD: usize = 8;
// Where in it the bytes of `_` begin, and where they end and the number of commands stands.
pub const NULL_START: usize = 1;

pub const NULL_END: usize = 4;
// Bytes of a node before its parts.
pub const NODE_HEAD: usize = 20;

// The kinds of nodes, in the order of their numbers.
#[derive(Clone, Copy, PartialEq, Eq, Debug)]
pub enum NodeKind {
    HandOn,
    Served,
    AllServed,
    Missing,
    Several,
    Waiting,
    End,
}

// A number that is no kind's.
#[derive(Clone, Copy, PartialEq, Eq, Debug)]
pub struct UnknownKind {
    pub number: u32,
}

impl From<NodeKind> for u32 {
    ghost from_gives = { λ kind n. n ≡ number_of_kind kind };

    fn from(kind: NodeKind) -> u32 {
        match kind {
            NodeKind::HandOn => 0,
            NodeKind::Served => 1,
            NodeKind::AllServed => 2,
            NodeKind::Missing => 3,
            NodeKind::Several => 4,
            NodeKind::Waiting => 5,
            NodeKind::End => 6,
        }
    }
}

impl TryFrom<u32> for NodeKind {
    type Error = UnknownKind;

    ghost try_from_gives = { λ n kind. kind ≡ kind_of_number n };

    #[tactic(auto, unfolding(crate::specs::Kinds::kind_of_number))]
    fn try_from(number: u32) -> Result<NodeKind, UnknownKind> {
        match number {
            0 => Ok(NodeKind::HandOn),
            1 => Ok(NodeKind::Served),
            2 => Ok(NodeKind::AllServed),
            3 => Ok(NodeKind::Missing),
            4 => Ok(NodeKind::Several),
            5 => Ok(NodeKind::Waiting),
            6 => Ok(NodeKind::End),
            _ => Err(UnknownKind { number }),
        }
    }
}
