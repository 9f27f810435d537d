// Room in a lent buffer, counted down, so that nothing is summed up and nothing can wrap: planning's and resolving's dry passes find by it whether a buffer
// is short (causes 5 and 8). Room is `Some` of the bytes that are left, and `None` once the buffer was short. specs/Room.antt says what is left.
#![tactic(auto)]

ghost use Rattle.std.specs.Prelude.{◌≡◌};
ghost use Rattle.room.specs.Room.{spent};

// The room that is left once n bytes more are taken.
#[tactic(auto, unfolding(crate::specs::Room::spent))]
pub fn spend(room: Option<usize>, n: usize) -> Option<usize>
    ensures { result ≡ spent room n }
{
    room?.checked_sub(n)
}
