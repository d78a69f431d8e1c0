// The refusals of an arriving frame, on its header's numbers.
ghost use Rattle.std.specs.Prelude.{◌≡◌};
ghost use Rattle.scram.specs.Events.{bad_sender, bad_place, bad_base};

use crate::Kind;

// 9: the sender is not another box of the group of n.
#[tactic(auto, unfolding(crate::specs::Events::bad_sender))]
pub fn bad_sender(n: u8, own: u8, sender: u8) -> bool
    ensures { result ≡ bad_sender n own sender }
{
    sender < 1 || n < sender || sender == own
}

// 10: the frame is not from its view's coordinator, or not at it.
#[tactic(auto, unfolding(crate::specs::Events::bad_place))]
pub fn bad_place(kind: Kind, coordinator: u8, own: u8, sender: u8) -> bool
    ensures { result ≡ bad_place kind coordinator own sender }
{
    match kind {
        Kind::Propose | Kind::Decide => sender != coordinator,
        Kind::Ack | Kind::Estimate => own != coordinator,
    }
}

// 11: the base fields are not what they must be for the kind.
#[tactic(auto, unfolding(crate::specs::Events::bad_base))]
pub fn bad_base(kind: Kind, period: u32, view: u32, base_view: u32, base_period: u32) -> bool
    ensures { result ≡ bad_base kind period view base_view base_period }
{
    match kind {
        Kind::Propose | Kind::Decide => base_view != view || base_period != period,
        Kind::Ack => base_view != 0 || base_period != 0,
        Kind::Estimate => view <= base_view || period < base_period,
    }
}
