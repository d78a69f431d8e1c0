// The grounds for ignoring, on plain numbers.
ghost use Rattle.std.specs.Prelude.{◌≡◌};
ghost use Rattle.scram.specs.Events.{idle, stale, unwanted};

use crate::Kind;

// Nothing but a tick is taken in period 0 and in a decided period.
pub fn idle(period: u32, decided: bool) -> bool
    ensures { result ≡ idle period decided }
{
    period == 0 || decided
}

// The frame is of another period or of a lower view.
pub fn stale(period: u32, view: u32, frame_period: u32, frame_view: u32) -> bool
    ensures { result ≡ stale period view frame_period frame_view }
{
    frame_period != period || frame_view < view
}

// The frame's kind is not wanted in this view and mode, or its sender was heard already.
#[tactic(auto, unfolding(crate::specs::Events::unwanted))]
pub fn unwanted(kind: Kind, view: u32, view_change: bool, heard: bool, frame_view: u32) -> bool
    ensures { result ≡ unwanted kind view view_change heard frame_view }
{
    match kind {
        Kind::Propose | Kind::Decide => false,
        Kind::Ack => view < frame_view || view_change || heard,
        Kind::Estimate => frame_view == view && (!view_change || heard),
    }
}
