// The protocol's numbers and tests, as code: the definitions of the whole protocol, over any law, are in specs/.
#![tactic(auto)]

pub mod ignored;
pub mod quorum;
pub mod refusals;

use refusal::Refusal;

// The kinds of frames: 1 Propose, 2 Ack, 3 Decide, 4 Estimate.
#[derive(Clone, Copy, Debug, PartialEq, Eq)]
pub enum Kind {
    Propose,
    Ack,
    Decide,
    Estimate,
}

// What a step answers: what was called for was done, the event was ignored, or it was refused.
#[derive(Clone, Copy, Debug, PartialEq, Eq)]
pub enum Answer {
    Done,
    Ignored,
    Refused(Refusal),
}
