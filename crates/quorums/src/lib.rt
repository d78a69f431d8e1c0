// The two quorum numbers of a group, refusal 18, and the majority as both of them.
#![tactic(auto)]

ghost use Rattle.std.specs.Prelude.{◌≡◌, ◌<◌};
ghost use Rattle.quorums.specs.Quorums.{outside, bad_quorums, majorities};

// Document 02's a, the boxes needed to decide, and b, the boxes heard before a new coordinator proposes.
#[derive(Clone, Copy, Debug, PartialEq, Eq)]
pub struct Quorums {
    pub to_decide: u8,
    pub to_propose: u8,
}

// Whether a number is outside 2 to N.
fn is_outside(boxes: u8, number: u8) -> bool
    ensures { result ≡ outside boxes number }
{
    number < 2 || boxes < number
}

// 18: a or b outside 2 to N, or a + b not above N. Two numbers of eight bits have a sum of nine.
#[tactic(auto, unfolding(crate::specs::Quorums::bad_quorums))]
pub fn bad_quorums(boxes: u8, quorums: Quorums) -> bool
    ensures { result ≡ bad_quorums boxes quorums }
{
    let Quorums {
        to_decide,
        to_propose,
    } = quorums;
    is_outside(boxes, to_decide)
        || is_outside(boxes, to_propose)
        || u32::from(to_decide) + u32::from(to_propose) <= u32::from(boxes)
}

// The majority of N boxes, for both.
#[tactic(auto, unfolding(crate::specs::Quorums::majorities))]
pub fn majorities(boxes: u8) -> Quorums
    ensures { result ≡ majorities boxes }
{
    let majority = scram::quorum::majority(boxes);
    Quorums {
        to_decide: majority,
        to_propose: majority,
    }
}
