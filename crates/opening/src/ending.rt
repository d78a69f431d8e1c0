// What a first line of `rig` has behind its numbers: nothing, or ` quorums a b`.
ghost use Rattle.std.specs.Prelude.{◌≡◌, true, ◌≤◌};
ghost use Rattle.opening.specs.Opening.{is_quorums, ended, quorums_in};

use crate::size_in;
use line::fields::{count_spaces, field};
use quorums::{Quorums, majorities};

#[tactic(auto, unfolding(crate::specs::Opening::is_quorums))]
pub(crate) fn is_quorums(word: &[u8]) -> bool
    ensures { result ≡ is_quorums word.now }
{
    word == b"quorums".as_slice()
}

// Whether a line ends behind so many numbers, or behind ` quorums a b` with numbers from 0 to 255.
#[tactic(auto, unfolding(crate::specs::Opening::ended, lists::specs::Choice::pick))]
pub(crate) fn has_ended(line: &[u8], count: usize) -> bool
    requires { count ≤ 200 }
    ensures { result ≡ ended count line.now }
{
    if is_quorums(field(line, count + 5)) {
        count_spaces(line) == count + 7
            && size_in(field(line, count + 6)) <= 255
            && size_in(field(line, count + 7)) <= 255
    } else {
        count_spaces(line) == count + 4
    }
}

// The quorum numbers of a line with so many numbers: a and b, or the majority for both.
pub(crate) fn quorums_in(line: &[u8], count: usize, boxes: u8) -> Quorums
    requires { (count ≤ 200) × (ended count line.now ≡ true) }
    ensures { result ≡ quorums_in count line.now boxes }
{
    let majority = majorities(boxes);
    if !is_quorums(field(line, count + 5)) {
        return majority;
    }
    let to_decide = size_in(field(line, count + 6)) as u8;
    let to_propose = size_in(field(line, count + 7)) as u8;
    Quorums {
        to_decide,
        to_propose,
    }
}
