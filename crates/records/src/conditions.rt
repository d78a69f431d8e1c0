// What refusal 15 looks at, one function for each condition.
ghost use Rattle.std.specs.Prelude.{◌≡◌, true, ◌&&◌, ℕ, ◌+◌, ◌^◌, ◌≤◌, length, get_or, leb, ltb};
ghost use Rattle.lists.specs.Below.{all_below};
ghost use Rattle.estimate.specs.Marks.{marks_below};
ghost use Rattle.records.specs.Lengths.{settings_length, record_length};
ghost use Rattle.records.specs.HeldPart.{heard_at, held_at};
ghost use Rattle.records.specs.Reading.{layout_ok, states_ok, zero_at, is_box, bytes_mean, heard_ok, estimate_ok, held_ok};

use crate::held_part::{best_at, estimate_at};
use crate::lengths::RECORD;
use crate::settings_part::{LETTER, VERSION};
use estimate::Estimate;
use estimate::marks::{absent_zero, marks_below};
use octets::word::u32_at;
use replica::Best;

// The length, the letter and the version.
#[tactic(auto, unfolding(crate::specs::Reading::layout_ok))]
pub fn layout_ok(bytes: &[u8]) -> bool
    ensures { result ≡ layout_ok bytes.now }
{
    bytes.len() == RECORD && bytes[0] == LETTER && bytes[1] == VERSION
}

// The bits that are set in any of as many bytes from an offset on: they are below a power of two exactly where each of the bytes is. There is no way out
// before the end, so that the loop can be vectorised.
fn joined(bytes: &[u8], at: usize, count: usize) -> u8
    requires { at + count ≤ length bytes.now }
    ensures { (k : ℕ) → ltb result (2 ^ k) ≡ all_below count (λ i. ltb (get_or bytes.now (at + i) 0) (2 ^ k)) }
{
    bytes[at..at + count]
        .iter()
        .fold(0, |bits, &byte| bits | byte)
}

// Whether as many bytes from an offset on are 0.
pub fn zero_at(bytes: &[u8], at: usize, count: usize) -> bool
    requires { at + count ≤ length bytes.now }
    ensures { result ≡ zero_at bytes.now at count }
{
    joined(bytes, at, count) == 0
}

// Whether as many bytes from an offset on are 0 or 1.
fn marks_at(bytes: &[u8], at: usize, count: usize) -> bool
    requires { at + count ≤ length bytes.now }
    ensures { result ≡ all_below count (λ i. leb (get_or bytes.now (at + i) 0) 1) }
{
    joined(bytes, at, count) <= 1
}

// Mode, decided, the boxes heard, and whether there is a best estimate: 0 or 1.
fn bytes_mean(bytes: &[u8]) -> bool
    requires { length bytes.now ≡ record_length }
    ensures { result ≡ bytes_mean bytes.now }
{
    marks_at(bytes, 512, 12) & (bytes[565] <= 1)
}

// Whether a number is that of a box of the group.
fn is_box(boxes: u8, j: u8) -> bool
    ensures { result ≡ is_box boxes j }
{
    (1..=boxes).contains(&j)
}

// Every box heard is one of the group: no mark at place 0, and none above the number of boxes. The bytes are joined, so that there is no way out before
// the end. A byte above 1 would be no mark, and yet not 0: so bytes_mean comes first.
fn heard_ok(boxes: u8, bytes: &[u8]) -> bool
    requires { (length bytes.now ≡ record_length) × (bytes_mean bytes.now ≡ true) }
    ensures { result ≡ heard_ok boxes (heard_at bytes.now 514) }
{
    let last = boxes as usize;
    let mut bits = bytes[514];
    for j in 1..10 {
        if last < j {
            bits |= bytes[514 + j];
        }
    }
    bits == 0
}

// A state's places from n on are 0. By index: a proof has no range of what `skip(n).all` hands to its closure, and needs it to tell bits of 0 from 0.
fn states_ok(n: usize, state: [i32; 6]) -> bool
    ensures { result ≡ states_ok n state }
{
    for i in n..6 {
        if state[i] != 0 {
            return false;
        }
    }
    true
}

// An estimate's unused states, and its absent values.
#[tactic(auto, unfolding(crate::specs::Reading::estimate_ok, crate::specs::Reading::values_ok))]
fn estimate_ok(n: usize, e: Estimate) -> bool
    ensures { result ≡ estimate_ok n e }
{
    states_ok(n, e.state) && absent_zero(4, e.readings)
}

// The estimate: no present mark at or above m, no base above its counter, and 0 in all that is not in use.
fn own_ok(
    n: usize,
    m: usize,
    marks: u8,
    view: u32,
    period: u32,
    base_view: u32,
    base_period: u32,
    e: Estimate,
) -> bool
    requires { (1 ≤ m) × (m ≤ 4) }
    ensures { result ≡ (marks_below m marks && (leb base_view view && (leb base_period period && estimate_ok n e))) }
{
    marks_below(m, marks) && base_view <= view && base_period <= period && estimate_ok(n, e)
}

// A best estimate where there is one: it is of a box of the group, and the same is asked of it.
fn other_ok(boxes: u8, n: usize, m: usize, marks: u8, view: u32, period: u32, best: Best) -> bool
    requires { (1 ≤ m) × (m ≤ 4) }
    ensures { result ≡ (is_box boxes best.box_number && (marks_below m marks && (leb best.base_view view && (leb best.base_period period && estimate_ok n best.estimate)))) }
{
    is_box(boxes, best.box_number)
        && own_ok(
            n,
            m,
            marks,
            view,
            period,
            best.base_view,
            best.base_period,
            best.estimate,
        )
}

// What is asked of what is held, one condition after the other. Each reads only the bytes that it asks about: reading all that is held first would take
// longer. A best estimate is looked at only where there is one: where there is none, its bytes are 0, and nothing else is to be asked of it.
pub(crate) fn held_ok(boxes: u8, n: usize, m: usize, bytes: &[u8]) -> bool
    requires { (length bytes.now ≡ record_length) × (1 ≤ m) × (m ≤ 4) }
    ensures { result ≡ held_ok boxes n m (held_at bytes.now settings_length) bytes.now }
{
    if !bytes_mean(bytes) {
        return false;
    }
    if !heard_ok(boxes, bytes) {
        return false;
    }
    let view = u32_at(bytes, 500);
    let period = u32_at(bytes, 496);
    let own = estimate_at(bytes, 524);
    if !own_ok(
        n,
        m,
        bytes[548],
        view,
        period,
        u32_at(bytes, 504),
        u32_at(bytes, 508),
        own,
    ) {
        return false;
    }
    if bytes[565] == 0 {
        return zero_at(bytes, 566, 50);
    }
    let best = best_at(bytes, 565);
    other_ok(boxes, n, m, bytes[599], view, period, best)
}
