// What is wrong with a first line of `rig`, for its message on standard error.
ghost use Rattle.std.specs.Prelude.{◌≡◌, ◌≤◌};
ghost use Rattle.opening.specs.Wrong.{is_right, first_wrong, needed as Wrong·needed, wrong_quorum, wrong_end, wrong_form, wrong_settings, wrong_in};

use crate::ending::is_quorums;
use crate::{Sizes, Unopened, is_rig, open, size_in, sizes_in, sizes_refusal, starts_of};
use line::fields::{count_spaces, field};
use refusal::Refusal;
use replica::{Replica, Settings};
use text::numbers::number_in;

// A field (counted from 1), a quorum number (by its field, counted from 1), how many fields there are and how many are needed, or the settings,
// by their refusal.
#[derive(Clone, Copy)]
pub enum Wrong {
    Field(usize),
    Quorum(usize),
    Fields(usize, usize),
    Refused(Refusal),
}

// Whether a word is what field k should be.
#[tactic(auto, unfolding(crate::specs::Wrong::is_right, lists::specs::Choice::pick))]
fn is_right(k: usize, word: &[u8]) -> bool
    ensures { result ≡ is_right k word.now }
{
    if k == 0 {
        return is_rig(word);
    }
    if k < 5 {
        return size_in(word) <= 255;
    }
    number_in(word).is_some()
}

// The first of so many fields that is not what it should be.
fn first_wrong(line: &[u8], count: usize) -> usize
    ensures { (result ≡ first_wrong line.now 0 count) × (result ≤ count) }
{
    for k in 0..count {
        if !is_right(k, field(line, k)) {
            return k;
        }
    }
    count
}

// How many fields a line with these sizes needs.
fn needed(s: Sizes) -> usize
    ensures { (result ≡ Wrong·needed s) × (result ≤ 205) }
{
    if sizes_refusal(s).is_some() {
        return 5;
    }
    let at = starts_of(s.n, s.m, s.p);
    at.count + 5
}

// Whether field k of so many is there, and is no number from 0 to 255.
#[tactic(auto, unfolding(crate::specs::Wrong::wrong_quorum))]
fn is_wrong_quorum(line: &[u8], fields: usize, k: usize) -> bool
    ensures { result ≡ wrong_quorum line.now fields k }
{
    k < fields && 255 < size_in(field(line, k))
}

// What is wrong behind so many fields that a line needs.
#[tactic(auto, unfolding(crate::specs::Wrong::wrong_end, lists::specs::Choice::pick))]
fn wrong_end(line: &[u8], fields: usize, needs: usize) -> Wrong
    requires { needs ≤ 205 }
    ensures { result ≡ wrong_end line.now fields needs }
{
    if !is_quorums(field(line, needs)) {
        return Wrong::Fields(fields, needs);
    }
    if is_wrong_quorum(line, fields, needs + 1) {
        return Wrong::Quorum(needs + 2);
    }
    if is_wrong_quorum(line, fields, needs + 2) {
        return Wrong::Quorum(needs + 3);
    }
    Wrong::Fields(fields, needs + 3)
}

// What is wrong with the form of a line that has so many fields.
#[tactic(auto, unfolding(crate::specs::Wrong::wrong_form, lists::specs::Choice::pick))]
fn wrong_form(line: &[u8], fields: usize, needs: usize) -> Wrong
    requires { needs ≤ 205 }
    ensures { result ≡ wrong_form line.now fields needs }
{
    let count = fields.min(needs);
    let k = first_wrong(line, count);
    if k < count {
        return Wrong::Field(k + 1);
    }
    wrong_end(line, fields, needs)
}

// What is wrong with settings.
fn wrong_settings(settings: Settings) -> Option<Wrong>
    ensures { result ≡ wrong_settings settings }
{
    Replica::make(settings).err().map(Wrong::Refused)
}

// What is wrong with a line.
#[tactic(auto, unfolding(crate::specs::Wrong::wrong_in, crate::specs::Wrong::wrong_by))]
pub fn wrong_in(line: &[u8]) -> Option<Wrong>
    ensures { result ≡ wrong_in line.now }
{
    match open(line) {
        Ok(settings) => wrong_settings(settings),
        Err(Unopened::Refused(refusal)) => Some(Wrong::Refused(refusal)),
        Err(Unopened::Bad) => Some(wrong_form(
            line,
            count_spaces(line) + 1,
            needed(sizes_in(line)),
        )),
    }
}
