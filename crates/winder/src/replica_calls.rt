// Making a replica, and its three steps. A replica is its record.
ghost use Rattle.std.specs.Prelude.{◌≡◌, [], ◌∷◌, ◌++◌, length, take};
ghost use Rattle.lists.specs.Choice.{pick};
ghost use Rattle.octets.specs.Areas.{over};
ghost use Rattle.scram.specs.Answers.{answered};
ghost use Rattle.transmitters.specs.Conversion.{converted_row};
ghost use Rattle.transmitters.specs.Numbers.{readings_of};
ghost use Rattle.replica.specs.Calls.{tick_outcome, give_up_outcome, arrive_outcome, fresh_of};
ghost use Rattle.records.specs.Lengths.{settings_length, record_length};
ghost use Rattle.records.specs.HeldPart.{held_bytes};
ghost use Rattle.records.specs.Recording.{record_answer, recorded};
ghost use Rattle.records.specs.Reading.{is_done};
ghost use Rattle.winder.specs.Answers.{number_of};
ghost use Rattle.winder.specs.ReplicaAreas.{settings_of, step_at, Steps};

use crate::answers::{refusal_number, replica_number, result_number};
use quorums::Quorums;
use records::conditions::layout_ok;
use records::held_part::{held_at, put_held};
use records::lengths::SETTINGS;
use records::reading::{is_done, parts_ok};
use records::recording::write;
use records::settings_part::settings_in;
use refusal::Refusal;
use replica::refusals::short_area;
use replica::{Given, Replica, Settings, fit};
use transmitters::convert_row;
use transmitters::numbers::readings_of;

// The settings in a caller's areas.
fn settings_of(
    n: usize,
    m: usize,
    p: usize,
    a: &[i32; 36],
    l: &[i32; 24],
    c: &[i32; 24],
    k: &[i32; 24],
    low: &[i32; 4],
    high: &[i32; 4],
    start: &[i32; 6],
    boxes: u8,
    own: u8,
    to_decide: u8,
    to_propose: u8,
) -> Settings
    ensures { result ≡ settings_of n m p a.now l.now c.now k.now low.now high.now start.now boxes own to_decide to_propose }
{
    let a = *a;
    let l = *l;
    let c = *c;
    let k = *k;
    let low = *low;
    let high = *high;
    let start = *start;
    let law = law::Settings {
        n,
        m,
        p,
        a,
        l,
        c,
        k,
        low,
        high,
        start,
    };
    let quorums = Quorums {
        to_decide,
        to_propose,
    };
    Settings {
        boxes,
        own,
        quorums,
        law,
    }
}

// Makes a fresh replica.
pub fn winder_make(
    n: usize,
    m: usize,
    p: usize,
    a: &[i32; 36],
    l: &[i32; 24],
    c: &[i32; 24],
    k: &[i32; 24],
    low: &[i32; 4],
    high: &[i32; 4],
    start: &[i32; 6],
    boxes: u8,
    own: u8,
    to_decide: u8,
    to_propose: u8,
    replica: &mut [u8],
) -> u32
    ensures answer { result ≡ number_of (record_answer (settings_of n m p a.now l.now c.now k.now low.now high.now start.now boxes own to_decide to_propose) (length replica.old)) }
    ensures replica { replica.new ≡ over (recorded (fresh_of (settings_of n m p a.now l.now c.now k.now low.now high.now start.now boxes own to_decide to_propose)) (length replica.old)) replica.old }
{
    let settings = settings_of(
        n, m, p, a, l, c, k, low, high, start, boxes, own, to_decide, to_propose,
    );
    match Replica::make(settings) {
        Ok(fresh) => result_number(write(fresh, replica)),
        Err(refusal) => refusal_number(refusal),
    }
}

// What a step leaves: the lengths written and, where it was done, the new record, whose first part stays as it is. What is held is written as it stands: of
// a step on a record it is what a record has of it.
fn leave(given: Given, replica: &mut [u8], lengths: &mut [usize; 2]) -> u32
    requires { length replica.old ≡ record_length }
    ensures answer { result ≡ number_of (answered given.answer) }
    ensures replica { replica.new ≡ pick (is_done (answered given.answer)) (take settings_length replica.old ++ held_bytes given.held) replica.old }
    ensures lengths { lengths.new ≡ given.frame ∷ given.command ∷ [] }
{
    *lengths = [given.frame, given.command];
    let answer = given.answer;
    if !is_done(answer) {
        return replica_number(answer);
    }
    put_held(given.held, replica, SETTINGS);
    0
}

// A tick with readings, each by its kind and its bits.
pub fn winder_tick(
    replica: &mut [u8],
    kinds: &[u8; 4],
    bits: &[u32; 4],
    frame: &mut [u8],
    command: &mut [u8],
    lengths: &mut [usize; 2],
) -> u32
    ensures { Steps replica.old
        (step_at replica.old (λ x. tick_outcome x (converted_row (readings_of kinds.now bits.now)) (length frame.old) (length command.old)))
        result replica.new lengths.new frame.old frame.new command.old command.new }
{
    *lengths = [0, 0];
    if !layout_ok(replica) {
        return refusal_number(Refusal::Record);
    }
    let settings = settings_in(replica);
    if !parts_ok(&settings, replica) {
        return refusal_number(Refusal::Record);
    }
    if short_area(frame.len(), command.len()) {
        return refusal_number(Refusal::Area);
    }
    let held = held_at(replica, SETTINGS);
    let converted = convert_row(readings_of(kinds, bits));
    let given = fit::tick(&settings, held, converted, frame);
    leave(given, replica, lengths)
}

// The view is given up.
pub fn winder_give_up(
    replica: &mut [u8],
    frame: &mut [u8],
    command: &mut [u8],
    lengths: &mut [usize; 2],
) -> u32
    ensures { Steps replica.old
        (step_at replica.old (λ x. give_up_outcome x (length frame.old) (length command.old)))
        result replica.new lengths.new frame.old frame.new command.old command.new }
{
    *lengths = [0, 0];
    if !layout_ok(replica) {
        return refusal_number(Refusal::Record);
    }
    let settings = settings_in(replica);
    if !parts_ok(&settings, replica) {
        return refusal_number(Refusal::Record);
    }
    if short_area(frame.len(), command.len()) {
        return refusal_number(Refusal::Area);
    }
    let held = held_at(replica, SETTINGS);
    let given = fit::give_up(&settings, held, frame);
    leave(given, replica, lengths)
}

// Bytes that arrive as a frame.
pub fn winder_arrive(
    replica: &mut [u8],
    bytes: &[u8],
    frame: &mut [u8],
    command: &mut [u8],
    lengths: &mut [usize; 2],
) -> u32
    ensures { Steps replica.old
        (step_at replica.old (λ x. arrive_outcome x bytes.now (length frame.old) (length command.old)))
        result replica.new lengths.new frame.old frame.new command.old command.new }
{
    *lengths = [0, 0];
    if !layout_ok(replica) {
        return refusal_number(Refusal::Record);
    }
    let settings = settings_in(replica);
    if !parts_ok(&settings, replica) {
        return refusal_number(Refusal::Record);
    }
    if short_area(frame.len(), command.len()) {
        return refusal_number(Refusal::Area);
    }
    let held = held_at(replica, SETTINGS);
    let given = fit::arrive(&settings, held, bytes, frame, command);
    leave(given, replica, lengths)
}
