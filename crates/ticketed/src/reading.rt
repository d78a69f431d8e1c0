// Reading a replica with tickets.
ghost use Rattle.std.specs.Prelude.{◌≡◌, IfSome, length};
ghost use Rattle.std.specs.Option.{is_some};
ghost use Rattle.ticketed.specs.Lengths.{ticketed_length};
ghost use Rattle.ticketed.specs.Reading.{step_record, ticketed_in, head_ok, step_ok, tickets_ok, is_ticketed};

use crate::lengths::{LATEST, LETTER, MARK, STEP, TICKETED, VERSION};
use crate::words::{copy, u64_at};
use records::conditions::zero_at;
use records::lengths::{HELD, RECORD, SETTINGS};
use replica::Replica;

// The letter T, version 1, a mark, and 0 in the bytes that are not in use.
#[tactic(auto, unfolding(crate::specs::Reading::head_ok))]
fn head_ok(area: &[u8]) -> bool
    requires { length area.now ≡ ticketed_length }
    ensures { result ≡ head_ok area.now }
{
    area[LETTER] == b'T' && area[VERSION] == 1 && area[MARK] <= 1 && zero_at(area, 619, 5)
}

// The record that the step of the latest ticket leaves.
fn step_record(area: &[u8]) -> [u8; RECORD]
    requires { length area.now ≡ ticketed_length }
    ensures { result ≡ step_record area.now }
{
    let mut bytes = [0; RECORD];
    copy(area, 0, SETTINGS, &mut bytes, 0);
    copy(area, STEP, HELD, &mut bytes, SETTINGS);
    bytes
}

// A ticket that can be committed is not 0, and its step leaves a record.
fn step_ok(area: &[u8]) -> bool
    requires { length area.now ≡ ticketed_length }
    ensures { result ≡ step_ok area.now }
{
    if area[MARK] != 1 {
        return true;
    }
    if u64_at(area, LATEST) == 0 {
        return false;
    }
    let bytes = step_record(area);
    records::reading::read(&bytes).is_ok()
}

// The length, and the tickets' part.
#[tactic(auto, unfolding(crate::specs::Reading::tickets_ok))]
fn tickets_ok(area: &[u8]) -> bool
    ensures { result ≡ tickets_ok area.now }
{
    area.len() == TICKETED && head_ok(area) && step_ok(area)
}

// Reads a replica with tickets: none where the bytes are not one.
pub(crate) fn read(area: &[u8]) -> Option<Replica>
    ensures found { is_some result ≡ is_ticketed area.now }
    ensures replica { IfSome result (λ replica. replica ≡ (ticketed_in area.now).replica) }
{
    if !tickets_ok(area) {
        return None;
    }
    records::reading::read(&area[..RECORD]).ok()
}
