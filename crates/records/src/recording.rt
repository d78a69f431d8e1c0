// Recording a replica.
ghost use Rattle.std.specs.Prelude.{◌≡◌, ◌≤◌, length};
ghost use Rattle.octets.specs.Areas.{over};
ghost use Rattle.refusal.specs.Numbers.{number_of};
ghost use Rattle.scram.specs.Answers.{answered_of};
ghost use Rattle.estimate.specs.Fields.{first_states, carried_estimate};
ghost use Rattle.records.specs.Lengths.{record_length};
ghost use Rattle.records.specs.Recording.{recorded_best, recorded_held, record_refusal, record_answer, recorded};

use crate::held_part::put_held;
use crate::lengths::{RECORD, SETTINGS};
use crate::settings_part::put_settings;
use estimate::Estimate;
use refusal::Refusal;
use replica::refusals::check_settings;
use replica::{Best, Held, Replica, Settings, no_best};

// The first n states, and 0 after them.
fn first_states(n: usize, state: [i32; 6]) -> [i32; 6]
    requires { n ≤ 6 }
    ensures { result ≡ first_states n state }
{
    let mut states = state;
    states[n..].fill(0);
    states
}

// An estimate as frames carry it.
#[tactic(auto, unfolding(estimate::specs::Fields::carried_estimate))]
fn carried_estimate(n: usize, m: usize, e: Estimate) -> Estimate
    requires { n ≤ 6 }
    ensures { result ≡ carried_estimate n m e }
{
    Estimate {
        state: first_states(n, e.state),
        readings: readings::normalise(m, e.readings),
    }
}

// What a record has of the best estimate heard.
#[tactic(auto, unfolding(crate::specs::Recording::recorded_best, lists::specs::Choice::pick))]
fn recorded_best(n: usize, m: usize, best: Best) -> Best
    requires { n ≤ 6 }
    ensures { result ≡ recorded_best n m best }
{
    if !best.any {
        return no_best();
    }
    let estimate = carried_estimate(n, m, best.estimate);
    Best { estimate, ..best }
}

// What a record has of what is held.
#[tactic(auto, unfolding(crate::specs::Recording::recorded_held))]
fn recorded_held(n: usize, m: usize, held: Held) -> Held
    requires { n ≤ 6 }
    ensures { result ≡ recorded_held n m held }
{
    let estimate = carried_estimate(n, m, held.estimate);
    let best = recorded_best(n, m, held.best);
    Held {
        estimate,
        best,
        ..held
    }
}

// Copies a record to the start of an area: byte by byte, since the library's copy of a slice would ask a firmware for memmove, and of the C library
// the archive calls memcpy and memset alone (include/winder.h).
pub fn copy(stored: &[u8], area: &mut [u8])
    requires { (length stored.now ≡ record_length) × (record_length ≤ length area.old) }
    ensures { area.new ≡ over stored.now area.old }
{
    for j in 0..RECORD {
        area[j] = stored[j];
    }
}

// Whether recording is refused: by 1 to 4 and 18 for the settings, then by 5 for the area.
pub fn check_recording(settings: &Settings, area: usize) -> Result<(), Refusal>
    ensures { number_of result ≡ record_refusal settings.now area }
{
    check_settings(settings)?;
    if area < RECORD {
        return Err(Refusal::Area);
    }
    Ok(())
}

// Writes the record of a replica to the start of an area.
pub fn write(replica: Replica, area: &mut [u8]) -> Result<(), Refusal>
    ensures answer { answered_of result ≡ record_answer replica.settings (length area.old) }
    ensures area { area.new ≡ over (recorded replica (length area.old)) area.old }
{
    let settings = replica.settings;
    check_recording(&settings, area.len())?;
    put_settings(settings, area);
    let held = recorded_held(settings.law.n, settings.law.m, replica.held);
    put_held(held, area, SETTINGS);
    Ok(())
}
