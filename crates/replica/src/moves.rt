// What is held after each move: the next period, a view entered, a frame adopted, an estimate proposed, a box heard; and what is made.
ghost use Rattle.std.specs.Prelude.{◌≡◌, ◌<◌, ◌≤◌, pos};
ghost use Rattle.lists.specs.Places.{entry, filled};
ghost use Rattle.readings.specs.Readings.{normalised};
ghost use Rattle.scram.specs.Held as Scram;
ghost use Rattle.scram.specs.Events as Events;
ghost use Rattle.scram.specs.Quorum.{nobody, with};
ghost use Rattle.law.specs.declared.Settings as Law;
ghost use Rattle.replica.specs.Settings.{law_of, blank_settings};
ghost use Rattle.replica.specs.Held.{estimate_in, best_in, held_in, best_of, held_of};

use crate::{Best, Held, Replica, Settings};
use estimate::Estimate;
use quorums::Quorums;
use readings::Readings;

// No estimate heard yet.
pub fn no_best() -> Best
    ensures { (law : Law.Settings) → result ≡ best_of (Scram.no_best (law_of law)) }
{
    Best {
        any: false,
        box_number: 0,
        base_view: 0,
        base_period: 0,
        estimate: estimate::no_estimate(),
    }
}

// The boxes heard where it is one alone.
fn only(own: u8) -> [bool; 10]
    requires { own < 10 }
    ensures { result ≡ with nobody own }
{
    with_box([false; 10], own)
}

// The boxes heard, with one more.
pub(crate) fn with_box(heard: [bool; 10], box_number: u8) -> [bool; 10]
    requires { box_number < 10 }
    ensures { result ≡ with heard box_number }
{
    let mut more = heard;
    more[box_number as usize] = true;
    more
}

// The first n values, and 0 after them.
fn first_values(values: [i32; 6], n: usize) -> [i32; 6]
    requires { n ≤ 6 }
    ensures { result ≡ filled (pos 0) 6 n (entry values) }
{
    let mut first = [0; 6];
    first[..n].copy_from_slice(&values[..n]);
    first
}

// Settings of nothing.
pub(crate) fn blank_settings() -> Settings
    ensures { result ≡ blank_settings }
{
    Settings {
        boxes: 0,
        own: 0,
        quorums: Quorums {
            to_decide: 0,
            to_propose: 0,
        },
        law: law::Settings {
            n: 0,
            m: 0,
            p: 0,
            a: [0; 36],
            l: [0; 24],
            c: [0; 24],
            k: [0; 24],
            low: [0; 4],
            high: [0; 4],
            start: [0; 6],
        },
    }
}

// The fresh replica of settings.
pub(crate) fn fresh(settings: Settings) -> Replica
    requires { settings.law.n ≤ 6 }
    ensures { result ≡ record { settings = settings; held = held_of (Scram.fresh (law_of settings.law)) } }
{
    let estimate = Estimate {
        state: first_values(settings.law.start, settings.law.n),
        readings: readings::no_readings(),
    };
    let held = Held {
        period: 0,
        view: 0,
        base_view: 0,
        view_change: false,
        decided: false,
        estimate,
        base_period: 0,
        heard: [false; 10],
        best: no_best(),
    };
    Replica { settings, held }
}

// The next period, which starts from the state that an update of the estimate gave, but for the first tick.
pub(crate) fn ticked(held: Held, m: usize, updated: [i32; 6], readings: Readings) -> Held
    requires { held.period < 4294967295 }
    ensures { (law : Law.Settings) → updated ≡ (law_of law).update held.estimate.state held.estimate.readings
        → result ≡ held_of (Events.ticked (law_of law) (held_in held) (normalised m readings)) }
{
    let taken = readings::normalise(m, readings);
    Held {
        period: held.period + 1,
        decided: false,
        estimate: next_estimate(held, updated, taken),
        heard: [false; 10],
        best: no_best(),
        ..held
    }
}

// The estimate that the next period starts with: the readings taken, and no update on the first tick.
fn next_estimate(held: Held, updated: [i32; 6], taken: Readings) -> Estimate
    ensures { (law : Law.Settings) → updated ≡ (law_of law).update held.estimate.state held.estimate.readings
        → result ≡ record { state = Events.next_state (law_of law) (held_in held); readings = taken } }
{
    let state = if held.period == 0 {
        held.estimate.state
    } else {
        updated
    };
    Estimate {
        state,
        readings: taken,
    }
}

// A view entered as its coordinator.
pub(crate) fn entered(own: u8, held: Held, view: u32) -> Held
    requires { own < 10 }
    ensures { result ≡ held_of (Events.entered own (held_in held) view) }
{
    Held {
        view,
        view_change: true,
        heard: only(own),
        best: Best {
            any: true,
            box_number: own,
            base_view: held.base_view,
            base_period: held.base_period,
            estimate: held.estimate,
        },
        ..held
    }
}

// A view entered as another box.
pub(crate) fn following(held: Held, view: u32) -> Held
    ensures { (law : Law.Settings) → result ≡ held_of (Events.following (law_of law) (held_in held) view) }
{
    Held {
        view,
        view_change: false,
        heard: [false; 10],
        best: no_best(),
        ..held
    }
}

// View and estimate adopted from a frame.
pub(crate) fn adopting(held: Held, view: u32, estimate: Estimate, decided: bool) -> Held
    ensures { (law : Law.Settings) → result ≡ held_of (Events.adopting (law_of law) (held_in held) view (estimate_in estimate) decided) }
{
    Held {
        view,
        base_view: view,
        view_change: false,
        decided,
        estimate,
        base_period: held.period,
        heard: [false; 10],
        best: no_best(),
        ..held
    }
}

// An estimate proposed, with the coordinator's own acknowledgement.
pub(crate) fn proposing(own: u8, held: Held, estimate: Estimate) -> Held
    requires { own < 10 }
    ensures { (law : Law.Settings) → result ≡ held_of (Events.proposing (law_of law) own (held_in held) (estimate_in estimate)) }
{
    let acknowledged = only(own);
    Held {
        heard: acknowledged,
        ..adopting(held, held.view, estimate, held.decided)
    }
}

// One box more heard, and the best estimate then.
pub(crate) fn hearing(held: Held, box_number: u8, best: Best, decided: bool) -> Held
    requires { box_number < 10 }
    ensures { result ≡ held_of (Events.hearing (held_in held) box_number (best_in best) decided) }
{
    Held {
        decided,
        heard: with_box(held.heard, box_number),
        best,
        ..held
    }
}

// The better of two estimates.
#[tactic(auto, unfolding(scram::specs::Events::better, lists::specs::Choice::pick))]
pub(crate) fn better(b: Best, c: Best) -> Best
    ensures { result ≡ best_of (Events.better (best_in b) (best_in c)) }
{
    if !b.any
        || scram::quorum::beats(
            c.base_view,
            c.base_period,
            c.box_number,
            b.base_view,
            b.base_period,
            b.box_number,
        )
    {
        c
    } else {
        b
    }
}
