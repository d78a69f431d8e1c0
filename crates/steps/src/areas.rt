// The areas of a caller as a replica, and back.
ghost use Rattle.std.specs.Prelude.{◌≡◌};
ghost use Rattle.steps.specs.Areas.{settings_of, areas, heard_of, heard_marks, held_of, areas_of};
ghost use Rattle.steps.specs.Calls.{Laid};

use estimate::Estimate;
use quorums::Quorums;
use replica::{Best, Held, Settings, Stepped};
use winder::answers::replica_number;
use winder::areas::{mark_byte, marks_of, readings_of};

pub(crate) fn settings_of(
    group: &[u8; 4],
    sizes: &[usize; 3],
    a: &[i32; 36],
    l: &[i32; 24],
    c: &[i32; 24],
    k: &[i32; 24],
    low: &[i32; 4],
    high: &[i32; 4],
    start: &[i32; 6],
) -> Settings
    ensures { result ≡ settings_of group.now sizes.now a.now l.now c.now k.now
        low.now high.now start.now }
{
    let a = *a;
    let l = *l;
    let c = *c;
    let k = *k;
    let low = *low;
    let high = *high;
    let start = *start;
    let law = law::Settings {
        n: sizes[0],
        m: sizes[1],
        p: sizes[2],
        a,
        l,
        c,
        k,
        low,
        high,
        start,
    };
    let quorums = Quorums {
        to_decide: group[2],
        to_propose: group[3],
    };
    Settings {
        boxes: group[0],
        own: group[1],
        quorums,
        law,
    }
}

// A box is heard where its mark is not 0. Place by place, here and below: with `map` the search does not close `returns`.
fn heard_of(heard: &[u8; 10]) -> [bool; 10]
    ensures { result ≡ heard_of heard.now }
{
    [
        heard[0] != 0,
        heard[1] != 0,
        heard[2] != 0,
        heard[3] != 0,
        heard[4] != 0,
        heard[5] != 0,
        heard[6] != 0,
        heard[7] != 0,
        heard[8] != 0,
        heard[9] != 0,
    ]
}

pub(crate) fn held_of(
    counters: &[u32; 6],
    marks: &[u8; 4],
    heard: &[u8; 10],
    state: &[i32; 6],
    present: &[u8; 4],
    values: &[i32; 4],
    best_state: &[i32; 6],
    best_present: &[u8; 4],
    best_values: &[i32; 4],
) -> Held
    ensures { result ≡ held_of (areas counters.now marks.now heard.now state.now present.now
        values.now best_state.now best_present.now best_values.now) }
{
    let readings = readings_of(present, values);
    let state = *state;
    let estimate = Estimate { state, readings };
    let readings = readings_of(best_present, best_values);
    let state = *best_state;
    let best_estimate = Estimate { state, readings };
    let best = Best {
        any: marks[2] != 0,
        box_number: marks[3],
        base_view: counters[4],
        base_period: counters[5],
        estimate: best_estimate,
    };
    let heard = heard_of(heard);
    Held {
        period: counters[0],
        view: counters[1],
        base_view: counters[2],
        view_change: marks[0] != 0,
        decided: marks[1] != 0,
        estimate,
        base_period: counters[3],
        heard,
        best,
    }
}

// 1 for a box heard, else 0.
fn heard_marks(heard: [bool; 10]) -> [u8; 10]
    ensures { result ≡ heard_marks heard }
{
    [
        mark_byte(heard[0]),
        mark_byte(heard[1]),
        mark_byte(heard[2]),
        mark_byte(heard[3]),
        mark_byte(heard[4]),
        mark_byte(heard[5]),
        mark_byte(heard[6]),
        mark_byte(heard[7]),
        mark_byte(heard[8]),
        mark_byte(heard[9]),
    ]
}

// Lays out what a replica holds.
pub(crate) fn put_held(
    held: Held,
    counters: &mut [u32; 6],
    marks: &mut [u8; 4],
    heard: &mut [u8; 10],
    state: &mut [i32; 6],
    present: &mut [u8; 4],
    values: &mut [i32; 4],
    best_state: &mut [i32; 6],
    best_present: &mut [u8; 4],
    best_values: &mut [i32; 4],
)
    ensures { areas counters.new marks.new heard.new state.new present.new
        values.new best_state.new best_present.new best_values.new ≡ areas_of held }
{
    let estimate = held.estimate;
    let best = held.best;
    let best_estimate = best.estimate;
    *counters = [
        held.period,
        held.view,
        held.base_view,
        held.base_period,
        best.base_view,
        best.base_period,
    ];
    *marks = [
        mark_byte(held.view_change),
        mark_byte(held.decided),
        mark_byte(best.any),
        best.box_number,
    ];
    let boxes = held.heard;
    *heard = heard_marks(boxes);
    let x = estimate.state;
    *state = x;
    let readings = estimate.readings;
    *present = marks_of(readings);
    let y = readings.values;
    *values = y;
    let x = best_estimate.state;
    *best_state = x;
    let readings = best_estimate.readings;
    *best_present = marks_of(readings);
    let y = readings.values;
    *best_values = y;
}

// Lays out what a step gives, and its answer as a number.
pub(crate) fn put_step(
    stepped: Stepped,
    counters: &mut [u32; 6],
    marks: &mut [u8; 4],
    heard: &mut [u8; 10],
    state: &mut [i32; 6],
    present: &mut [u8; 4],
    values: &mut [i32; 4],
    best_state: &mut [i32; 6],
    best_present: &mut [u8; 4],
    best_values: &mut [i32; 4],
    lengths: &mut [usize; 2],
) -> u32
    ensures { Laid stepped result (areas counters.new marks.new heard.new state.new present.new
        values.new best_state.new best_present.new best_values.new) lengths.new }
{
    let replica = stepped.replica;
    let held = replica.held;
    put_held(
        held,
        counters,
        marks,
        heard,
        state,
        present,
        values,
        best_state,
        best_present,
        best_values,
    );
    *lengths = [stepped.frame, stepped.command];
    let answer = stepped.answer;
    replica_number(answer)
}
