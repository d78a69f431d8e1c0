// Making, and the three steps. A step takes the settings, what is held, what its event needs, and the two lent areas.
ghost use Rattle.std.specs.Prelude.{length};
ghost use Rattle.replica.specs.Calls.{tick_outcome, give_up_outcome, arrive_outcome};
ghost use Rattle.transmitters.specs.Conversion.{converted_row};
ghost use Rattle.transmitters.specs.Numbers.{readings_of};
ghost use Rattle.steps.specs.Areas.{settings_of, areas};
ghost use Rattle.steps.specs.Calls.{replica_of, Makes, Leaves};

use crate::areas::{held_of, put_held, put_step, settings_of};
use replica::Replica;
use transmitters::numbers::readings_of;
use winder::answers::refusal_number;

// A fresh replica.
#[unsafe(no_mangle)]
pub extern "C" fn steps_make(
    group: &[u8; 4],
    sizes: &[usize; 3],
    a: &[i32; 36],
    l: &[i32; 24],
    c: &[i32; 24],
    k: &[i32; 24],
    low: &[i32; 4],
    high: &[i32; 4],
    start: &[i32; 6],
    counters: &mut [u32; 6],
    marks: &mut [u8; 4],
    heard: &mut [u8; 10],
    state: &mut [i32; 6],
    present: &mut [u8; 4],
    values: &mut [i32; 4],
    best_state: &mut [i32; 6],
    best_present: &mut [u8; 4],
    best_values: &mut [i32; 4],
) -> u32
    ensures { Makes
        (settings_of group.now sizes.now a.now l.now c.now k.now low.now
        high.now start.now)
        result
        (areas counters.new marks.new heard.new state.new present.new values.new
        best_state.new best_present.new best_values.new) }
{
    let made = Replica::make(settings_of(group, sizes, a, l, c, k, low, high, start));
    let fresh = made.unwrap_or(replica::blank());
    let held = fresh.held;
    put_held(
        held,
        counters,
        marks,
        heard,
        state,
        present,
        values,
        best_state,
        best_present,
        best_values,
    );
    match made {
        Ok(_) => 0,
        Err(refusal) => refusal_number(refusal),
    }
}

// A tick with readings, each by its kind and its bits.
#[unsafe(no_mangle)]
pub extern "C" fn steps_tick(
    group: &[u8; 4],
    sizes: &[usize; 3],
    a: &[i32; 36],
    l: &[i32; 24],
    c: &[i32; 24],
    k: &[i32; 24],
    low: &[i32; 4],
    high: &[i32; 4],
    start: &[i32; 6],
    counters: &mut [u32; 6],
    marks: &mut [u8; 4],
    heard: &mut [u8; 10],
    state: &mut [i32; 6],
    present: &mut [u8; 4],
    values: &mut [i32; 4],
    best_state: &mut [i32; 6],
    best_present: &mut [u8; 4],
    best_values: &mut [i32; 4],
    kinds: &[u8; 4],
    bits: &[u32; 4],
    frame: &mut [u8],
    command: &mut [u8],
    lengths: &mut [usize; 2],
) -> u32
    ensures { Leaves
        (replica_of
        (settings_of group.now sizes.now a.now l.now c.now k.now low.now
        high.now start.now)
        (areas counters.old marks.old heard.old state.old present.old values.old
        best_state.old best_present.old best_values.old))
        (λ replica. tick_outcome replica (converted_row (readings_of kinds.now bits.now))
        (length frame.old) (length command.old))
        result
        (areas counters.new marks.new heard.new state.new present.new values.new
        best_state.new best_present.new best_values.new)
        lengths.new frame.old frame.new command.old command.new }
{
    let settings = settings_of(group, sizes, a, l, c, k, low, high, start);
    let held = held_of(
        counters,
        marks,
        heard,
        state,
        present,
        values,
        best_state,
        best_present,
        best_values,
    );
    let replica = Replica { settings, held };
    let readings = readings_of(kinds, bits);
    let stepped = replica.tick(readings, frame, command);
    put_step(
        stepped,
        counters,
        marks,
        heard,
        state,
        present,
        values,
        best_state,
        best_present,
        best_values,
        lengths,
    )
}

// A view given up.
#[unsafe(no_mangle)]
pub extern "C" fn steps_give_up(
    group: &[u8; 4],
    sizes: &[usize; 3],
    a: &[i32; 36],
    l: &[i32; 24],
    c: &[i32; 24],
    k: &[i32; 24],
    low: &[i32; 4],
    high: &[i32; 4],
    start: &[i32; 6],
    counters: &mut [u32; 6],
    marks: &mut [u8; 4],
    heard: &mut [u8; 10],
    state: &mut [i32; 6],
    present: &mut [u8; 4],
    values: &mut [i32; 4],
    best_state: &mut [i32; 6],
    best_present: &mut [u8; 4],
    best_values: &mut [i32; 4],
    frame: &mut [u8],
    command: &mut [u8],
    lengths: &mut [usize; 2],
) -> u32
    ensures { Leaves
        (replica_of
        (settings_of group.now sizes.now a.now l.now c.now k.now low.now
        high.now start.now)
        (areas counters.old marks.old heard.old state.old present.old values.old
        best_state.old best_present.old best_values.old))
        (λ replica. give_up_outcome replica (length frame.old) (length command.old))
        result
        (areas counters.new marks.new heard.new state.new present.new values.new
        best_state.new best_present.new best_values.new)
        lengths.new frame.old frame.new command.old command.new }
{
    let settings = settings_of(group, sizes, a, l, c, k, low, high, start);
    let held = held_of(
        counters,
        marks,
        heard,
        state,
        present,
        values,
        best_state,
        best_present,
        best_values,
    );
    let replica = Replica { settings, held };
    let stepped = replica.give_up(frame, command);
    put_step(
        stepped,
        counters,
        marks,
        heard,
        state,
        present,
        values,
        best_state,
        best_present,
        best_values,
        lengths,
    )
}

// Bytes that arrive.
#[unsafe(no_mangle)]
pub extern "C" fn steps_arrive(
    group: &[u8; 4],
    sizes: &[usize; 3],
    a: &[i32; 36],
    l: &[i32; 24],
    c: &[i32; 24],
    k: &[i32; 24],
    low: &[i32; 4],
    high: &[i32; 4],
    start: &[i32; 6],
    counters: &mut [u32; 6],
    marks: &mut [u8; 4],
    heard: &mut [u8; 10],
    state: &mut [i32; 6],
    present: &mut [u8; 4],
    values: &mut [i32; 4],
    best_state: &mut [i32; 6],
    best_present: &mut [u8; 4],
    best_values: &mut [i32; 4],
    bytes: &[u8],
    frame: &mut [u8],
    command: &mut [u8],
    lengths: &mut [usize; 2],
) -> u32
    ensures { Leaves
        (replica_of
        (settings_of group.now sizes.now a.now l.now c.now k.now low.now
        high.now start.now)
        (areas counters.old marks.old heard.old state.old present.old values.old
        best_state.old best_present.old best_values.old))
        (λ replica. arrive_outcome replica bytes.now (length frame.old) (length command.old))
        result
        (areas counters.new marks.new heard.new state.new present.new values.new
        best_state.new best_present.new best_values.new)
        lengths.new frame.old frame.new command.old command.new }
{
    let settings = settings_of(group, sizes, a, l, c, k, low, high, start);
    let held = held_of(
        counters,
        marks,
        heard,
        state,
        present,
        values,
        best_state,
        best_present,
        best_values,
    );
    let replica = Replica { settings, held };
    let stepped = replica.arrive(bytes, frame, command);
    put_step(
        stepped,
        counters,
        marks,
        heard,
        state,
        present,
        values,
        best_state,
        best_present,
        best_values,
        lengths,
    )
}
