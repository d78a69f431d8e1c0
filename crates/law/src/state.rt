// The state after a period, e(j) of each reading, then x'(i) of each place; and whether clamping changed one of them.
ghost use Rattle.std.specs.Prelude.{◌≡◌, ◌<◌, pos};
ghost use Rattle.lists.specs.Below.{any_below};
ghost use Rattle.lists.specs.Places.{entry, filled};
ghost use Rattle.law.specs.Settings.{A, L, C, settings_in};
ghost use Rattle.law.specs.Law.{e, e_changed, next, next_changed, updated, update_limited};

use crate::fixed::{Changed, clamp_i32, divide, sum_of_products};
use crate::{Standing, Tables, Updated};
use readings::Readings;

// e(j), the innovation: how far a present reading is from what the state predicts.
fn innovation(standing: Standing, x: &[i32; 6], readings: Readings, j: usize) -> Changed<i32>
    requires { j < standing.tables.m }
    ensures { (result.value ≡ e (C (settings_in standing.entry.tables)) standing.entry.tables.n x.now readings j)
        × (result.changed ≡ e_changed (C (settings_in standing.entry.tables)) standing.entry.tables.n x.now readings j) }
{
    if !readings.present[j] {
        return Changed {
            value: 0,
            changed: false,
        };
    }
    let Tables { n, c, .. } = standing.tables;
    let predicted = divide(sum_of_products(c, j * 6, x, n));
    clamp_i32((readings.values[j] as i64) - predicted)
}

// e(j) for each reading, and 0 in the places beyond m.
fn innovations(standing: Standing, x: &[i32; 6], readings: Readings) -> Changed<[i32; 4]>
    ensures { (result.value ≡ filled (pos 0) 4 standing.entry.tables.m (e (C (settings_in standing.entry.tables)) standing.entry.tables.n x.now readings))
        × (result.changed ≡ any_below standing.entry.tables.m (e_changed (C (settings_in standing.entry.tables)) standing.entry.tables.n x.now readings)) }
{
    let mut value = [0; 4];
    let mut changed = false;
    for j in 0..standing.tables.m {
        let one = innovation(standing, x, readings, j);
        value[j] = one.value;
        changed |= one.changed;
    }
    Changed { value, changed }
}

// x'(i), with one division for both sums.
fn next_value(standing: Standing, x: &[i32; 6], e: &[i32; 4], i: usize) -> Changed<i32>
    requires { i < standing.tables.n }
    ensures { (result.value ≡ next (A (settings_in standing.entry.tables)) (L (settings_in standing.entry.tables)) standing.entry.tables.n standing.entry.tables.m x.now (entry e.now) i)
        × (result.changed ≡ next_changed (A (settings_in standing.entry.tables)) (L (settings_in standing.entry.tables)) standing.entry.tables.n standing.entry.tables.m x.now (entry e.now) i) }
{
    let Tables { n, m, a, l, .. } = standing.tables;
    let of_state = sum_of_products(a, i * 6, x, n);
    let of_readings = sum_of_products(l, i * 4, e, m);
    clamp_i32(divide(of_state + of_readings))
}

// The next state, and 0 in the places beyond n.
fn next_state(standing: Standing, x: &[i32; 6], e: &[i32; 4]) -> Changed<[i32; 6]>
    ensures { (result.value ≡ filled (pos 0) 6 standing.entry.tables.n (next (A (settings_in standing.entry.tables)) (L (settings_in standing.entry.tables)) standing.entry.tables.n standing.entry.tables.m x.now (entry e.now)))
        × (result.changed ≡ any_below standing.entry.tables.n (next_changed (A (settings_in standing.entry.tables)) (L (settings_in standing.entry.tables)) standing.entry.tables.n standing.entry.tables.m x.now (entry e.now))) }
{
    let mut value = [0; 6];
    let mut changed = false;
    for i in 0..standing.tables.n {
        let one = next_value(standing, x, e, i);
        value[i] = one.value;
        changed |= one.changed;
    }
    Changed { value, changed }
}

// The state after one period with these readings.
pub(crate) fn updated_state(standing: Standing, x: &[i32; 6], readings: Readings) -> Updated
    ensures { (result.state ≡ updated (settings_in standing.entry.tables) x.now readings)
        × (result.limited ≡ update_limited (settings_in standing.entry.tables) x.now readings) }
{
    let e = innovations(standing, x, readings);
    let next = next_state(standing, x, &e.value);
    let state = next.value;
    Updated {
        state,
        limited: e.changed | next.changed,
    }
}
