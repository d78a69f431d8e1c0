// The commands of a state, and whether their limits changed one.
ghost use Rattle.std.specs.Prelude.{◌≡◌, ◌<◌};
ghost use Rattle.law.specs.Settings.{K, lower, upper, settings_in};
ghost use Rattle.law.specs.Law.{command, command_changed, commanded, command_limited};

use crate::fixed::{Changed, divide, limit, sum_of_products};
use crate::{Marked, Standing, Tables};

// Command j, in its own limits.
fn command_value(standing: Standing, x: &[i32; 6], j: usize) -> Changed<i32>
    requires { j < standing.tables.p }
    ensures { (result.value ≡ command (K (settings_in standing.entry.tables)) (lower (settings_in standing.entry.tables)) (upper (settings_in standing.entry.tables)) standing.entry.tables.n x.now j)
        × (result.changed ≡ command_changed (K (settings_in standing.entry.tables)) (lower (settings_in standing.entry.tables)) (upper (settings_in standing.entry.tables)) standing.entry.tables.n x.now j) }
{
    let Tables {
        n,
        k,
        low,
        high,
        ..
    } = standing.tables;
    let value = divide(sum_of_products(k, j * 6, x, n));
    limit(value, low[j], high[j])
}

// The commands, and 0 in the places beyond p.
pub(crate) fn command_values(standing: Standing, x: &[i32; 6]) -> Marked
    ensures { (result.commands ≡ commanded (settings_in standing.entry.tables) x.now)
        × (result.limited ≡ command_limited (settings_in standing.entry.tables) x.now) }
{
    let mut commands = [0; 4];
    let mut limited = false;
    for j in 0..standing.tables.p {
        let one = command_value(standing, x, j);
        commands[j] = one.value;
        limited |= one.changed;
    }
    Marked { commands, limited }
}
