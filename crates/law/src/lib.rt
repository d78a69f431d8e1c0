// The controller's law in fixed point: its settings, the update of a state and the commands.
#![tactic(auto)]

mod commands;
mod fixed;
mod lending;
mod ranges;
mod state;

ghost use Rattle.std.specs.Prelude.{◌≡◌, IfOk};
ghost use Rattle.refusal.specs.Numbers.{number_of};
ghost use Rattle.law.specs.Settings.{settings_in, refusal};
ghost use Rattle.law.specs.Law.{updated, update_limited, commanded, command_limited};

use readings::Readings;
use refusal::Refusal;

// n states, m readings and p commands. A(i,j) is a[i * 6 + j], L(i,j) is l[i * 4 + j], C(j,i) is c[j * 6 + i] and K(j,i) is k[j * 6 + i],
// all counted from 0. Command j has the limits low[j] and high[j], and start is the starting state. Places beyond n, m and p are not looked at.
#[derive(Clone, Copy)]
pub struct Settings {
    pub n: usize,
    pub m: usize,
    pub p: usize,
    pub a: [i32; 36],
    pub l: [i32; 24],
    pub c: [i32; 24],
    pub k: [i32; 24],
    pub low: [i32; 4],
    pub high: [i32; 4],
    pub start: [i32; 6],
}

// Settings whose tables are lent, each laid out as the field of `Settings` of its name. The law does not look at the starting state. No call on them copies a
// table.
#[derive(Clone, Copy)]
pub struct Tables<'a> {
    pub n: usize,
    pub m: usize,
    pub p: usize,
    pub a: &'a [i32; 36],
    pub l: &'a [i32; 24],
    pub c: &'a [i32; 24],
    pub k: &'a [i32; 24],
    pub low: &'a [i32; 4],
    pub high: &'a [i32; 4],
}

// Settings with their tables lent that are known to stand, as after a `check`: no call on them looks at that again. `check` does not return one, since handing
// it out and on takes 20 instructions a step.
#[derive(Clone, Copy)]
pub struct Standing<'a> {
    pub tables: Tables<'a>,
    pub ghost stands: { refusal (settings_in tables) ≡ 0 },
}

// The state after a period. It is limited where clamping changed a value on the way to it; the state counts either way, so this is no `Option`.
#[derive(Clone, Copy)]
pub struct Updated {
    pub state: [i32; 6],
    pub limited: bool,
}

// Commands with their mark: whether clamping or limits changed a value on the way to them. They count either way, so this is no `Option`.
#[derive(Clone, Copy)]
pub struct Marked {
    pub commands: [i32; 4],
    pub limited: bool,
}

// Whether the settings are refused, by the lowest number that refuses them.
pub fn check(settings: Settings) -> Result<(), Refusal>
    ensures { number_of result ≡ refusal settings }
{
    settings.tables().check()
}

// The state after one period with these readings.
pub fn update(settings: Settings, state: [i32; 6], readings: Readings) -> Result<Updated, Refusal>
    ensures answer { number_of result ≡ refusal settings }
    ensures state { IfOk result (λ u. u.state ≡ updated settings state readings) }
    ensures limited { IfOk result (λ u. u.limited ≡ update_limited settings state readings) }
{
    settings.tables().update(&state, readings)
}

// The commands of a state.
pub fn command(settings: Settings, state: [i32; 6]) -> Result<Marked, Refusal>
    ensures answer { number_of result ≡ refusal settings }
    ensures values { IfOk result (λ marked. marked.commands ≡ commanded settings state) }
    ensures limited { IfOk result (λ marked. marked.limited ≡ command_limited settings state) }
{
    settings.tables().command(&state)
}
