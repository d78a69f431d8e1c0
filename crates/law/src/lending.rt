// The law's calls on tables that are lent.
ghost use Rattle.std.specs.Prelude.{◌≡◌, IfOk};
ghost use Rattle.refusal.specs.Numbers.{number_of};
ghost use Rattle.law.specs.Settings.{lent, settings_in, refusal};
ghost use Rattle.law.specs.Law.{updated, update_limited, commanded, command_limited, issued};

use crate::commands::command_values;
use crate::ranges::{coefficients_in_range, limits_in_order, sizes_in_range};
use crate::state::updated_state;
use crate::{Marked, Settings, Standing, Tables, Updated};
use readings::Readings;
use refusal::Refusal;

impl Settings {
    // The settings with their tables lent.
    pub fn tables(&self) -> Tables<'_>
        ensures { settings_in result ≡ lent self.now }
    {
        Tables {
            n: self.n,
            m: self.m,
            p: self.p,
            a: &self.a,
            l: &self.l,
            c: &self.c,
            k: &self.k,
            low: &self.low,
            high: &self.high,
        }
    }
}

impl<'a> Tables<'a> {
    // Whether the settings are refused, by the lowest number that refuses them.
    pub fn check(self) -> Result<(), Refusal>
        ensures { number_of result ≡ refusal (settings_in self.entry) }
    {
        if !sizes_in_range(self.n, self.m, self.p) {
            return Err(Refusal::Sizes);
        }
        if !coefficients_in_range(self) {
            return Err(Refusal::Coefficient);
        }
        if !limits_in_order(self.low, self.high, self.p) {
            return Err(Refusal::Limits);
        }
        Ok(())
    }

    // The state after one period with these readings.
    pub fn update(self, state: &[i32; 6], readings: Readings) -> Result<Updated, Refusal>
        ensures answer { number_of result ≡ refusal (settings_in self.entry) }
        ensures state { IfOk result (λ u. u.state ≡ updated (settings_in self.entry) state.now readings) }
        ensures limited { IfOk result (λ u. u.limited ≡ update_limited (settings_in self.entry) state.now readings) }
    {
        self.check()?;
        Ok(Standing { tables: self }.update(state, readings))
    }

    // The commands of a state.
    pub fn command(self, state: &[i32; 6]) -> Result<Marked, Refusal>
        ensures answer { number_of result ≡ refusal (settings_in self.entry) }
        ensures values { IfOk result (λ marked. marked.commands ≡ commanded (settings_in self.entry) state.now) }
        ensures limited { IfOk result (λ marked. marked.limited ≡ command_limited (settings_in self.entry) state.now) }
    {
        self.check()?;
        Ok(Standing { tables: self }.command(state))
    }

    // The state after one period with these readings, of settings that are known to stand.
    pub fn updated(self, state: &[i32; 6], readings: Readings) -> [i32; 6]
        requires { refusal (settings_in self) ≡ 0 }
        ensures { result ≡ updated (settings_in self.entry) state.now readings }
    {
        Standing { tables: self }.update(state, readings).state
    }

    // The commands of the state after one period with these readings, what a box that decides issues, with their mark, of settings that are known to stand.
    pub fn issued(self, state: &[i32; 6], readings: Readings) -> Marked
        requires { refusal (settings_in self) ≡ 0 }
        ensures { result ≡ issued (settings_in self.entry) state.now readings }
    {
        Standing { tables: self }.issue(state, readings)
    }
}

impl<'a> Standing<'a> {
    // The state after one period with these readings.
    pub fn update(self, state: &[i32; 6], readings: Readings) -> Updated
        ensures state { result.state ≡ updated (settings_in self.entry.tables) state.now readings }
        ensures limited { result.limited ≡ update_limited (settings_in self.entry.tables) state.now readings }
    {
        updated_state(self, state, readings)
    }

    // The commands of a state.
    pub fn command(self, state: &[i32; 6]) -> Marked
        ensures values { result.commands ≡ commanded (settings_in self.entry.tables) state.now }
        ensures limited { result.limited ≡ command_limited (settings_in self.entry.tables) state.now }
    {
        command_values(self, state)
    }

    // The commands of the state after one period with these readings, what a box that decides issues, with their mark.
    pub fn issue(self, state: &[i32; 6], readings: Readings) -> Marked
        ensures { result ≡ issued (settings_in self.entry.tables) state.now readings }
    {
        let next = self.update(state, readings);
        let given = self.command(&next.state);
        let commands = given.commands;
        Marked {
            commands,
            limited: next.limited | given.limited,
        }
    }
}
