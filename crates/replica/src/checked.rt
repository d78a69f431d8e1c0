// Steps of a replica whose settings and areas are looked at first, once in a step. Each is a match of two arms: one function of them, with the step as a
// closure that captures the areas, would be no plainer.
ghost use Rattle.std.specs.Prelude.{List, ℕ, length};
ghost use Rattle.replica.specs.Calls.{tick_outcome, give_up_outcome, arrive_outcome};
ghost use Rattle.replica.specs.Rules.{Does};

use crate::refusals::{check_step, refused};
use crate::{Given, Held, Settings, fit};
use readings::Readings;

// A tick with converted readings. Of the command area only the length is looked at.
pub(crate) fn tick(
    settings: &Settings,
    held: Held,
    readings: Readings,
    frame: &mut [u8],
    command: usize,
) -> Given
    ensures { (area : List ℕ) → Does settings.now.law.n settings.now.law.m settings.now.law.p
        (tick_outcome (record { settings = settings.now; held = held }) readings (length frame.old) command) result frame.old frame.new area area }
{
    match check_step(settings, frame.len(), command) {
        Ok(()) => fit::tick(settings, held, readings, frame),
        Err(refusal) => refused(held, refusal),
    }
}

// A view given up.
pub(crate) fn give_up(settings: &Settings, held: Held, frame: &mut [u8], command: usize) -> Given
    ensures { (area : List ℕ) → Does settings.now.law.n settings.now.law.m settings.now.law.p
        (give_up_outcome (record { settings = settings.now; held = held }) (length frame.old) command) result frame.old frame.new area area }
{
    match check_step(settings, frame.len(), command) {
        Ok(()) => fit::give_up(settings, held, frame),
        Err(refusal) => refused(held, refusal),
    }
}

// Bytes that arrive as a frame.
pub(crate) fn arrive(
    settings: &Settings,
    held: Held,
    bytes: &[u8],
    frame: &mut [u8],
    command: &mut [u8],
) -> Given
    ensures { Does settings.now.law.n settings.now.law.m settings.now.law.p
        (arrive_outcome (record { settings = settings.now; held = held }) bytes.now (length frame.old) (length command.old))
        result frame.old frame.new command.old command.new }
{
    match check_step(settings, frame.len(), command.len()) {
        Ok(()) => fit::arrive(settings, held, bytes, frame, command),
        Err(refusal) => refused(held, refusal),
    }
}
