// Steps of a replica whose settings stand and whose areas are long enough: neither is looked at again. Each asks that its area is long enough, and no type
// does: a struct round a lent area would be taken apart and lent again at each call, which is no plainer.
ghost use Rattle.std.specs.Prelude.{◌≡◌, List, ℕ, ◌≤◌, length};
ghost use Rattle.readings.specs.Readings.{normalised, mark_beyond};
ghost use Rattle.law.specs.declared.Settings as Law;
ghost use Rattle.frame.specs.Lengths.{longest_frame, longest_command};
ghost use Rattle.scram.specs.Events as Events;
ghost use Rattle.replica.specs.Settings.{settings_refusal, Fit, law_of, member_of, group_of};
ghost use Rattle.replica.specs.Held.{held_in};
ghost use Rattle.replica.specs.Frames.{found};
ghost use Rattle.replica.specs.Rules.{Does, given_by};

use crate::arrivals::arrive_bytes;
use crate::moves::ticked;
use crate::output::issue;
use crate::refusals::{check_tick, refused};
use crate::rules::{after_tick, give_up_view};
use crate::{Given, Held, Moved, Settings};
use readings::Readings;

// A tick with converted readings. It issues no command, so that the command area, which it is not lent, stays as it is.
pub fn tick(settings: &Settings, held: Held, readings: Readings, frame: &mut [u8]) -> Given
    requires { (settings_refusal settings.now ≡ 0) × (longest_frame ≤ length frame.old) }
    ensures { (command : List ℕ) → Does settings.now.law.n settings.now.law.m settings.now.law.p
        (Events.tick (law_of settings.now.law) (group_of (member_of settings.now)) settings.now.own (held_in held) (mark_beyond settings.now.law.m readings)
        (normalised settings.now.law.m readings)) result frame.old frame.new command command }
{
    let m = settings.law.m;
    if let Err(refusal) = check_tick(held, m, readings) {
        return refused(held, refusal);
    }
    let tables = settings.law.tables();
    let state = tables.updated(&held.estimate.state, held.estimate.readings);
    let next = ticked(held, m, state, readings);
    let moved = after_tick(settings.member(), next, frame);
    with_command(moved, 0)
}

// The view is given up, whatever the law is: nothing is updated and no command issued.
pub fn give_up(settings: &Settings, held: Held, frame: &mut [u8]) -> Given
    requires { Fit (member_of settings.now) × (longest_frame ≤ length frame.old) }
    ensures { (law : Law.Settings) (p : ℕ) (command : List ℕ) → Does settings.now.law.n settings.now.law.m p
        (Events.give_up (law_of law) (group_of (member_of settings.now)) settings.now.own (held_in held)) result frame.old frame.new command command }
{
    let moved = give_up_view(settings.member(), held, frame);
    with_command(moved, 0)
}

// Bytes that arrive as a frame.
pub fn arrive(
    settings: &Settings,
    held: Held,
    bytes: &[u8],
    frame: &mut [u8],
    command: &mut [u8],
) -> Given
    requires { (settings_refusal settings.now ≡ 0) × (longest_frame ≤ length frame.old) × (longest_command ≤ length command.old) }
    ensures { Does settings.now.law.n settings.now.law.m settings.now.law.p
        (Events.arrival (law_of settings.now.law) (group_of (member_of settings.now)) settings.now.own (held_in held)
        (found settings.now.law.n settings.now.law.m bytes.now)) result frame.old frame.new command.old command.new }
{
    let moved = arrive_bytes(settings.member(), held, bytes, frame);
    let issued = issue(settings, moved.issues, moved.held, command);
    with_command(moved, issued)
}

// What a rule gives, with the length of the command written.
fn with_command(moved: Moved, command: usize) -> Given
    ensures { result ≡ given_by moved command }
{
    Given {
        answer: moved.answer,
        held: moved.held,
        frame: moved.frame,
        command,
    }
}
