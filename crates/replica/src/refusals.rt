// Refusals 1 to 7, 12 and 18, which need no frame: the settings, the lent areas, and the tick.
ghost use Rattle.std.specs.Prelude.{◌≡◌, ◌&&◌};
ghost use Rattle.refusal.specs.Numbers.{number, number_of};
ghost use Rattle.scram.specs.Events as Events;
ghost use Rattle.replica.specs.Settings.{bad_group, settings_refusal};
ghost use Rattle.replica.specs.Calls.{short_area, step_refusal};
ghost use Rattle.replica.specs.Rules.{tick_refusal, refused_step, refused_rule, ignored_rule};

use crate::{Given, Held, Moved, Settings};
use quorums::bad_quorums;
use readings::Readings;
use refusal::Refusal;
use scram::Answer;

// 1: N is not 3 to 9, or the own number not 1 to N.
#[tactic(auto, unfolding(crate::specs::Settings::bad_group))]
fn bad_group(n: u8, own: u8) -> bool
    ensures { result ≡ bad_group n own }
{
    n < 3 || 9 < n || own < 1 || n < own
}

// Whether settings are refused: by 1, then by the law, then by 18.
pub fn check_settings(settings: &Settings) -> Result<(), Refusal>
    ensures { number_of result ≡ settings_refusal settings.now }
{
    if bad_group(settings.boxes, settings.own) {
        return Err(Refusal::Group);
    }
    settings.law.tables().check()?;
    if bad_quorums(settings.boxes, settings.quorums) {
        return Err(Refusal::Quorums);
    }
    Ok(())
}

// 5: an area is shorter than the longest frame or command.
pub fn short_area(frame: usize, command: usize) -> bool
    ensures { result ≡ short_area frame command }
{
    frame < frame::lengths::LONGEST_FRAME || command < frame::lengths::LONGEST_COMMAND
}

// Whether any step is refused: by 1 to 4 and 18 for the settings, then by 5 for the areas.
pub(crate) fn check_step(settings: &Settings, frame: usize, command: usize) -> Result<(), Refusal>
    ensures { number_of result ≡ step_refusal settings.now frame command }
{
    check_settings(settings)?;
    if short_area(frame, command) {
        return Err(Refusal::Area);
    }
    Ok(())
}

// Whether a tick is refused: by 6, then by 7, then by 12 where the view would be raised.
#[tactic(auto, unfolding(crate::specs::Rules::tick_refusal, lists::specs::Choice::pick))]
pub(crate) fn check_tick(held: Held, m: usize, readings: Readings) -> Result<(), Refusal>
    ensures { number_of result ≡ tick_refusal held m readings }
{
    if held.period == u32::MAX {
        return Err(Refusal::LastPeriod);
    }
    if readings::has_mark_beyond(m, readings) {
        return Err(Refusal::Mark);
    }
    if held.view_change && held.view == u32::MAX {
        return Err(Refusal::LastView);
    }
    Ok(())
}

// A refused step: nothing has changed.
pub(crate) fn refused(held: Held, refusal: Refusal) -> Given
    ensures { result ≡ refused_step held refusal }
{
    Given {
        answer: Answer::Refused(refusal),
        held,
        frame: 0,
        command: 0,
    }
}

// A refusal by a rule: nothing has changed.
pub(crate) fn refused_rule(held: Held, refusal: Refusal) -> Moved
    ensures { result ≡ refused_rule held refusal }
{
    Moved {
        answer: Answer::Refused(refusal),
        held,
        frame: 0,
        issues: false,
    }
}

// An event ignored: nothing has changed.
pub(crate) fn ignored(held: Held) -> Moved
    ensures { result ≡ ignored_rule held }
{
    Moved {
        answer: Answer::Ignored,
        held,
        frame: 0,
        issues: false,
    }
}
