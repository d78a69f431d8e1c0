// Reading a record: 15 where it is none.
ghost use Rattle.std.specs.Prelude.{◌≡◌, ◌&&◌, eqb, length, IfOk};
ghost use Rattle.scram.specs.Answers.{answered, answered_of};
ghost use Rattle.replica.specs.Settings.{settings_refusal};
ghost use Rattle.records.specs.Lengths.{settings_length, record_length};
ghost use Rattle.records.specs.HeldPart.{held_at};
ghost use Rattle.records.specs.Reading.{is_done, held_ok, read_answer, read_replica};

use crate::conditions::{held_ok, layout_ok};
use crate::held_part::held_at;
use crate::lengths::SETTINGS;
use crate::settings_part::settings_in;
use refusal::Refusal;
use replica::refusals::check_settings;
use replica::{Replica, Settings};
use scram::Answer;

// Whether an answer is done.
pub fn is_done(answer: Answer) -> bool
    ensures { result ≡ is_done (answered answer) }
{
    matches!(answer, Answer::Done)
}

// Whether these settings stand, and bytes of a record's length hold what a record may.
pub fn parts_ok(settings: &Settings, bytes: &[u8]) -> bool
    requires { length bytes.now ≡ record_length }
    ensures { result ≡ (eqb (settings_refusal settings.now) 0
        && held_ok settings.now.boxes settings.now.law.n settings.now.law.m (held_at bytes.now settings_length) bytes.now) }
{
    check_settings(settings).is_ok()
        && held_ok(settings.boxes, settings.law.n, settings.law.m, bytes)
}

// Reads a record.
pub fn read(bytes: &[u8]) -> Result<Replica, Refusal>
    ensures answer { answered_of result ≡ read_answer bytes.now }
    ensures replica { IfOk result (λ replica. replica ≡ read_replica bytes.now) }
{
    if !layout_ok(bytes) {
        return Err(Refusal::Record);
    }
    let settings = settings_in(bytes);
    if !parts_ok(&settings, bytes) {
        return Err(Refusal::Record);
    }
    let held = held_at(bytes, SETTINGS);
    Ok(Replica { settings, held })
}
