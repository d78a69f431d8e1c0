// The part of what is held.
ghost use Rattle.std.specs.Prelude.{◌≡◌, [], ◌∷◌, ◌++◌, ◌+◌, ◌≤◌, length};
ghost use Rattle.octets.specs.Words.{little_endian};
ghost use Rattle.octets.specs.Areas.{put};
ghost use Rattle.estimate.specs.Marks.{bit};
ghost use Rattle.estimate.specs.Reading.{estimate_at};
ghost use Rattle.records.specs.Lengths.{held_length};
ghost use Rattle.records.specs.HeldPart.{heard_bytes, best_bytes, held_bytes, mark_at, heard_at, best_at, held_at};

use estimate::Estimate;
use estimate::parts::{put_estimate, read_readings, read_state};
use octets::word::{put_bytes, put_u32, u32_at};
use replica::{Best, Held};

// A byte for each box, place 0 among them.
fn put_heard(heard: [bool; 10], area: &mut [u8], at: usize)
    requires { at + 10 ≤ length area.old }
    ensures { area.new ≡ put area.old at (heard_bytes heard) }
{
    for (j, &mark) in heard.iter().enumerate() {
        area[at + j] = u8::from(mark);
    }
}

fn put_best(best: Best, area: &mut [u8], at: usize)
    requires { at + 51 ≤ length area.old }
    ensures { area.new ≡ put area.old at (best_bytes best) }
{
    put_bytes(area, at, &[u8::from(best.any)]);
    put_bytes(area, at + 1, &[best.box_number]);
    put_u32(area, at + 2, best.base_view);
    put_u32(area, at + 6, best.base_period);
    let estimate = best.estimate;
    put_estimate(6, 4, estimate, area, at + 10);
}

// The four counters, one after the other.
fn put_counters(
    period: u32,
    view: u32,
    base_view: u32,
    base_period: u32,
    area: &mut [u8],
    at: usize,
)
    requires { at + 16 ≤ length area.old }
    ensures { area.new ≡ put area.old at
        (little_endian 4 period ++ little_endian 4 view ++ little_endian 4 base_view ++ little_endian 4 base_period) }
{
    put_u32(area, at, period);
    put_u32(area, at + 4, view);
    put_u32(area, at + 8, base_view);
    put_u32(area, at + 12, base_period);
}

// Mode and decided.
fn put_marks(view_change: bool, decided: bool, area: &mut [u8], at: usize)
    requires { at + 2 ≤ length area.old }
    ensures { area.new ≡ put area.old at (bit view_change ∷ bit decided ∷ []) }
{
    put_bytes(area, at, &[u8::from(view_change)]);
    put_bytes(area, at + 1, &[u8::from(decided)]);
}

// What is held, as it stands, at an offset.
pub fn put_held(held: Held, area: &mut [u8], at: usize)
    requires { at + held_length ≤ length area.old }
    ensures { area.new ≡ put area.old at (held_bytes held) }
{
    put_counters(
        held.period,
        held.view,
        held.base_view,
        held.base_period,
        area,
        at,
    );
    put_marks(held.view_change, held.decided, area, at + 16);
    let heard = held.heard;
    put_heard(heard, area, at + 18);
    let estimate = held.estimate;
    put_estimate(6, 4, estimate, area, at + 28);
    let best = held.best;
    put_best(best, area, at + 69);
}

fn mark_at(bytes: &[u8], at: usize) -> bool
    requires { at + 1 ≤ length bytes.now }
    ensures { result ≡ mark_at bytes.now at }
{
    bytes[at] == 1
}

fn heard_at(bytes: &[u8], at: usize) -> [bool; 10]
    requires { at + 10 ≤ length bytes.now }
    ensures { result ≡ heard_at bytes.now at }
{
    let mut heard = [false; 10];
    for j in 0..10 {
        heard[j] = mark_at(bytes, at + j);
    }
    heard
}

// An estimate of six states and four readings, each from its own part.
pub(crate) fn estimate_at(bytes: &[u8], at: usize) -> Estimate
    requires { at + 41 ≤ length bytes.now }
    ensures { result ≡ estimate_at 6 4 bytes.now at }
{
    let state = read_state(6, &bytes[at..at + 24]);
    let readings = read_readings(4, &bytes[at + 24..at + 41]);
    Estimate { state, readings }
}

pub(crate) fn best_at(bytes: &[u8], at: usize) -> Best
    requires { at + 51 ≤ length bytes.now }
    ensures { result ≡ best_at bytes.now at }
{
    let any = mark_at(bytes, at);
    let estimate = estimate_at(bytes, at + 10);
    Best {
        any,
        box_number: bytes[at + 1],
        base_view: u32_at(bytes, at + 2),
        base_period: u32_at(bytes, at + 6),
        estimate,
    }
}

// What is held, at an offset.
pub fn held_at(bytes: &[u8], at: usize) -> Held
    requires { at + held_length ≤ length bytes.now }
    ensures { result ≡ held_at bytes.now at }
{
    let estimate = estimate_at(bytes, at + 28);
    let heard = heard_at(bytes, at + 18);
    let best = best_at(bytes, at + 69);
    Held {
        period: u32_at(bytes, at),
        view: u32_at(bytes, at + 4),
        base_view: u32_at(bytes, at + 8),
        view_change: mark_at(bytes, at + 16),
        decided: mark_at(bytes, at + 17),
        estimate,
        base_period: u32_at(bytes, at + 12),
        heard,
        best,
    }
}
