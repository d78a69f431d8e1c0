// The state's part and the readings' part: their lengths, reading each from its own, and writing both.
ghost use Rattle.std.specs.Prelude.{◌≡◌, ◌+◌, ◌≤◌, length};
ghost use Rattle.octets.specs.Areas.{put};
ghost use Rattle.estimate.specs.Lengths.{state_length, readings_length, estimate_length};
ghost use Rattle.estimate.specs.Format.{estimate_bytes};
ghost use Rattle.estimate.specs.Reading.{state_in, readings_in};

use crate::Estimate;
use crate::marks::{marks_byte, marks_in};
use octets::values::{VALUE_LENGTH, put_values, read_values};
use octets::word::put_bytes;
use readings::Readings;

pub fn state_length(n: usize) -> usize
    requires { n ≤ 6 }
    ensures { result ≡ state_length n }
{
    VALUE_LENGTH * n
}

pub fn readings_length(m: usize) -> usize
    requires { m ≤ 4 }
    ensures { result ≡ readings_length m }
{
    1 + VALUE_LENGTH * m
}

pub fn estimate_length(n: usize, m: usize) -> usize
    requires { (n ≤ 6) × (m ≤ 4) }
    ensures { result ≡ estimate_length n m }
{
    state_length(n) + readings_length(m)
}

// The state reader: n values, and 0 in the other places.
pub fn read_state(n: usize, part: &[u8]) -> [i32; 6]
    requires { (n ≤ 6) × (length part.now ≡ state_length n) }
    ensures { result ≡ state_in n part.now }
{
    let mut state = [0i32; 6];
    read_values(part, &mut state[..n]);
    state
}

// The readings reader: the marks, then m values, and 0 in the other places.
pub fn read_readings(m: usize, part: &[u8]) -> Readings
    requires { (m ≤ 4) × (length part.now ≡ readings_length m) }
    ensures { result ≡ readings_in m part.now }
{
    let present = marks_in(part[0]);
    let mut values = [0i32; 4];
    read_values(&part[1..], &mut values[..m]);
    Readings { present, values }
}

// The state's part at an offset, and the readings' part after it.
pub fn put_estimate(n: usize, m: usize, estimate: Estimate, area: &mut [u8], at: usize)
    requires { (n ≤ 6) × (m ≤ 4) × (at + estimate_length n m ≤ length area.old) }
    ensures { area.new ≡ put area.old at (estimate_bytes n m estimate) }
{
    let state = estimate.state;
    put_values(&state[0..n], area, at);
    let readings = estimate.readings;
    let readings_at = at + state_length(n);
    put_bytes(area, readings_at, &[marks_byte(readings)]);
    let values = readings.values;
    put_values(&values[0..m], area, readings_at + 1);
}
