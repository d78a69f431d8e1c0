// Readings as the transmitters send them, and the row of counts that the law reads of them.
#![tactic(auto)]

pub mod numbers;
pub mod single;

ghost use Rattle.std.specs.Prelude.{◌≡◌};
ghost use Rattle.transmitters.specs.Conversion.{converted_newtons, converted, converted_row};

use readings::Readings;
use single::convert_single;

// A count, an IEEE 754 single in newtons, or marked missing.
#[derive(Clone, Copy)]
pub enum Reading {
    Count(i32),
    Newtons(f32),
    Missing,
}

// A NaN has no bits of its own in the language, so it is told apart before they are asked for.
#[tactic(auto, using(crate::proofs::Newtons::by_nan))]
fn convert_newtons(x: f32) -> Option<i32>
    ensures { result ≡ converted_newtons x }
{
    if x.is_nan() {
        return None;
    }
    convert_single(x.to_bits())
}

// What the law reads of a reading: a count in units of 1/65536, where it is there.
#[tactic(auto, unfolding(crate::specs::Conversion::converted))]
pub fn convert(reading: Reading) -> Option<i32>
    ensures { result ≡ converted reading }
{
    match reading {
        Reading::Count(n) => Some(n),
        Reading::Newtons(x) => convert_newtons(x),
        Reading::Missing => None,
    }
}

// The row that a tick is handed, each place converted.
pub fn convert_row(y: [Reading; 4]) -> Readings
    ensures { result ≡ converted_row y }
{
    let counts = y.map(convert);
    Readings {
        present: counts.map(|count| count.is_some()),
        values: counts.map(|count| count.unwrap_or(0)),
    }
}
