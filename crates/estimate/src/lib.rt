// An estimate, and its two parts as bytes. Callers are proved; what is open to others is in frame.
#![tactic(auto)]

pub mod marks;
pub mod parts;

ghost use Rattle.std.specs.Prelude.{◌≡◌};
ghost use Rattle.estimate.specs.Fields.{no_estimate};

use readings::Readings;

// A state, and the readings that it is to be updated with.
#[derive(Clone, Copy)]
pub struct Estimate {
    pub state: [i32; 6],
    pub readings: Readings,
}

// 0 in every place of the state, and no reading.
pub fn no_estimate() -> Estimate
    ensures { result ≡ no_estimate }
{
    let readings = readings::no_readings();
    Estimate {
        state: [0i32; 6],
        readings,
    }
}
