// A row of readings, the shape that the law, the frames and the replica share.
#![tactic(auto)]

ghost use Rattle.std.specs.Prelude.{◌≡◌, ◌≤◌, pos};
ghost use Rattle.readings.specs.Readings.{normalised, no_readings, mark_beyond};

// Place j holds the present mark and the value of reading j, counted from 0.
// Marks beside values, and no options: a row that is handed in may hold a value under an absent mark, which `frame::write` refuses by 8.
#[derive(Clone, Copy)]
pub struct Readings {
    pub present: [bool; 4],
    pub values: [i32; 4],
}

// No mark, and 0 in every place.
pub fn no_readings() -> Readings
    ensures { result ≡ no_readings }
{
    Readings {
        present: [false; 4],
        values: [0i32; 4],
    }
}

// The first m readings as the law reads them; the places after are absent.
pub fn normalise(m: usize, y: Readings) -> Readings
    ensures { result ≡ normalised m y }
{
    let mut present = [false; 4];
    let mut values = [0i32; 4];
    for j in 0..m.min(4) {
        let value = y.values[j];
        present[j] = y.present[j];
        values[j] = if y.present[j] { value } else { 0 };
    }
    Readings { present, values }
}

// Whether there is a present mark at or above m.
pub fn has_mark_beyond(m: usize, y: Readings) -> bool
    ensures { result ≡ mark_beyond m y }
{
    y.present.iter().skip(m).any(|&mark| mark)
}
