// The byte of present marks, and the values under absent ones.
ghost use Rattle.std.specs.Prelude.{◌≡◌, ◌≤◌};
ghost use Rattle.estimate.specs.Marks.{marks_byte, marks_in, marks_below, absent_zero};
ghost use Rattle.estimate.specs.Format.{writable};

use readings::Readings;

// Bit j is the mark of reading j.
pub(crate) fn marks_byte(y: Readings) -> u8
    ensures { result ≡ marks_byte y }
{
    let marks = y.present;
    u8::from(marks[0]) + 2 * u8::from(marks[1]) + 4 * u8::from(marks[2]) + 8 * u8::from(marks[3])
}

// The marks of the four places.
pub(crate) fn marks_in(k: u8) -> [bool; 4]
    ensures { result ≡ marks_in k }
{
    [k % 2 == 1, k / 2 % 2 == 1, k / 4 % 2 == 1, k / 8 % 2 == 1]
}

// No mark at or above m in a byte of marks.
pub fn marks_below(m: usize, marks: u8) -> bool
    requires { (1 ≤ m) × (m ≤ 4) }
    ensures { result ≡ marks_below m marks }
{
    marks < 1 << m
}

// Each of the first m values that is absent is 0. By a `for`: `all` of an iterator is unrolled into vectors, which took a frame of four readings some 100
// instructions more.
pub fn absent_zero(m: usize, y: Readings) -> bool
    requires { m ≤ 4 }
    ensures { result ≡ absent_zero m y }
{
    for j in 0..m {
        let value = y.values[j];
        if !y.present[j] && value != 0 {
            return false;
        }
    }
    true
}

// Readings that are to be written: no mark at or above m, and each value that is absent is 0.
pub fn is_writable(m: usize, y: Readings) -> bool
    requires { m ≤ 4 }
    ensures { result ≡ writable m y }
{
    !readings::has_mark_beyond(m, y) && absent_zero(m, y)
}
