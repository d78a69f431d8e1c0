// A line as fields between single spaces, counted from 0. Two spaces have an empty field between them, which is no number.
ghost use Rattle.std.specs.Prelude.{◌≡◌, ◌≤◌, length, drop};
ghost use Rattle.line.specs.Fields.{spaces, one_less, after_spaces, field as Fields·field};

use text::lines::part_end;

// How many spaces a line has.
pub fn count_spaces(line: &[u8]) -> usize
    ensures { result ≡ spaces line.now }
{
    line.iter().filter(|&&b| b == b' ').count()
}

fn one_less(k: usize, b: u8) -> usize
    requires { 1 ≤ k }
    ensures { result ≡ one_less b k }
{
    if b == b' ' { k - 1 } else { k }
}

// Where the field with k spaces before it starts.
fn field_start(line: &[u8], k: usize) -> usize
    ensures { (result ≤ length line.now) × (drop result line.now ≡ after_spaces line.now k) }
{
    let mut left = k;
    for (i, &b) in line.iter().enumerate() {
        if left == 0 {
            return i;
        }
        left = one_less(left, b);
    }
    line.len()
}

// Field k of a line; an empty one where the line has fewer.
pub fn field(line: &[u8], k: usize) -> &[u8]
    ensures { result.now ≡ Fields·field k line.now }
{
    let start = field_start(line, k);
    let end = part_end(line, start, b' ');
    &line[start..end]
}
