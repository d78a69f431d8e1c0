// Singles as the lines of rig write them: `f` and eight hexadecimal digits, the bits of a single with the highest digit first.
ghost use Rattle.std.specs.Prelude.{◌≡◌, ◌≤◌, Some, None, length};
ghost use Rattle.lists.specs.Choice.{pick};
ghost use Rattle.line.specs.Singles.{is_hex, hex_digit, all_hex, hex_from, single_in};

use transmitters::Reading;
use transmitters::numbers::single_of;

// `f` and eight digits.
const SINGLE: usize = 9;

fn digit_of(b: u8) -> Option<u32>
    ensures { result ≡ pick (is_hex b) (Some (hex_digit b)) None }
{
    match b {
        b'0'..=b'9' => Some(u32::from(b - b'0')),
        b'a'..=b'f' => Some(u32::from(b - b'a') + 10),
        _ => None,
    }
}

// The bits that at most eight digits spell.
fn bits_in(digits: &[u8]) -> Option<u32>
    requires { length digits.now ≤ 8 }
    ensures { result ≡ pick (all_hex digits.now) (Some (hex_from 0 digits.now)) None }
{
    let mut bits = 0;
    for &b in digits {
        bits = bits * 16 + digit_of(b)?;
    }
    Some(bits)
}

// The single that a field is; missing where it is none.
pub(crate) fn single_in(word: &[u8]) -> Reading
    ensures { result ≡ single_in word.now }
{
    if word.len() != SINGLE || word[0] != b'f' {
        return Reading::Missing;
    }
    match bits_in(&word[1..]) {
        Some(bits) => Reading::Newtons(single_of(bits)),
        None => Reading::Missing,
    }
}
