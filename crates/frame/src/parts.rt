// The pairs of offset and length, and the readings' part, which is looked at while it is taken.
ghost use Rattle.std.specs.Prelude.{◌≡◌, ◌≤◌, length, is_some, IfSome};
ghost use Rattle.octets.specs.Areas.{put};
ghost use Rattle.estimate.specs.Lengths.{readings_length};
ghost use Rattle.estimate.specs.Reading.{readings_in, readings_ok};
ghost use Rattle.frame.specs.Lengths.{pair_start, parts_start};
ghost use Rattle.frame.specs.Format.{pairs};
ghost use Rattle.frame.specs.Reading.{pairs_ok};

use crate::lengths::{HEADER_LENGTH, PAIR_LENGTH, PARTS_START};
use estimate::marks::marks_below;
use estimate::parts::{readings_length, state_length};
use octets::values::VALUE_LENGTH;
use octets::word::{put_u16, signed, u16_at, u32_at};
use readings::Readings;

// Where the pairs stand: of each part its offset, then its length.
const STATE_OFFSET: usize = HEADER_LENGTH;

const STATE_LENGTH: usize = STATE_OFFSET + 2;

const READINGS_OFFSET: usize = STATE_OFFSET + PAIR_LENGTH;

const READINGS_LENGTH: usize = READINGS_OFFSET + 2;

// The state's part is the first, and the readings' part follows it without a gap.
pub(crate) fn pairs_ok(n: usize, m: usize, bytes: &[u8]) -> bool
    requires { (n ≤ 6) × (m ≤ 4) × (parts_start ≤ length bytes.now) }
    ensures { result ≡ pairs_ok n m bytes.now }
{
    let states = state_length(n);
    u16_at(bytes, STATE_OFFSET) == PARTS_START
        && u16_at(bytes, STATE_LENGTH) == states
        && u16_at(bytes, READINGS_OFFSET) == PARTS_START + states
        && u16_at(bytes, READINGS_LENGTH) == readings_length(m)
}

// The readings reader: each mark and each value is taken once, and looked at as it is taken; none where a frame may not
// have the part. The lowest of the marks that are left is the next.
pub(crate) fn checked_readings(m: usize, part: &[u8]) -> Option<Readings>
    requires { (1 ≤ m) × (m ≤ 4) × (length part.now ≡ readings_length m) }
    ensures ok { is_some result ≡ readings_ok m part.now }
    ensures readings { IfSome result (λ y. y ≡ readings_in m part.now) }
{
    let mut marks_left = part[0];
    if !marks_below(m, marks_left) {
        return None;
    }
    let mut present = [false; 4];
    let mut values = [0i32; 4];
    for j in 0..m {
        let mark = marks_left % 2 == 1;
        let value = signed(u32_at(part, 1 + VALUE_LENGTH * j));
        if !mark && value != 0 {
            return None;
        }
        present[j] = mark;
        values[j] = value;
        marks_left /= 2;
    }
    Some(Readings { present, values })
}

pub(crate) fn put_pairs(n: usize, m: usize, area: &mut [u8])
    requires { (n ≤ 6) × (m ≤ 4) × (parts_start ≤ length area.old) }
    ensures { area.new ≡ put area.old (pair_start 0) (pairs n m) }
{
    let states = state_length(n);
    put_u16(area, STATE_OFFSET, PARTS_START);
    put_u16(area, STATE_LENGTH, states);
    put_u16(area, READINGS_OFFSET, PARTS_START + states);
    put_u16(area, READINGS_LENGTH, readings_length(m));
}
