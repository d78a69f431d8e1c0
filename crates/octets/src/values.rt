// Lists of i32 values as bytes.
ghost use Rattle.std.specs.Prelude.{◌≡◌, ◌+◌, ◌*◌, ◌≤◌, length, replicate, pos};
ghost use Rattle.lists.specs.Places.{filled};
ghost use Rattle.octets.specs.Words.{value_length, values_bytes, value_at};
ghost use Rattle.octets.specs.Areas.{put};

use crate::word::{bits, put_u32, signed, u32_at};

// The bytes of a value.
pub const VALUE_LENGTH: usize = 4;

// Fills places that hold 0 with the values of a part.
pub fn read_values(part: &[u8], out: &mut [i32])
    requires { (value_length * length out.old ≤ length part.now) × (out.old ≡ replicate (length out.old) (pos 0)) }
    ensures { out.new
        ≡ filled (pos 0) (length out.old) (length out.old) (value_at part.now) }
{
    for (i, place) in out.iter_mut().enumerate() {
        *place = signed(u32_at(part, VALUE_LENGTH * i));
    }
}

pub fn put_values(values: &[i32], area: &mut [u8], at: usize)
    requires { at + value_length * length values.now ≤ length area.old }
    ensures { area.new ≡ put area.old at (values_bytes values.now) }
{
    for (i, &value) in values.iter().enumerate() {
        put_u32(area, at + VALUE_LENGTH * i, bits(value));
    }
}
