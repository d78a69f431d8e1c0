// Converting a reading.
ghost use Rattle.std.specs.Prelude.{◌≡◌, pos, is_some, unwrap_or};
ghost use Rattle.estimate.specs.Marks.{bit};
ghost use Rattle.transmitters.specs.Conversion.{converted_single};

use crate::areas::mark_byte;

// The single of these bits, in newtons, as the law reads it: its present mark, and its count, 0 where it is missing. Refuses nothing.
pub fn winder_convert_single(bits: u32, value: &mut i32) -> u8
    ensures mark { result ≡ bit (is_some (converted_single bits)) }
    ensures value { value.new ≡ unwrap_or (converted_single bits) (pos 0) }
{
    let count = transmitters::single::convert_single(bits);
    *value = count.unwrap_or(0);
    mark_byte(count.is_some())
}
