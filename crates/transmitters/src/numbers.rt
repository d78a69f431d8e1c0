// Readings as numbers, for callers that do not have the enum: a kind and 32 bits.
ghost use Rattle.std.specs.Prelude.{◌≡◌};
ghost use Rattle.std.specs.Float.{binary32};
ghost use Rattle.std.specs.Float.Ieee.{of_bits};
ghost use Rattle.transmitters.specs.Numbers.{reading_of, readings_of};

use crate::Reading;

// The single of any 32 bits. The language makes none of a NaN's bits; it has one NaN, whatever they are.
pub fn single_of(bits: u32) -> f32
    ensures { result ≡ of_bits binary32 bits }
{
    let size = bits % 2147483648;
    if 2139095040 < size {
        return f32::NAN;
    }
    f32::from_bits(bits)
}

// The reading of a kind, by its bits. The kinds are numbers, since C hands them in.
#[tactic(auto, using(crate::proofs::ReadingKinds::by_kind))]
pub fn reading_of(kind: u8, bits: u32) -> Reading
    ensures { result ≡ reading_of kind bits }
{
    match kind {
        1 => Reading::Count(bits.cast_signed()),
        2 => Reading::Newtons(single_of(bits)),
        _ => Reading::Missing,
    }
}

// Four of them.
pub fn readings_of(kinds: &[u8; 4], bits: &[u32; 4]) -> [Reading; 4]
    ensures { result ≡ readings_of kinds.now bits.now }
{
    std::array::from_fn(|j| reading_of(kinds[j], bits[j]))
}
