// The conversion of a single, worked out from its bits.
ghost use Rattle.std.specs.Prelude.{◌≡◌, ◌^◌, ◌<◌};
ghost use Rattle.std.specs.Int.Signed.{mag};
ghost use Rattle.transmitters.specs.Single.{negative, exponent, scale, magnitude, signed, floor};
ghost use Rattle.transmitters.specs.Conversion.{within_i32, converted_single};

#[tactic(auto, unfolding(crate::specs::Single::exponent))]
fn exponent_of(bits: u32) -> u32
    ensures { result ≡ exponent bits }
{
    bits % 2147483648 / 8388608
}

// The exponent, where 0 counts as 1.
#[tactic(auto, using(crate::proofs::Bits::by_exponents))]
fn scale_of(bits: u32) -> u32
    ensures { result ≡ scale bits }
{
    let exponent = exponent_of(bits);
    if exponent == 0 { 1 } else { exponent }
}

// The fraction with its leading digit, which an exponent of 0 does not have.
#[tactic(auto, using(crate::proofs::Bits::by_exponents))]
fn magnitude_of(bits: u32) -> u32
    ensures { result ≡ magnitude bits }
{
    let exponent = exponent_of(bits);
    let fraction = bits % 8388608;
    if exponent == 0 {
        fraction
    } else {
        8388608 + fraction
    }
}

// n under the sign of the single.
fn under_sign(bits: u32, n: u32) -> i64
    ensures { result ≡ signed (negative bits) n }
{
    if bits < 2147483648 {
        n as i64
    } else {
        -(n as i64)
    }
}

// x / 2^k rounded toward minus infinity, as a shift of a signed number rounds. Of 32 digits nothing is left from k = 32 on.
fn shifted(x: i64, k: u32) -> i64
    requires { mag x < 4294967296 }
    ensures { result ≡ floor x (2 ^ k) }
{
    x >> k.min(32)
}

// A count inside i32; what lies outside is missing.
fn within_i32(z: i64) -> Option<i32>
    ensures { result ≡ within_i32 z }
{
    i32::try_from(z).ok()
}

// The single of these bits, times 65536. Beyond a scale of 142 it is outside i32, infinite or a NaN. Up to there it is
// magnitude × 2^8 / 2^(142 − scale), and magnitude × 2^8 has at most 32 digits.
pub fn convert_single(bits: u32) -> Option<i32>
    ensures { result ≡ converted_single bits }
{
    let scale = scale_of(bits);
    if 142 < scale {
        return None;
    }
    let magnitude = magnitude_of(bits);
    let x = under_sign(bits, magnitude * 256);
    within_i32(shifted(x, 142 - scale))
}
