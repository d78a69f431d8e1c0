// Text put together from its left end in an area of any length. The first `at` bytes are what was put so far, and each call tells how many there
// are then. What has no room is left out.
// An area and how much of it is in use go in apart: a struct that holds the `&mut` would have a second clause in each contract here, that it still holds
// the same area.
ghost use Rattle.std.specs.Prelude.{◌≡◌, [], ◌∷◌, ◌+◌, ◌^◌, ◌<◌, ◌≤◌, length, drop};
ghost use Rattle.text.specs.Printing.{Puts, digits_before, decimal as Printing·decimal, signed as Printing·signed, after_commas, listed};

// One byte more, where there is room.
pub fn put_byte(text: &mut [u8], at: usize, b: u8) -> usize
    ensures { Puts text.old at (b ∷ []) result text.new }
{
    if at < text.len() {
        text[at] = b;
        return at + 1;
    }
    text.len()
}

// A word more.
pub fn put_word(text: &mut [u8], at: usize, word: &[u8]) -> usize
    ensures { Puts text.old at word.now result text.new }
{
    let mut end = at.min(text.len());
    for &b in word {
        end = put_byte(text, end, b);
    }
    end
}

// Writes the digits of n at the right end of an area, as many as there is room for, and tells where they start.
fn put_digits(area: &mut [u8], n: u64) -> usize
    ensures { (result ≤ length area.old) × (drop result area.new ≡ digits_before (length area.old) n []) }
{
    let mut rest = n;
    for i in (0..area.len()).rev() {
        area[i] = b'0' + (rest % 10) as u8;
        if rest < 10 {
            return i;
        }
        rest /= 10;
    }
    0
}

// A number that is not negative, in decimal of at most N digits.
pub fn put_unsigned<const N: usize>(text: &mut [u8], at: usize, n: u64) -> usize
    requires { N < 2 ^ 63 }
    ensures { Puts text.old at (digits_before N n []) result text.new }
{
    let mut digits = [0u8; N];
    let from = put_digits(&mut digits, n);
    let digits = &digits[..];
    put_word(text, at, &digits[from..])
}

// A number that is not negative, in decimal.
pub fn put_decimal(text: &mut [u8], at: usize, n: u32) -> usize
    ensures { Puts text.old at (Printing·decimal n) result text.new }
{
    put_unsigned::<10>(text, at, u64::from(n))
}

// A number in decimal, with a minus where it is negative.
pub fn put_signed(text: &mut [u8], at: usize, z: i32) -> usize
    ensures { Puts text.old at (Printing·signed z) result text.new }
{
    if z < 0 {
        let at = put_byte(text, at, 45);
        return put_decimal(text, at, z.unsigned_abs());
    }
    put_decimal(text, at, z.unsigned_abs())
}

// A comma and a number.
fn put_next(text: &mut [u8], at: usize, z: i32) -> usize
    ensures { Puts text.old at (44 ∷ Printing·signed z) result text.new }
{
    let at = put_byte(text, at, 44);
    put_signed(text, at, z)
}

// Numbers, each after a comma.
fn put_after_commas(text: &mut [u8], at: usize, values: &[i32]) -> usize
    ensures { Puts text.old at (after_commas values.now) result text.new }
{
    let mut end = at.min(text.len());
    for &z in values {
        end = put_next(text, end, z);
    }
    end
}

// Numbers with commas between them.
pub fn put_list(text: &mut [u8], at: usize, values: &[i32]) -> usize
    ensures { Puts text.old at (listed values.now) result text.new }
{
    match values {
        [] => at.min(text.len()),
        [first, rest @ ..] => {
            let at = put_signed(text, at, *first);
            put_after_commas(text, at, rest)
        }
    }
}
