// Numbers as the lines write them: decimal, without needless zeros or a plus sign, zero without a minus, within i32; and those without a sign, of 32 bits.
ghost use Rattle.std.specs.Prelude.{◌≡◌, ◌+◌, ◌*◌, ◌-◌, ◌≤◌, IfSome, Some, None};
ghost use Rattle.lists.specs.Choice.{pick};
ghost use Rattle.text.specs.Numbers.{goes_on, spelled, well_begun, unsigned, magnitude, negative, positive, number_of, counted};

// The number that digits spelling n spell with b after them, where b is a digit and the number is at most `largest`.
fn with_digit(n: u64, b: u8, largest: u64) -> Option<u64>
    ensures { result ≡ pick (goes_on largest n b) (Some (10 * n + (b - 48))) None }
{
    if !b.is_ascii_digit() {
        return None;
    }
    let next = n.checked_mul(10)?.checked_add(u64::from(b - b'0'))?;
    if next <= largest { Some(next) } else { None }
}

// The number that digits spell.
fn spell(digits: &[u8], largest: u64) -> Option<u64>
    ensures { result ≡ spelled largest 0 digits.now }
{
    let mut n: u64 = 0;
    for &b in digits {
        n = with_digit(n, b, largest)?;
    }
    Some(n)
}

// Whether there is a digit, and no needless zero.
fn well_begun(digits: &[u8]) -> bool
    ensures { result ≡ well_begun digits.now }
{
    match digits {
        [] => false,
        [b'0', _, ..] => false,
        _ => true,
    }
}

// The number that a field without a sign holds, where it is at most `largest`.
pub fn read_unsigned(digits: &[u8], largest: u64) -> Option<u64>
    ensures number { result ≡ unsigned largest digits.now }
    ensures within { IfSome result (λ n. n ≤ largest) }
{
    if well_begun(digits) {
        return spell(digits, largest);
    }
    None
}

// The number of 32 bits that a field without a sign holds.
pub fn read_magnitude(digits: &[u8]) -> Option<u32>
    ensures { result ≡ magnitude digits.now }
{
    let n = read_unsigned(digits, u64::from(u32::MAX))?;
    Some(n as u32)
}

// A number after a minus.
fn below_zero(m: Option<u32>) -> Option<i32>
    ensures { result ≡ negative m }
{
    match m? {
        0 => None,
        n => 0i32.checked_sub_unsigned(n),
    }
}

// A number without a minus.
fn from_zero(m: Option<u32>) -> Option<i32>
    ensures { result ≡ positive m }
{
    i32::try_from(m?).ok()
}

// The number that a field holds.
pub fn number_in(field: &[u8]) -> Option<i32>
    ensures { result ≡ number_of field.now }
{
    match field {
        [b'-', digits @ ..] => below_zero(read_magnitude(digits)),
        _ => from_zero(read_magnitude(field)),
    }
}

// A number where it is not negative, and 0 for any other.
pub fn count_of(n: Option<i32>) -> u32
    ensures { result ≡ counted n }
{
    u32::try_from(n.unwrap_or(0)).unwrap_or(0)
}
