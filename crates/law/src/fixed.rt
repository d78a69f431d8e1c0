// Fixed point in i64: the division by 65536, limits, and sums of products with coefficients.
ghost use Rattle.std.specs.Prelude.{◌≡◌, true, ◌+◌, ◌*◌, ◌≤◌, length, nat_abs, ◌+ℤ◌, ◌*ℤ◌};
ghost use Rattle.lists.specs.Below.{all_below};
ghost use Rattle.lists.specs.Places.{entry};
ghost use Rattle.law.specs.Fixed.{divided, sum, limited, clamp, limits_change, clamp_changes, largest_product};
ghost use Rattle.law.specs.Settings.{in_range};

// x / 65536 to the nearest whole number, ties to the even one. With the quotient toward minus infinity, one comparison of what is left with a half serves both
// sides of zero.
pub(crate) fn divide(x: i64) -> i64
    ensures { result ≡ divided x }
{
    let below = x.div_euclid(65536);
    let remainder = x.rem_euclid(65536);
    if remainder < 32768 {
        return below;
    }
    if 32768 < remainder {
        return below + 1;
    }
    if below % 2 == 0 {
        return below;
    }
    below + 1
}

// A value, or a row of values, brought into limits, and whether that changed one. The value counts either way, so this is no `Option`.
#[derive(Clone, Copy)]
pub(crate) struct Changed<T> {
    pub(crate) value: T,
    pub(crate) changed: bool,
}

// x brought into the limits. `clamp` would be no plainer: it asks that low is not above high, and whether it changed x would take a second test.
pub(crate) fn limit(x: i64, low: i32, high: i32) -> Changed<i32>
    ensures { (result.value ≡ limited low high x) × (result.changed ≡ limits_change low high x) }
{
    if x < (low as i64) {
        return Changed {
            value: low,
            changed: true,
        };
    }
    if (high as i64) < x {
        return Changed {
            value: high,
            changed: true,
        };
    }
    let value = x as i32;
    Changed {
        value,
        changed: false,
    }
}

// x brought into the i32 range.
pub(crate) fn clamp_i32(x: i64) -> Changed<i32>
    ensures { (result.value ≡ clamp x) × (result.changed ≡ clamp_changes x) }
{
    limit(x, -2147483648, 2147483647)
}

// One product more in a sum of at most six, which leaves room in i64.
fn add_product(total: i64, coefficient: i32, x: i32) -> i64
    requires { (nat_abs total ≤ 6 * largest_product) × (in_range coefficient ≡ true) }
    ensures { result ≡ total +ℤ coefficient *ℤ x }
{
    total + (coefficient as i64) * (x as i64)
}

// The sum over i below n of table(at + i) × x(i). Each product has a test of its own: a loop would be vectorised, for lengths that do not occur, and
// take twice the instructions.
pub(crate) fn sum_of_products(table: &[i32], at: usize, x: &[i32], n: usize) -> i64
    requires { (n ≤ 6) × (at + n ≤ length table.now) × (n ≤ length x.now) × (all_below n (λ i. in_range (entry table.now (at + i))) ≡ true) }
    ensures value { result ≡ sum n (λ i. entry table.now (at + i) *ℤ entry x.now i) }
    ensures size { nat_abs result ≤ n * largest_product }
{
    if n < 1 {
        return 0;
    }
    let total = add_product(0, table[at], x[0]);
    if n < 2 {
        return total;
    }
    let total = add_product(total, table[at + 1], x[1]);
    if n < 3 {
        return total;
    }
    let total = add_product(total, table[at + 2], x[2]);
    if n < 4 {
        return total;
    }
    let total = add_product(total, table[at + 3], x[3]);
    if n < 5 {
        return total;
    }
    let total = add_product(total, table[at + 4], x[4]);
    if n < 6 {
        return total;
    }
    add_product(total, table[at + 5], x[5])
}
