// Tests of the settings.
ghost use Rattle.std.specs.Prelude.{◌≡◌, true, ◌+◌, ◌*◌, ◌≤◌, ◌<◌, length};
ghost use Rattle.std.specs.Int.Signed.{le_z};
ghost use Rattle.lists.specs.Below.{all_below};
ghost use Rattle.lists.specs.Places.{entry};
ghost use Rattle.law.specs.Settings.{A, L, C, K, cell, one_to, settings_in, sizes_in_range, in_range, table_in_range, coefficients_in_range, limits_in_order};

use crate::Tables;

fn is_one_to(most: usize, size: usize) -> bool
    ensures { result ≡ one_to most size }
{
    (1 <= size) & (size <= most)
}

// Whether n, m and p are in their ranges. By `&` the three tests become two comparisons; by `&&` each check of settings takes seven instructions more.
pub(crate) fn sizes_in_range(n: usize, m: usize, p: usize) -> bool
    ensures { result ≡ sizes_in_range n m p }
{
    is_one_to(6, n) & is_one_to(4, m) & is_one_to(4, p)
}

// Whether a coefficient is in its range.
#[tactic(auto, unfolding(crate::specs::Settings::in_range))]
fn in_range(coefficient: i32) -> bool
    ensures { result ≡ in_range coefficient }
{
    (-16777216..=16777216).contains(&coefficient)
}

// Whether the coefficients table(at) to table(at + n - 1) are in their range.
fn row_in_range(table: &[i32], at: usize, n: usize) -> bool
    requires { at + n ≤ length table.now }
    ensures { result ≡ all_below n (λ j. in_range (entry table.now (at + j))) }
{
    table[at..at + n].iter().all(|&z| in_range(z))
}

// Whether the coefficients in the first rows and columns of a table are in their range.
fn rows_in_range(table: &[i32], stride: usize, rows: usize, columns: usize) -> bool
    requires { (rows ≤ 6) × (columns ≤ stride) × (stride ≤ 6) × (rows * stride ≤ length table.now) }
    ensures { result ≡ table_in_range (cell table.now stride) rows columns }
{
    (0..rows).all(|i| row_in_range(table, i * stride, columns))
}

// How far a coefficient is above the least, modulo 2^32: below 2^25 for each in its range but the largest.
fn offset(coefficient: i32) -> u32
    ensures { result < 33554432 → in_range coefficient ≡ true }
{
    coefficient.cast_unsigned().wrapping_add(16777216)
}

// Whether all that stands in a table is surely in the range of a coefficient. It is one sum and one `|` for each place, with no way out before the end, so
// that it can be vectorised: a table with the largest coefficient is left to the exact tests.
fn surely_in_range(table: &[i32]) -> bool
    ensures { result ≡ true → all_below (length table.now) (λ i. in_range (entry table.now i)) ≡ true }
{
    let mut offsets = 0;
    for &z in table {
        offsets |= offset(z);
    }
    offsets < 33554432
}

// Whether the coefficients of a table are in their range. Where all its places surely are, it does not matter which are in use.
fn table_in_range(table: &[i32], stride: usize, rows: usize, columns: usize) -> bool
    requires { (rows ≤ 6) × (columns ≤ stride) × (stride ≤ 6) × (rows * stride ≤ length table.now) }
    ensures { result ≡ table_in_range (cell table.now stride) rows columns }
{
    surely_in_range(table) || rows_in_range(table, stride, rows, columns)
}

// Whether the coefficients of the four tables are in their range. All places are looked at first, which takes fewer instructions: only where one of them
// may be out of range is it asked which table has it.
pub(crate) fn coefficients_in_range(tables: Tables) -> bool
    requires { sizes_in_range tables.n tables.m tables.p ≡ true }
    ensures { let s = settings_in tables.entry in result ≡ coefficients_in_range (A s) (L s) (C s) (K s) s.n s.m s.p }
{
    let Tables {
        n,
        m,
        p,
        a,
        l,
        c,
        k,
        ..
    } = tables;
    (surely_in_range(a) & surely_in_range(l) & surely_in_range(c) & surely_in_range(k))
        || (table_in_range(a, 6, n, n)
            && table_in_range(l, 4, n, m)
            && table_in_range(c, 6, m, n)
            && table_in_range(k, 6, p, n))
}

// Whether no lower limit of the first p commands is above its upper. A loop: `(0..p).all(..)` takes three instructions more for each command.
pub(crate) fn limits_in_order(low: &[i32; 4], high: &[i32; 4], p: usize) -> bool
    requires { p ≤ 4 }
    ensures { result ≡ limits_in_order (entry low.now) (entry high.now) p }
{
    for j in 0..p {
        if low[j] > high[j] {
            return false;
        }
    }
    true
}
