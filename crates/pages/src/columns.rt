// Text in columns: spaces, and numbers that are right-aligned. Like all of text::printing, what has no room is left out.
ghost use Rattle.std.specs.Prelude.{◌≡◌};
ghost use Rattle.text.specs.Printing.{Puts, decimal, signed as Printing·signed};
ghost use Rattle.pages.specs.Line.{spaces, right, command_columns};

use text::printing::{put_byte, put_decimal, put_signed, put_word};

// n spaces more.
pub(crate) fn put_spaces(text: &mut [u8], at: usize, n: usize) -> usize
    ensures { Puts text.old at (spaces n) result text.new }
{
    let mut end = at.min(text.len());
    for _ in 0..n {
        end = put_byte(text, end, b' ');
    }
    end
}

// A word, right-aligned in some columns.
pub(crate) fn put_right(text: &mut [u8], at: usize, columns: usize, word: &[u8]) -> usize
    ensures { Puts text.old at (right columns word.now) result text.new }
{
    let at = put_spaces(text, at, columns.saturating_sub(word.len()));
    put_word(text, at, word)
}

// A number without a sign, right-aligned in ten columns.
pub(crate) fn put_count(text: &mut [u8], at: usize, n: u32) -> usize
    ensures { Puts text.old at (right 10 (decimal n)) result text.new }
{
    let mut digits = [0u8; 10];
    let size = put_decimal(&mut digits, 0, n);
    put_right(text, at, 10, &digits[..size])
}

// A number, right-aligned in the columns of a command.
fn put_value(text: &mut [u8], at: usize, z: i32) -> usize
    ensures { Puts text.old at (right 12 (Printing·signed z)) result text.new }
{
    let mut digits = [0u8; 11];
    let size = put_signed(&mut digits, 0, z);
    put_right(text, at, 12, &digits[..size])
}

// Numbers, each in the columns of a command.
pub(crate) fn put_values(text: &mut [u8], at: usize, values: &[i32]) -> usize
    ensures { Puts text.old at (command_columns values.now) result text.new }
{
    let mut end = at.min(text.len());
    for z in values {
        end = put_value(text, end, *z);
    }
    end
}
