// The bytes of a command.
ghost use Rattle.std.specs.Prelude.{◌≡◌, ◌≤◌, length};
ghost use Rattle.octets.specs.Areas.{put};
ghost use Rattle.frame.specs.Lengths.{command_length, longest_command};
ghost use Rattle.frame.specs.Command.{command_bytes};
ghost use Rattle.frame.specs.CommandReading.{is_command, command_in};

use crate::CommandFields;
use crate::lengths::{COMMAND_START, command_length};
use octets::values::{VALUE_LENGTH, put_values, read_values};
use octets::word::{put_bytes, put_u32, u32_at};

// Byte 2 says whether a command is marked: it is at most this.
const MOST_MARK: u8 = 1;

// Writes a command and returns its length.
pub(crate) fn put_command(
    p: usize,
    period: u32,
    values: [i32; 4],
    limited: bool,
    area: &mut [u8],
) -> usize
    requires { (p ≤ 4) × (longest_command ≤ length area.old) }
    ensures { (result ≡ length (command_bytes p period values limited))
        × (area.new ≡ put area.old 0 (command_bytes p period values limited)) }
{
    put_bytes(area, 0, &[5, p as u8, u8::from(limited), 0]);
    put_u32(area, 4, period);
    put_values(&values[0..p], area, COMMAND_START);
    COMMAND_START + VALUE_LENGTH * p
}

// The length, and the four bytes before the period.
pub(crate) fn is_command(p: usize, bytes: &[u8]) -> bool
    requires { p ≤ 4 }
    ensures { result ≡ is_command p bytes.now }
{
    bytes.len() == command_length(p)
        && bytes[0] == 5
        && usize::from(bytes[1]) == p
        && bytes[2] <= MOST_MARK
        && bytes[3] == 0
}

// The period, the values and the mark of a command, with 0 in the places beyond p.
pub(crate) fn command_in(p: usize, bytes: &[u8]) -> CommandFields
    requires { (p ≤ 4) × (length bytes.now ≡ command_length p) }
    ensures { result ≡ command_in p bytes.now }
{
    let period = u32_at(bytes, 4);
    let mut values = [0i32; 4];
    read_values(&bytes[COMMAND_START..], &mut values[..p]);
    let limited = bytes[2] == 1;
    CommandFields {
        period,
        values,
        limited,
    }
}
