// Lengths and offsets, each at one place.
ghost use Rattle.std.specs.Prelude.{◌≡◌, ◌≤◌};
ghost use Rattle.frame.specs.Lengths.{frame_length, command_length};

use crate::kinds::has_parts;
use estimate::parts::estimate_length;
use octets::values::VALUE_LENGTH;

pub(crate) const HEADER_LENGTH: usize = 20;

// A pair is an offset and a length, of two bytes each.
pub(crate) const PAIR_LENGTH: usize = 4;

// The first part, after the pairs of both.
pub(crate) const PARTS_START: usize = HEADER_LENGTH + 2 * PAIR_LENGTH;

// A frame with 6 states and 4 readings, for which an area must have room.
pub const LONGEST_FRAME: usize = 69;

// The values of a command, after its period.
pub(crate) const COMMAND_START: usize = 8;

// A command of four values, for which an area must have room.
pub const LONGEST_COMMAND: usize = 24;

pub(crate) fn frame_length(n: usize, m: usize, kind: u8) -> usize
    requires { (n ≤ 6) × (m ≤ 4) }
    ensures { result ≡ frame_length n m kind }
{
    if has_parts(kind) {
        return PARTS_START + estimate_length(n, m);
    }
    HEADER_LENGTH
}

pub(crate) fn command_length(p: usize) -> usize
    requires { p ≤ 4 }
    ensures { result ≡ command_length p }
{
    COMMAND_START + VALUE_LENGTH * p
}
