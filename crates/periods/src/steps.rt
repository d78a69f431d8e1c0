// The calls whose instructions are counted, each in a function of its own, which callgrind has by name.
use crate::boxes::row;
use frame::lengths::{LONGEST_COMMAND, LONGEST_FRAME};
use replica::{Replica, Stepped};

// The bytes that a step sent.
fn sent(area: &[u8], size: usize) -> &[u8] {
    area.get(..size).unwrap_or(&[])
}

pub fn tick(
    replica: Replica,
    m: usize,
    frame: &mut [u8; LONGEST_FRAME],
    command: &mut [u8; LONGEST_COMMAND],
) -> Stepped {
    replica.tick(row(m), frame, command)
}

pub fn give_up(
    replica: Replica,
    frame: &mut [u8; LONGEST_FRAME],
    command: &mut [u8; LONGEST_COMMAND],
) -> Stepped {
    replica.give_up(frame, command)
}

// The frame of so many bytes in an area arrives.
pub fn arrive(
    replica: Replica,
    area: &[u8; LONGEST_FRAME],
    size: usize,
    frame: &mut [u8; LONGEST_FRAME],
    command: &mut [u8; LONGEST_COMMAND],
) -> Stepped {
    replica.arrive(sent(area, size), frame, command)
}
