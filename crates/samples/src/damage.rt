// What reading and writing answer on bytes that were changed, cut short or followed by others.
use crate::print::{letter, text};
use frame::Frame;
use refusal::Refusal;

// The number of a refusal, 0 where nothing is refused.
pub(crate) fn number(refusal: Option<Refusal>) -> u8 {
    refusal.map_or(0, u8::from)
}

// The answer on the first bytes, as many as `length`.
pub(crate) fn reading(n: usize, m: usize, bytes: [u8; 80], length: usize) -> u8 {
    match bytes.get(..length) {
        Some(part) => number(frame::read(n, m, part).err()),
        None => 255,
    }
}

// Whether writing a frame gives back the bytes that it was read from.
fn is_restored(frame: Frame, part: &[u8]) -> bool {
    let mut area = [170u8; 80];
    frame::write(4, 2, frame, &mut area) == Ok(part.len()) && area.starts_with(part)
}

// The digit of a refusal; of a frame that is read, `=` where writing restores it and `!` where it does not.
fn outcome(bytes: [u8; 80], length: usize) -> u8 {
    let Some(part) = bytes.get(..length) else {
        return b'?';
    };
    match frame::read(4, 2, part) {
        Ok(frame) if is_restored(frame, part) => b'=',
        Ok(_) => b'!',
        Err(Refusal::Frame) => b'8',
        Err(_) => b'2',
    }
}

fn raised(bytes: [u8; 80], i: usize) -> [u8; 80] {
    let mut changed = bytes;
    if i < 80 {
        changed[i] = bytes[i].wrapping_add(1);
    }
    changed
}

// A letter for each byte, with line ends where `rows` has them.
pub(crate) fn damage(rt: &impl Print, bytes: [u8; 80], length: usize) {
    for i in 0..length {
        line_at(rt, i);
        letter(rt, outcome(raised(bytes, i), length));
    }
    text(rt, b"\n");
}

fn line_at(rt: &impl Print, i: usize) {
    match i {
        0 => text(rt, b"  "),
        20 | 28 | 44 => text(rt, b"\n  "),
        _ => {}
    }
}

// A letter for each length from 0 to 80, in groups of ten.
pub(crate) fn lengths(rt: &impl Print, bytes: [u8; 80]) {
    for length in 0..=80 {
        if length % 10 == 0 {
            text(rt, b" ");
        }
        letter(rt, outcome(bytes, length));
    }
    text(rt, b"\n");
}
