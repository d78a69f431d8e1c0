// Lines of output. Two lines of it stand in trials too: a crate for them would be longer.
pub(crate) fn text(rt: &impl Print, s: &[u8]) {
    let _ = rt.write_all(s);
}

pub(crate) fn letter(rt: &impl Print, c: u8) {
    text(rt, &[c]);
}

// The bytes from `from` to `to` as a line, or nothing where there are none.
fn row(rt: &impl Print, bytes: &[u8], from: usize, to: usize) {
    if to <= from {
        return;
    }
    text(rt, b" ");
    for &byte in bytes.iter().take(to).skip(from) {
        let _ = print!(rt; " {byte:02x}");
    }
    text(rt, b"\n");
}

// A frame with 4 states in four lines: header, pairs, state, readings.
pub(crate) fn rows(rt: &impl Print, bytes: [u8; 80], length: usize) {
    row(rt, &bytes, 0, length.min(20));
    row(rt, &bytes, 20, length.min(28));
    row(rt, &bytes, 28, length.min(44));
    row(rt, &bytes, 44, length);
}

pub(crate) fn number_line(rt: &impl Print, label: &[u8], x: u8) {
    text(rt, label);
    let _ = print!(rt; "{x}\n");
}

// An answer's number, and the length that was written.
pub(crate) fn written_line(rt: &impl Print, label: &[u8], answer: u8, length: usize) {
    text(rt, label);
    let _ = print!(rt; "{answer} {length}\n");
}
