// Parts of a line.
pub(crate) fn text(rt: &impl Print, s: &[u8]) {
    let _ = rt.write_all(s);
}

pub(crate) fn number(rt: &impl Print, n: u64) {
    let _ = print!(rt; "{n}");
}

// `ok`, or `r` and the number of a refusal, at the end of a line.
pub(crate) fn answer(rt: &impl Print, refusal: u8) {
    if refusal == 0 {
        text(rt, b"ok\n");
    } else {
        text(rt, b"r");
        number(rt, refusal as u64);
        text(rt, b"\n");
    }
}
