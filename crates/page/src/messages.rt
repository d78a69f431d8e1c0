// What is said on standard error.
use text::printing::{put_decimal, put_word};

// Every message has room.
const MESSAGE: usize = 64;

// The lines that are looked at: as many as bench or rig print, the header among them.
const MOST: usize = 501;

// Says how many lines were passed over, if any were.
pub(crate) fn say_passed(stderr: &impl Print, passed: usize) {
    if passed == 0 {
        return;
    }
    let mut message = [0u8; MESSAGE];
    let at = put_word(&mut message, 0, b"page: lines passed over: ");
    let at = put_decimal(&mut message, at, passed.min(4294967295) as u32);
    let at = put_word(&mut message, at, b"\n");
    console::write_error(stderr, &message, at);
}

// Says that there are more lines than are looked at, where there are; the last one may lack its line feed.
pub(crate) fn say_cut(stderr: &impl Print, lines: usize, column: usize) {
    if lines < MOST {
        return;
    }
    if (lines == MOST) & (column == 0) {
        return;
    }
    let mut message = [0u8; MESSAGE];
    let at = put_word(
        &mut message,
        0,
        b"page: only the first 501 lines are read\n",
    );
    console::write_error(stderr, &message, at);
}
