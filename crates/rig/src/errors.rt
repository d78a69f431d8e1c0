// What is said on standard error of a first line that is refused. Which field or refusal it is, the contract of `opening::wrong::wrong_in` says.
use opening::wrong::{Wrong, wrong_in};
use refusal::Refusal;
use text::printing::{put_decimal, put_word};

// Every message has room.
const MESSAGE: usize = 128;

fn put_number(text: &mut [u8], at: usize, n: usize) -> usize {
    put_decimal(text, at, u32::try_from(n).unwrap_or(u32::MAX))
}

// What a field should be, and is not.
fn put_wanted(text: &mut [u8], at: usize, field: usize) -> usize {
    if field == 1 {
        return put_word(text, at, b"rig\n");
    }
    if field <= 5 {
        return put_word(text, at, b"a number from 0 to 255\n");
    }
    put_word(text, at, b"a number within i32\n")
}

fn put_place(text: &mut [u8], field: usize) -> usize {
    let at = put_word(text, 0, b"rig: field ");
    let at = put_number(text, at, field);
    put_word(text, at, b" of the first line is not ")
}

fn put_field(text: &mut [u8], field: usize) -> usize {
    let at = put_place(text, field);
    put_wanted(text, at, field)
}

fn put_quorum(text: &mut [u8], field: usize) -> usize {
    let at = put_place(text, field);
    put_word(text, at, b"a number from 0 to 255\n")
}

// Five fields are what a line needs whose sizes do not tell how many numbers follow.
fn put_needed(text: &mut [u8], at: usize, needed: usize) -> usize {
    if needed == 5 {
        return put_word(text, at, b"at least 5");
    }
    put_number(text, at, needed)
}

fn put_fields(text: &mut [u8], fields: usize, needed: usize) -> usize {
    let at = put_word(text, 0, b"rig: fields in the first line: ");
    let at = put_number(text, at, fields);
    let at = put_word(text, at, b", needed: ");
    let at = put_needed(text, at, needed);
    put_word(text, at, b"\n")
}

fn put_refusal(text: &mut [u8], refusal: Refusal) -> usize {
    match refusal {
        Refusal::Group => put_word(text, 0, b"rig: refused by 1: N is not 3 to 9\n"),
        Refusal::Sizes => put_word(
            text,
            0,
            b"rig: refused by 2: n is not 1 to 6, or m or p not 1 to 4\n",
        ),
        Refusal::Coefficient => put_word(
            text,
            0,
            b"rig: refused by 3: a coefficient is below -16777216 or above 16777216\n",
        ),
        Refusal::Limits => put_word(
            text,
            0,
            b"rig: refused by 4: a lower limit is above its upper\n",
        ),
        _ => put_word(
            text,
            0,
            b"rig: refused by 18: a or b is not 2 to N, or a + b is not above N\n",
        ),
    }
}

fn put_message(text: &mut [u8], wrong: Wrong) -> usize {
    match wrong {
        Wrong::Field(field) => put_field(text, field),
        Wrong::Quorum(field) => put_quorum(text, field),
        Wrong::Fields(fields, needed) => put_fields(text, fields, needed),
        Wrong::Refused(refusal) => put_refusal(text, refusal),
    }
}

// Says what is wrong with a first line, if anything is.
pub(crate) fn say(stderr: &impl Print, line: &[u8]) {
    if let Some(wrong) = wrong_in(line) {
        let mut message = [0u8; MESSAGE];
        let n = put_message(&mut message, wrong);
        console::write_error(stderr, &message, n);
    }
}
