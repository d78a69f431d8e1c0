// A line that bench or rig printed, judged by itself.
ghost use Rattle.std.specs.Prelude.{◌≡◌, true, ◌&&◌, ◌||◌, ◌≤◌, eqb, take};
ghost use Rattle.printed.specs.Lines.{is_counter, is_up_to, is_none, is_ok, is_ignored, is_refusal_number, is_refusal, is_bad, is_header, unstarred as Lines·unstarred, head_ok, counters_ok, is_frame, tail_ok, ten_ok, is_step, is_ask, is_other, step_line, no_step, printed_as};
ghost use Rattle.line.specs.Fields as Fields;
ghost use Rattle.lists.specs.Choice.{pick};
ghost use Rattle.printed.specs.Values.{is_list, values_of};

use crate::values::{Values, values_in};
use line::fields::{count_spaces, field};
use line::ticket::ticket_in;
use pages::entries::Entry;
use text::numbers::read_magnitude;

// What a line is: a step that was done, with its entry and the number of values of its command; a line that neither bench nor rig prints; or another one
// of theirs.
#[derive(Clone, Copy)]
pub enum Printed {
    Step { entry: Entry, commands: usize },
    Foreign,
    Other,
}

fn is_counter(bytes: &[u8]) -> bool
    ensures { result ≡ is_counter bytes.now }
{
    read_magnitude(bytes).is_some()
}

// A number from 1 to `high`.
fn is_up_to(high: u32, bytes: &[u8]) -> bool
    ensures { result ≡ is_up_to high bytes.now }
{
    let number = read_magnitude(bytes);
    if !number.is_some() {
        return false;
    }
    let size = number.unwrap_or(0);
    if size < 1 {
        return false;
    }
    size <= high
}

fn is_none(bytes: &[u8]) -> bool
    ensures { result ≡ is_none bytes.now }
{
    bytes == b"-".as_slice()
}

fn is_ok(bytes: &[u8]) -> bool
    ensures { result ≡ is_ok bytes.now }
{
    bytes == b"ok".as_slice()
}

fn is_ignored(bytes: &[u8]) -> bool
    ensures { result ≡ is_ignored bytes.now }
{
    bytes == b"ignored".as_slice()
}

// The number of a refusal.
fn is_refusal_number(bytes: &[u8]) -> bool
    ensures { result ≡ is_refusal_number bytes.now }
{
    is_up_to(12, bytes)
        || bytes == b"16".as_slice()
        || bytes == b"17".as_slice()
        || bytes == b"18".as_slice()
}

// `r` and a number.
fn is_refusal(bytes: &[u8]) -> bool
    ensures { result ≡ is_refusal bytes.now }
{
    match bytes.strip_prefix(b"r") {
        Some(number) => is_refusal_number(number),
        None => false,
    }
}

fn is_bad(bytes: &[u8]) -> bool
    ensures { result ≡ is_bad bytes.now }
{
    bytes == b"bad".as_slice()
}

fn is_header(bytes: &[u8]) -> bool
    ensures { result ≡ is_header bytes.now }
{
    bytes == b"no who answer k v vb kb x frame command".as_slice()
}

fn is_answer(bytes: &[u8]) -> bool
    ensures { result ≡ (is_ok bytes.now || (is_ignored bytes.now || is_refusal bytes.now)) }
{
    is_ok(bytes) || is_ignored(bytes) || is_refusal(bytes)
}

// A command without the star behind it.
fn unstarred(bytes: &[u8]) -> &[u8]
    ensures { result.now ≡ Lines·unstarred bytes.now }
{
    match bytes.strip_suffix(b"*") {
        Some(command) => command,
        None => bytes,
    }
}

// Line, box and answer.
fn head_ok(line: &[u8]) -> bool
    ensures { result ≡ head_ok line.now }
{
    is_up_to(500, field(line, 0)) && is_up_to(9, field(line, 1)) && is_answer(field(line, 2))
}

// Period, view, base view and base period.
fn counters_ok(line: &[u8]) -> bool
    ensures { result ≡ counters_ok line.now }
{
    is_counter(field(line, 3))
        && is_counter(field(line, 4))
        && is_counter(field(line, 5))
        && is_counter(field(line, 6))
}

// Whether a field is nothing, or a line's number; of an ask it is a question mark.
fn is_frame(asks: bool, bytes: &[u8]) -> bool
    ensures { result ≡ is_frame asks bytes.now }
{
    if is_none(bytes) {
        return true;
    }
    if asks {
        bytes == b"?".as_slice()
    } else {
        is_up_to(500, bytes)
    }
}

// Whether a field is at most so many numbers.
fn is_list(most: usize, bytes: &[u8]) -> bool
    requires { most ≤ 6 }
    ensures { result ≡ is_list most bytes.now }
{
    values_in(bytes, most).is_some()
}

// Whether a field is nothing, or a command.
fn is_command(bytes: &[u8]) -> bool
    ensures { result ≡ (is_none bytes.now || is_list 4 (Lines·unstarred bytes.now)) }
{
    is_none(bytes) || is_list(4, unstarred(bytes))
}

// State, frame and command.
fn tail_ok(asks: bool, line: &[u8]) -> bool
    ensures { result ≡ tail_ok asks line.now }
{
    is_list(6, field(line, 7)) && is_frame(asks, field(line, 8)) && is_command(field(line, 9))
}

// The first ten fields.
fn ten_ok(asks: bool, line: &[u8]) -> bool
    ensures { result ≡ ten_ok asks line.now }
{
    head_ok(line) && counters_ok(line) && tail_ok(asks, line)
}

fn is_step(line: &[u8]) -> bool
    ensures { result ≡ is_step line.now }
{
    count_spaces(line) == 9 && ten_ok(false, line)
}

// Ten fields and a ticket.
fn is_ask(line: &[u8]) -> bool
    ensures { result ≡ is_ask line.now }
{
    if count_spaces(line) != 10 {
        return false;
    }
    if !ten_ok(true, line) {
        return false;
    }
    ticket_in(field(line, 10)).is_some()
}

// A line's number and `bad`.
fn is_bad_line(line: &[u8]) -> bool
    ensures { result ≡ (eqb (Fields.spaces line.now) 1 && (is_up_to 500 (Fields.field 0 line.now) && is_bad (Fields.field 1 line.now))) }
{
    count_spaces(line) == 1 && is_up_to(500, field(line, 0)) && is_bad(field(line, 1))
}

fn is_other(line: &[u8]) -> bool
    ensures { result ≡ is_other line.now }
{
    is_header(line) || is_bad(line) || is_refusal(line) || is_ask(line) || is_bad_line(line)
}

// The command of a step's line, where there is one.
fn command_in(bytes: &[u8]) -> Option<Values>
    requires { (is_none bytes.now || is_list 4 (Lines·unstarred bytes.now)) ≡ true }
    ensures { result ≡ pick (is_none bytes.now) None (Some (values_of 4 (Lines·unstarred bytes.now))) }
{
    if is_none(bytes) {
        return None;
    }
    values_in(unstarred(bytes), 4)
}

// The first four values.
fn first_four(values: [i32; 6]) -> [i32; 4]
    ensures { result ≡ take 4 values }
{
    [values[0], values[1], values[2], values[3]]
}

// The step of a line that has the form of one.
fn step_in(line: &[u8]) -> Printed
    requires { is_step line.now ≡ true }
    ensures { result ≡ step_line line.now }
{
    let period = read_magnitude(field(line, 3)).unwrap_or(0);
    let view = read_magnitude(field(line, 4)).unwrap_or(0);
    match command_in(field(line, 9)) {
        None => Printed::Step {
            entry: Entry {
                period,
                view,
                command: None,
            },
            commands: 0,
        },
        Some(found) => Printed::Step {
            entry: Entry {
                period,
                view,
                command: Some(first_four(found.values)),
            },
            commands: found.count,
        },
    }
}

fn no_step(foreign: bool) -> Printed
    ensures { result ≡ no_step foreign }
{
    if foreign {
        Printed::Foreign
    } else {
        Printed::Other
    }
}

// What a line is.
pub fn line_in(line: &[u8]) -> Printed
    ensures { result ≡ printed_as line.now }
{
    if !is_step(line) {
        return no_step(!is_other(line));
    }
    if !is_ok(field(line, 2)) {
        return no_step(false);
    }
    step_in(line)
}
