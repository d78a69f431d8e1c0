// The lines that are printed.
ghost use Rattle.std.specs.Prelude.{◌∷◌, ◌≤◌, length};
ghost use Rattle.text.specs.Printing.{Puts, decimal};
ghost use Rattle.refusal.specs.Numbers.{number};
ghost use Rattle.script.specs.Play.{line_room, state_room};
ghost use Rattle.scram.specs.Answers.{answered};
ghost use Rattle.script.specs.Printing.{header_line, bad_alone, refusal_line, bad_line, answer_word, head_words, counter_words, state_word, first_words, sent_word, star_word, command_word, step_line, asked_word, ask_line};

use crate::boxes::Outgoing;
use crate::decimals::put_ticket;
use refusal::Refusal;
use replica::Replica;
use scram::Answer;
use text::printing::{put_byte, put_decimal, put_list, put_word};

// The header line.
pub(crate) fn put_header(text: &mut [u8], at: usize) -> usize
    ensures { Puts text.old at header_line result text.new }
{
    put_word(text, at, b"no who answer k v vb kb x frame command\n")
}

// `bad` alone in a line.
pub(crate) fn put_bad(text: &mut [u8], at: usize) -> usize
    ensures { Puts text.old at bad_alone result text.new }
{
    put_word(text, at, b"bad\n")
}

// `r` and the number of a refusal, alone in a line.
pub(crate) fn refusal_line(text: &mut [u8], at: usize, refusal: Refusal) -> usize
    ensures { Puts text.old at (refusal_line (number refusal)) result text.new }
{
    let at = put_refusal(text, at, refusal);
    put_word(text, at, b"\n")
}

// The line number, a space and `bad`.
pub(crate) fn bad_line(text: &mut [u8], at: usize, number: u32) -> usize
    ensures { Puts text.old at (bad_line number) result text.new }
{
    let at = put_decimal(text, at, number);
    put_word(text, at, b" bad\n")
}

// `r` and the number of a refusal.
fn put_refusal(text: &mut [u8], at: usize, refusal: Refusal) -> usize
    ensures { Puts text.old at (114 ∷ decimal (number refusal)) result text.new }
{
    let at = put_byte(text, at, b'r');
    put_decimal(text, at, u32::from(u8::from(refusal)))
}

fn put_answer(text: &mut [u8], at: usize, answer: Answer) -> usize
    ensures { Puts text.old at (answer_word (answered answer)) result text.new }
{
    match answer {
        Answer::Done => put_word(text, at, b"ok"),
        Answer::Ignored => put_word(text, at, b"ignored"),
        Answer::Refused(refusal) => put_refusal(text, at, refusal),
    }
}

// A space and a number.
fn put_counter(text: &mut [u8], at: usize, n: u32) -> usize
    ensures { Puts text.old at (32 ∷ decimal n) result text.new }
{
    let at = put_byte(text, at, b' ');
    put_decimal(text, at, n)
}

// The line number, the box and the answer.
fn put_head(text: &mut [u8], at: usize, number: u32, who: u8, answer: Answer) -> usize
    ensures { Puts text.old at (head_words number who (answered answer)) result text.new }
{
    let at = put_decimal(text, at, number);
    let at = put_counter(text, at, u32::from(who));
    let at = put_byte(text, at, b' ');
    put_answer(text, at, answer)
}

// Period, view, base view and base period.
fn put_counters(text: &mut [u8], at: usize, replica: Replica) -> usize
    ensures { Puts text.old at (counter_words replica) result text.new }
{
    let at = put_counter(text, at, replica.held.period);
    let at = put_counter(text, at, replica.held.view);
    let at = put_counter(text, at, replica.held.base_view);
    put_counter(text, at, replica.held.base_period)
}

fn put_state(text: &mut [u8], at: usize, replica: Replica) -> usize
    ensures { Puts text.old at (state_word replica) result text.new × (length (state_word replica) ≤ state_room) }
{
    let n = replica.settings.law.n.min(6);
    let at = put_byte(text, at, b' ');
    put_list(text, at, &replica.held.estimate.state[..n])
}

// The fields up to the state.
fn put_first(
    text: &mut [u8],
    at: usize,
    number: u32,
    who: u8,
    answer: Answer,
    replica: Replica,
) -> usize
    ensures { Puts text.old at (first_words number who (answered answer) replica) result text.new × (length (state_word replica) ≤ state_room) }
{
    let at = put_head(text, at, number, who, answer);
    let at = put_counters(text, at, replica);
    put_state(text, at, replica)
}

// The line's own number where it sent a frame.
fn put_sent(text: &mut [u8], at: usize, number: u32, size: usize) -> usize
    ensures { Puts text.old at (sent_word number size) result text.new }
{
    let at = put_byte(text, at, b' ');
    if size == 0 {
        return put_byte(text, at, b'-');
    }
    put_decimal(text, at, number)
}

// A star where clamping or limits changed a value.
fn put_star(text: &mut [u8], at: usize, command: &[u8]) -> usize
    ensures { Puts text.old at (star_word command.now) result text.new }
{
    if frame::command_limited(command) {
        return put_word(text, at, b"*");
    }
    put_word(text, at, b"")
}

fn put_command(text: &mut [u8], at: usize, p: usize, size: usize, command: &[u8]) -> usize
    ensures { Puts text.old at (command_word p size command.now) result text.new }
{
    let at = put_byte(text, at, b' ');
    if size == 0 {
        return put_byte(text, at, b'-');
    }
    let values = frame::command_values(command);
    let at = put_list(text, at, &values[..p.min(4)]);
    put_star(text, at, command)
}

// The line of a step at a box: its answer, what it gave, and the replica that comes back.
pub(crate) fn step_line(
    text: &mut [u8],
    at: usize,
    number: u32,
    who: u8,
    answer: Answer,
    gave: Outgoing,
    replica: Replica,
) -> usize
    ensures { Puts text.old at (step_line number who (answered answer) replica gave.sent gave.issued gave.command) result text.new
        × (length (step_line number who (answered answer) replica gave.sent gave.issued gave.command) ≤ line_room) }
{
    let at = put_first(text, at, number, who, answer, replica);
    let at = put_sent(text, at, number, gave.sent);
    let p = replica.settings.law.p;
    let at = put_command(text, at, p, gave.issued, &gave.command);
    put_byte(text, at, b'\n')
}

// A question mark where an ask would send a frame.
fn put_asked(text: &mut [u8], at: usize, size: usize) -> usize
    ensures { Puts text.old at (asked_word size) result text.new }
{
    let at = put_byte(text, at, b' ');
    if size == 0 {
        return put_byte(text, at, b'-');
    }
    put_byte(text, at, b'?')
}

// The line of an ask at a box: its answer, what it gave, its ticket, and the replica that is shown.
pub(crate) fn ask_line(
    text: &mut [u8],
    at: usize,
    number: u32,
    who: u8,
    answer: Answer,
    gave: Outgoing,
    ticket: u64,
    shown: Replica,
) -> usize
    ensures { Puts text.old at (ask_line number who (answered answer) shown gave.sent gave.issued gave.command ticket) result text.new
        × (length (ask_line number who (answered answer) shown gave.sent gave.issued gave.command ticket) ≤ line_room) }
{
    let at = put_first(text, at, number, who, answer, shown);
    let at = put_asked(text, at, gave.sent);
    let p = shown.settings.law.p;
    let at = put_command(text, at, p, gave.issued, &gave.command);
    let at = put_ticket(text, at, ticket);
    put_byte(text, at, b'\n')
}
