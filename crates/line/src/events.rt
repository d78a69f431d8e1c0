// What a line of a script calls for. Each field is looked up once, and each number read once.
ghost use Rattle.std.specs.Prelude.{◌≡◌, ◌&&◌, ◌||◌, ◌+◌, ◌≤◌, Some, None, eqb};
ghost use Rattle.lists.specs.Choice.{pick};
ghost use Rattle.line.specs.Events.{letter_of, box_of, reading_in, is_given, all_readings, row_of, missing_row, calls as Events·calls, tick_called, give_up_called, delivery_called, store_called, return_called, commit_called, power_called, called_for, is_taken, ask_called, store_asked_called, two_called, word_called, called};

use crate::fields::{count_spaces, field};
use crate::singles::single_in;
use crate::ticket::ticket_in;
use text::numbers::{count_of, number_in, read_magnitude};
use transmitters::Reading;

// A tick at a box; a view given up by a box; the frame that a line sent, delivered to a box; the record of a box stored; a box that comes back, with so
// many missed periods; a ticket that a box commits; the record that the latest ask of a box gave, stored; and a line that is none of the format, which is
// printed too.
#[derive(Clone, Copy)]
pub enum Event {
    Tick(u8),
    GiveUp(u8),
    Deliver(u8, u32),
    Store(u8),
    Return(u8, u32),
    Commit(u8, u64),
    StoreAsked(u8),
    Bad,
}

// What a line calls for: an event, whether it is asked only, and the readings of a tick. Asked or not, it is the same event.
#[derive(Clone, Copy)]
pub struct Called {
    pub event: Event,
    pub asks: bool,
    pub readings: [Reading; 4],
}

// The byte of a field that has one alone, else 0.
fn letter(word: &[u8]) -> u8
    ensures { result ≡ letter_of word.now }
{
    if word.len() == 1 { word[0] } else { 0 }
}

// The box that a field names, from 1 to the number of boxes, else 0.
fn box_in(boxes: u8, word: &[u8]) -> u8
    ensures { result ≡ box_of boxes word.now }
{
    let n = count_of(number_in(word));
    if n <= (boxes as u32) { n as u8 } else { 0 }
}

// The reading of a field: a number, or a single where the line is one of rig's. Any other field is missing.
fn reading_in(of_rig: bool, word: &[u8]) -> Reading
    ensures { result ≡ reading_in of_rig word.now }
{
    match number_in(word) {
        Some(n) => Reading::Count(n),
        None => if of_rig {
            single_in(word)
        } else {
            Reading::Missing
        },
    }
}

// Whether a field is a reading: there is this one in it, or it is a minus alone where the reading is absent.
fn is_reading(reading: Reading, word: &[u8]) -> bool
    ensures { result ≡ (is_given reading || eqb (letter_of word.now) 45) }
{
    match reading {
        Reading::Count(_) | Reading::Newtons(_) => true,
        Reading::Missing => letter(word) == b'-',
    }
}

// Fields 2 to m + 1 as readings; none where one of them is no reading.
fn row_in(of_rig: bool, m: usize, line: &[u8]) -> Option<[Reading; 4]>
    requires { m ≤ 255 }
    ensures { result ≡ pick (all_readings of_rig m line.now) (Some (row_of of_rig m line.now)) None }
{
    let mut row = [Reading::Missing; 4];
    for j in 0..m {
        let word = field(line, j + 2);
        let reading = reading_in(of_rig, word);
        if !is_reading(reading, word) {
            return None;
        }
        if j < 4 {
            row[j] = reading;
        }
    }
    Some(row)
}

// A line that is no tick has no reading. It asks nothing.
fn calls(event: Event) -> Called
    ensures { result ≡ Events·calls event }
{
    Called {
        event,
        asks: false,
        readings: [Reading::Missing; 4],
    }
}

fn tick(of_rig: bool, at: u8, m: usize, count: usize, line: &[u8]) -> Called
    requires { m ≤ 255 }
    ensures { result ≡ tick_called of_rig at m count line.now }
{
    if count != m + 1 {
        return calls(Event::Bad);
    }
    match row_in(of_rig, m, line) {
        Some(readings) => Called {
            event: Event::Tick(at),
            asks: false,
            readings,
        },
        None => calls(Event::Bad),
    }
}

#[tactic(auto, unfolding(crate::specs::Events::give_up_called, lists::specs::Choice::pick))]
fn give_up(at: u8, count: usize) -> Called
    ensures { result ≡ give_up_called at count }
{
    calls(if count == 1 {
        Event::GiveUp(at)
    } else {
        Event::Bad
    })
}

#[tactic(auto, unfolding(crate::specs::Events::delivery_called, lists::specs::Choice::pick))]
fn delivery(at: u8, count: usize, f: u32) -> Called
    ensures { result ≡ delivery_called at count f }
{
    calls(if count == 2 && 0 < f {
        Event::Deliver(at, f)
    } else {
        Event::Bad
    })
}

#[tactic(auto, unfolding(crate::specs::Events::store_called, lists::specs::Choice::pick))]
fn store(at: u8, count: usize) -> Called
    ensures { result ≡ store_called at count }
{
    calls(if count == 1 {
        Event::Store(at)
    } else {
        Event::Bad
    })
}

#[tactic(auto, unfolding(crate::specs::Events::return_called, lists::specs::Choice::pick))]
fn come_back(at: u8, count: usize, missed: Option<u32>) -> Called
    ensures { result ≡ return_called at count missed }
{
    match missed {
        Some(missed) if count == 2 => calls(Event::Return(at, missed)),
        _ => calls(Event::Bad),
    }
}

#[tactic(auto, unfolding(crate::specs::Events::commit_called, lists::specs::Choice::pick))]
fn commit(at: u8, count: usize, ticket: Option<u64>) -> Called
    ensures { result ≡ commit_called at count ticket }
{
    match ticket {
        Some(ticket) if count == 2 => calls(Event::Commit(at, ticket)),
        _ => calls(Event::Bad),
    }
}

// What only a line of rig calls for.
#[tactic(auto, unfolding(crate::specs::Events::power_called, lists::specs::Choice::pick))]
fn power(at: u8, letter: u8, count: usize, line: &[u8]) -> Called
    ensures { result ≡ power_called at letter count line.now }
{
    match letter {
        b'S' => store(at, count),
        b'R' => come_back(at, count, read_magnitude(field(line, 2))),
        b'C' => commit(at, count, ticket_in(field(line, 2))),
        _ => calls(Event::Bad),
    }
}

// What a line with this letter and so many spaces calls for.
#[tactic(auto, unfolding(crate::specs::Events::called_for, lists::specs::Choice::pick))]
fn called_for(of_rig: bool, at: u8, m: u8, letter: u8, count: usize, line: &[u8]) -> Called
    ensures { result ≡ called_for of_rig at m letter count line.now }
{
    match letter {
        b'T' => tick(of_rig, at, usize::from(m), count, line),
        b'G' => give_up(at, count),
        b'D' => delivery(at, count, count_of(number_in(field(line, 2)))),
        _ if of_rig => power(at, letter, count, line),
        _ => calls(Event::Bad),
    }
}

// Whether a replica takes an event.
fn is_taken(event: Event) -> bool
    ensures { result ≡ is_taken event }
{
    matches!(
        event,
        Event::Tick(_) | Event::GiveUp(_) | Event::Deliver(_, _)
    )
}

// The same event asked, where a replica takes it.
#[tactic(auto, unfolding(crate::specs::Events::ask_called, lists::specs::Choice::pick))]
fn ask(called: Called) -> Called
    ensures { result ≡ ask_called called }
{
    if !is_taken(called.event) {
        return calls(Event::Bad);
    }
    Called {
        asks: true,
        ..called
    }
}

#[tactic(auto, unfolding(crate::specs::Events::store_asked_called, lists::specs::Choice::pick))]
fn store_asked(at: u8, count: usize) -> Called
    ensures { result ≡ store_asked_called at count }
{
    calls(if count == 1 {
        Event::StoreAsked(at)
    } else {
        Event::Bad
    })
}

// What a line of rig calls for whose first field has these two letters.
#[tactic(auto, unfolding(crate::specs::Events::two_called, lists::specs::Choice::pick))]
fn two(at: u8, m: u8, first: u8, second: u8, count: usize, line: &[u8]) -> Called
    ensures { result ≡ two_called at m first second count line.now }
{
    match (first, second) {
        (b'A', _) => ask(called_for(true, at, m, second, count, line)),
        (b'S', b'A') => store_asked(at, count),
        _ => calls(Event::Bad),
    }
}

// What a line with this first field and so many spaces calls for.
#[tactic(auto, unfolding(crate::specs::Events::word_called, lists::specs::Choice::pick))]
fn word_called(of_rig: bool, at: u8, m: u8, word: &[u8], count: usize, line: &[u8]) -> Called
    ensures { result ≡ word_called of_rig at m word.now count line.now }
{
    if of_rig && word.len() == 2 {
        two(at, m, word[0], word[1], count, line)
    } else {
        called_for(of_rig, at, m, letter(word), count, line)
    }
}

// What a line calls for, in a group of so many boxes with m readings. A line of rig's may have singles for readings, store a record, return a box, ask an
// event or commit a ticket.
#[tactic(auto, unfolding(crate::specs::Events::called, lists::specs::Choice::pick))]
pub fn call_in(of_rig: bool, boxes: u8, m: u8, line: &[u8]) -> Called
    ensures { result ≡ called of_rig boxes m line.now }
{
    let at = box_in(boxes, field(line, 1));
    if at == 0 {
        return calls(Event::Bad);
    }
    word_called(of_rig, at, m, field(line, 0), count_spaces(line), line)
}
