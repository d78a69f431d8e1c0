// One line of a script played: at most one event at one box, with the frame that it sends and the line that is printed.
ghost use Rattle.std.specs.Prelude.{◌≡◌, ◌&&◌, ◌+◌, ◌≤◌, length};
ghost use Rattle.text.specs.Printing.{Puts};
ghost use Rattle.line.specs.Frames.{kept as sent_kept};
ghost use Rattle.script.specs.Printing.{bad_line};
ghost use Rattle.script.specs.Boxes.{Gives};
ghost use Rattle.script.specs.Asking.{ask_of};
ghost use Rattle.script.specs.Play.{most, box_in, line_in, playable, has_room, place_of, effect_of, arriving as Play·arriving, after_step, after_event, Leaves, AskLeaves};

use crate::asking::{ask, commit, store_asked};
use crate::boxes::{Effect, Kept, Outgoing, arrive, come_back, give_up, quiet, store, tick};
use crate::printing::{ask_line, bad_line, step_line};
use line::events::Event;
use line::frames::{frame_of, keep, was_sent};
use scram::Answer;
use transmitters::Reading;

// "at most 500 lines": each has a slot in the table of frames and a place in the list of their lengths, and lines are counted from 1.
pub(crate) const MOST: u32 = 500;

pub(crate) const TABLE: usize = 34569;

pub(crate) const LENGTHS: usize = 501;

// What a line leaves: what is kept of its box, and where the text that was printed ends.
#[derive(Clone, Copy)]
pub(crate) struct PlayedLine {
    pub(crate) kept: Kept,
    pub(crate) end: usize,
}

// One event at a box; the bytes are those of the frame delivered.
fn step(kept: Kept, event: Event, readings: [Reading; 4], bytes: &[u8]) -> Effect
    ensures { Gives (effect_of kept event readings bytes.now) result }
{
    match event {
        Event::Tick(_) => tick(kept, readings),
        Event::GiveUp(_) => give_up(kept),
        Event::Deliver(_, _) => arrive(kept, bytes),
        Event::Store(_) => store(kept),
        Event::Return(_, missed) => come_back(kept, missed),
        Event::Commit(_, ticket) => commit(kept, ticket),
        Event::StoreAsked(_) => store_asked(kept),
        Event::Bad => quiet(Answer::Ignored, kept),
    }
}

// The box that an event is for, 0 where there is none.
#[tactic(auto, unfolding(crate::specs::Play::box_in))]
fn box_of(event: Event) -> u8
    ensures { result ≡ box_in event }
{
    match event {
        Event::Tick(at) => at,
        Event::GiveUp(at) => at,
        Event::Deliver(at, _) => at,
        Event::Store(at) => at,
        Event::Return(at, _) => at,
        Event::Commit(at, _) => at,
        Event::StoreAsked(at) => at,
        Event::Bad => 0,
    }
}

// The line whose frame is delivered, 0 where none is.
#[tactic(auto, unfolding(crate::specs::Play::line_in))]
fn line_of(event: Event) -> u32
    ensures { result ≡ line_in event }
{
    match event {
        Event::Deliver(_, f) => f,
        _ => 0,
    }
}

// Whether a line can be played: it is of the format, a frame that it delivers was sent before, a box that comes back has stored a record, and the latest ask
// was ok where its record is stored.
fn is_playable(stored: bool, asked: bool, event: Event, number: u32, lengths: &[usize]) -> bool
    ensures { result ≡ playable stored asked event number lengths.now }
{
    match event {
        Event::Deliver(_, f) => was_sent(lengths, number, f),
        Event::Return(_, _) => stored,
        Event::StoreAsked(_) => asked,
        Event::Bad => false,
        _ => true,
    }
}

// Whether there is room for the line's frame, and a place for its box.
#[tactic(auto, unfolding(crate::specs::Play::has_room))]
fn has_room(event: Event, number: u32, table: usize, lengths: usize) -> bool
    ensures { result ≡ has_room event number table lengths }
{
    number <= MOST && box_of(event) <= 9 && TABLE <= table && LENGTHS <= lengths
}

// Whether a line can be played, and has room.
fn can_play(
    stored: bool,
    asked: bool,
    event: Event,
    number: u32,
    table: usize,
    lengths: &[usize],
) -> bool
    ensures { result ≡ (has_room event number table (length lengths.now) && playable stored asked event number lengths.now) }
{
    has_room(event, number, table, lengths.len())
        && is_playable(stored, asked, event, number, lengths)
}

// A line that is none of the format, or cannot be played.
fn bad(kept: Kept, number: u32, text: &mut [u8], at: usize) -> PlayedLine
    ensures { (result.kept ≡ kept) × Puts text.old at (bad_line number) result.end text.new }
{
    let end = bad_line(text, at, number);
    PlayedLine { kept, end }
}

// The bytes of the frame that an event delivers, none for any other event.
fn arriving<'a>(event: Event, table: &'a [u8], lengths: &[usize]) -> &'a [u8]
    requires { (line_in event ≤ most) × (most + 1 ≤ length lengths.now) }
    ensures { result.now ≡ Play·arriving event table.now lengths.now }
{
    let line = line_of(event);
    frame_of(table, line, lengths[line as usize])
}

// Puts the frame that line `number` sent into the table.
fn keep_sent(table: &mut [u8], number: u32, gave: Outgoing)
    ensures { table.new ≡ sent_kept table.old number gave.frame gave.sent }
{
    keep(table, number, &gave.frame, gave.sent);
}

// The event of a line that can be played, at its box.
fn play_event(
    kept: Kept,
    event: Event,
    readings: [Reading; 4],
    number: u32,
    table: &mut [u8],
    lengths: &mut [usize],
    text: &mut [u8],
    at: usize,
) -> PlayedLine
    requires { (line_in event ≤ most) × (number ≤ most) × (most + 1 ≤ length lengths.old) }
    ensures { Leaves (after_step event number table.old lengths.old
        (effect_of kept event readings (Play·arriving event table.old lengths.old)))
        at result table.new lengths.new text.old text.new }
{
    let one = step(kept, event, readings, arriving(event, table, lengths));
    keep_sent(table, number, one.gave);
    lengths[number as usize] = one.gave.sent;
    let replica = one.kept.ticketed.replica;
    let end = step_line(
        text,
        at,
        number,
        box_of(event),
        one.answer,
        one.gave,
        replica,
    );
    PlayedLine {
        kept: one.kept,
        end,
    }
}

// The event of a line that asks it, at its box. Nothing is sent.
fn ask_event(
    kept: Kept,
    event: Event,
    readings: [Reading; 4],
    number: u32,
    bytes: &[u8],
    text: &mut [u8],
    at: usize,
) -> PlayedLine
    ensures { AskLeaves event number (ask_of kept event readings bytes.now) at result text.old text.new }
{
    let one = ask(kept, event, readings, bytes);
    let end = ask_line(
        text,
        at,
        number,
        box_of(event),
        one.answer,
        one.kept.latest.gave,
        one.ticket,
        one.shown,
    );
    PlayedLine {
        kept: one.kept,
        end,
    }
}

// The line of an event played, at its box; `asks` tells whether the event is asked.
pub(crate) fn play(
    kept: Kept,
    asks: bool,
    event: Event,
    readings: [Reading; 4],
    number: u32,
    table: &mut [u8],
    lengths: &mut [usize],
    text: &mut [u8],
    at: usize,
) -> PlayedLine
    ensures { Leaves (after_event kept asks event readings number table.old lengths.old)
        at result table.new lengths.new text.old text.new }
{
    if !can_play(
        kept.stored,
        kept.latest.ok,
        event,
        number,
        table.len(),
        lengths,
    ) {
        return bad(kept, number, text, at);
    }
    if asks {
        return ask_event(
            kept,
            event,
            readings,
            number,
            arriving(event, table, lengths),
            text,
            at,
        );
    }
    play_event(kept, event, readings, number, table, lengths, text, at)
}

// The place of the box that an event is for: box b has place b, and place 0 is no box's.
#[tactic(auto, unfolding(crate::specs::Play::place_of, lists::specs::Choice::pick))]
pub(crate) fn place_of(event: Event) -> usize
    ensures place { result ≡ place_of event }
    ensures bound { result ≤ 9 }
{
    let at = box_of(event);
    if at < 10 { at as usize } else { 0 }
}
