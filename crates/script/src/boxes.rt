// What is kept of a box, and what an event that is not asked gives at it.
ghost use Rattle.std.specs.Prelude.{◌≡◌};
ghost use Rattle.scram.specs.Answers.{answered};
ghost use Rattle.script.specs.Boxes.{nothing as Boxes·nothing, no_ask, unstored, with_ticketed, with_record, Gives, quietly, stepping, step_giving, ticked, given_up, arrived};
ghost use Rattle.script.specs.Play.{storing, returned_as, returning, fresh_box, fresh_boxes};

use asks::{Ticketed, with_tickets};
use frame::lengths::{LONGEST_COMMAND, LONGEST_FRAME};
use records::returning::stay_up;
use replica::{Replica, Settings};
use scram::Answer;
use transmitters::Reading;

// A frame and a command, in areas as long as the longest, and their lengths, 0 where there is none. Arrays with a length beside them, since nothing here
// has a heap.
#[derive(Clone, Copy)]
pub(crate) struct Outgoing {
    pub(crate) frame: [u8; LONGEST_FRAME],
    pub(crate) sent: usize,
    pub(crate) command: [u8; LONGEST_COMMAND],
    pub(crate) issued: usize,
}

// The latest ask of a box since it was made or returned: whether its answer was ok, and what it gave.
// It is no option: what an ask gave is printed also where its answer was not ok (`ask_printed` of specs/Play).
#[derive(Clone, Copy)]
pub(crate) struct Latest {
    pub(crate) ok: bool,
    pub(crate) gave: Outgoing,
}

// What is kept of a box: its replica with tickets, whether a record was stored, the replica whose record was stored last, and the latest ask.
// `recorded` is no option: `effect_of` says what a return gives at a box without a record too, from the replica that it was made with.
#[derive(Clone, Copy)]
pub(crate) struct Kept {
    pub(crate) ticketed: Ticketed,
    pub(crate) stored: bool,
    pub(crate) recorded: Replica,
    pub(crate) latest: Latest,
}

// What an event gives: its answer, the frame and the command that leave, and what is kept of the box then. No Result: what is kept comes back whatever the
// answer is.
#[derive(Clone, Copy)]
pub(crate) struct Effect {
    pub(crate) answer: Answer,
    pub(crate) gave: Outgoing,
    pub(crate) kept: Kept,
}

// No frame and no command.
pub(crate) fn nothing() -> Outgoing
    ensures { result ≡ Boxes·nothing }
{
    Outgoing {
        frame: [0u8; LONGEST_FRAME],
        sent: 0,
        command: [0u8; LONGEST_COMMAND],
        issued: 0,
    }
}

// No ask since a box was made or returned.
fn no_ask() -> Latest
    ensures { result ≡ no_ask }
{
    Latest {
        ok: false,
        gave: nothing(),
    }
}

// An event that leaves this of its box, and sends and issues nothing.
pub(crate) fn quiet(answer: Answer, kept: Kept) -> Effect
    ensures { Gives (quietly (answered answer) kept) result }
{
    Effect {
        answer,
        gave: nothing(),
        kept,
    }
}

// Another replica with its tickets.
pub(crate) fn with_ticketed(kept: Kept, ticketed: Ticketed) -> Kept
    ensures { result ≡ with_ticketed kept ticketed }
{
    Kept { ticketed, ..kept }
}

// A step that was not asked gave this, with these areas.
fn stepped(
    kept: Kept,
    one: asks::Stepped,
    frame: [u8; LONGEST_FRAME],
    command: [u8; LONGEST_COMMAND],
) -> Effect
    ensures { result ≡ step_giving kept one frame command }
{
    let gave = Outgoing {
        frame,
        sent: one.frame,
        command,
        issued: one.command,
    };
    Effect {
        answer: one.answer,
        gave,
        kept: with_ticketed(kept, one.ticketed),
    }
}

// Three bodies with one call apart: the areas that a step writes are its own, and a closure over the step would have to be handed them and say what it does
// to each.
pub(crate) fn tick(kept: Kept, readings: [Reading; 4]) -> Effect
    ensures { Gives (stepping kept (ticked kept readings)) result }
{
    let mut frame = [0u8; LONGEST_FRAME];
    let mut command = [0u8; LONGEST_COMMAND];
    let one = kept.ticketed.tick(readings, &mut frame, &mut command);
    stepped(kept, one, frame, command)
}

pub(crate) fn give_up(kept: Kept) -> Effect
    ensures { Gives (stepping kept (given_up kept)) result }
{
    let mut frame = [0u8; LONGEST_FRAME];
    let mut command = [0u8; LONGEST_COMMAND];
    let one = kept.ticketed.give_up(&mut frame, &mut command);
    stepped(kept, one, frame, command)
}

pub(crate) fn arrive(kept: Kept, bytes: &[u8]) -> Effect
    ensures { Gives (stepping kept (arrived kept bytes.now)) result }
{
    let mut frame = [0u8; LONGEST_FRAME];
    let mut command = [0u8; LONGEST_COMMAND];
    let one = kept.ticketed.arrive(bytes, &mut frame, &mut command);
    stepped(kept, one, frame, command)
}

// The record of a replica is stored.
pub(crate) fn with_record(kept: Kept, recorded: Replica) -> Kept
    ensures { result ≡ with_record kept recorded }
{
    Kept {
        stored: true,
        recorded,
        ..kept
    }
}

// The record of the box's replica is stored.
pub(crate) fn store(kept: Kept) -> Effect
    ensures { Gives (storing kept) result }
{
    quiet(Answer::Done, with_record(kept, kept.ticketed.replica))
}

// What is kept of a box that came back as this replica.
fn returned(kept: Kept, replica: Replica) -> Kept
    ensures { result ≡ returned_as kept replica }
{
    Kept {
        ticketed: with_tickets(replica),
        latest: no_ask(),
        ..kept
    }
}

// A box comes back from the record that it stored last; where returning is refused, it stays as it was.
pub(crate) fn come_back(kept: Kept, missed: u32) -> Effect
    ensures { Gives (returning kept missed) result }
{
    let last = kept.recorded;
    match stay_up(last, missed) {
        Ok(replica) => quiet(Answer::Done, returned(kept, replica)),
        Err(refusal) => quiet(Answer::Refused(refusal), kept),
    }
}

// A box with a fresh replica of this own number, and no record stored.
fn made(settings: Settings, own: u8) -> Kept
    ensures { result ≡ unstored (fresh_box settings own) }
{
    let replica = Replica::make(Settings { own, ..settings }).unwrap_or(replica::blank());
    Kept {
        ticketed: with_tickets(replica),
        stored: false,
        recorded: replica,
        latest: no_ask(),
    }
}

// Boxes with fresh replicas, box b at place b; one that refuses every event where there is no such box.
// Written out: its list is then the definition's by itself.
pub(crate) fn fresh(settings: Settings) -> [Kept; 10]
    ensures { result ≡ fresh_boxes settings }
{
    [
        made(settings, 0),
        made(settings, 1),
        made(settings, 2),
        made(settings, 3),
        made(settings, 4),
        made(settings, 5),
        made(settings, 6),
        made(settings, 7),
        made(settings, 8),
        made(settings, 9),
    ]
}
