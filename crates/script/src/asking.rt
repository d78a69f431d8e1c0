// Events asked first: asks, commits and the records of asks, at a box.
ghost use Rattle.std.specs.Prelude.{◌≡◌};
ghost use Rattle.lists.specs.Choice.{pick};
ghost use Rattle.script.specs.Boxes.{Gives, ticked, given_up, arrived};
ghost use Rattle.script.specs.Asking.{Asks, asking, ask_giving, not_asked as Asking·not_asked, ask_of, committing, asked_replica, storing_asked};

use crate::boxes::{Effect, Kept, Latest, Outgoing, quiet, with_record, with_ticketed};
use asks::{Asked, Ticketed};
use frame::lengths::{LONGEST_COMMAND, LONGEST_FRAME};
use line::events::Event;
use records::lengths::RECORD;
use records::reading::is_done;
use replica::Replica;
use scram::Answer;
use transmitters::Reading;

// What an ask gives: its answer and its ticket, what is kept of the box then, and the replica that is shown. No Result: they count whatever the answer is.
#[derive(Clone, Copy)]
pub(crate) struct AskEffect {
    pub(crate) answer: Answer,
    pub(crate) ticket: u64,
    pub(crate) kept: Kept,
    pub(crate) shown: Replica,
}

// The replica that the latest ask with the answer ok would make.
fn asked_replica(ticketed: Ticketed) -> Replica
    ensures { result ≡ asked_replica ticketed }
{
    Replica {
        settings: ticketed.replica.settings,
        held: ticketed.tickets.held,
    }
}

// The replica that is shown of an ask: the one that its step would leave, where its answer is ok.
#[tactic(auto, unfolding(lists::specs::Choice::pick))]
fn shown_of(ok: bool, ticketed: Ticketed) -> Replica
    ensures { result ≡ pick ok (asked_replica ticketed) ticketed.replica }
{
    if ok {
        asked_replica(ticketed)
    } else {
        ticketed.replica
    }
}

// An ask gave this, with these areas.
fn asked(
    kept: Kept,
    one: Asked,
    frame: [u8; LONGEST_FRAME],
    command: [u8; LONGEST_COMMAND],
) -> AskEffect
    ensures { result ≡ ask_giving kept one frame command }
{
    let ok = is_done(one.answer);
    let gave = Outgoing {
        frame,
        sent: one.frame,
        command,
        issued: one.command,
    };
    AskEffect {
        answer: one.answer,
        ticket: one.ticket,
        kept: Kept {
            ticketed: one.ticketed,
            latest: Latest { ok, gave },
            ..kept
        },
        shown: shown_of(ok, one.ticketed),
    }
}

// Three bodies with one call apart: the areas that a step writes are its own, and a closure over the step would have to be handed them and say what it does
// to each.
fn ask_tick(kept: Kept, readings: [Reading; 4]) -> AskEffect
    ensures { Asks (asking kept (ticked kept readings)) result }
{
    let mut area = [0u8; RECORD];
    let mut frame = [0u8; LONGEST_FRAME];
    let mut command = [0u8; LONGEST_COMMAND];
    let one = kept
        .ticketed
        .ask_tick(readings, &mut area, &mut frame, &mut command);
    asked(kept, one, frame, command)
}

fn ask_give_up(kept: Kept) -> AskEffect
    ensures { Asks (asking kept (given_up kept)) result }
{
    let mut area = [0u8; RECORD];
    let mut frame = [0u8; LONGEST_FRAME];
    let mut command = [0u8; LONGEST_COMMAND];
    let one = kept
        .ticketed
        .ask_give_up(&mut area, &mut frame, &mut command);
    asked(kept, one, frame, command)
}

fn ask_arrive(kept: Kept, bytes: &[u8]) -> AskEffect
    ensures { Asks (asking kept (arrived kept bytes.now)) result }
{
    let mut area = [0u8; RECORD];
    let mut frame = [0u8; LONGEST_FRAME];
    let mut command = [0u8; LONGEST_COMMAND];
    let one = kept
        .ticketed
        .ask_arrive(bytes, &mut area, &mut frame, &mut command);
    asked(kept, one, frame, command)
}

// A line asks for no other event.
fn not_asked(kept: Kept) -> AskEffect
    ensures { Asks (Asking·not_asked kept) result }
{
    AskEffect {
        answer: Answer::Ignored,
        ticket: 0,
        kept,
        shown: kept.ticketed.replica,
    }
}

// The ask of an event at a box.
pub(crate) fn ask(kept: Kept, event: Event, readings: [Reading; 4], bytes: &[u8]) -> AskEffect
    ensures { Asks (ask_of kept event readings bytes.now) result }
{
    match event {
        Event::Tick(_) => ask_tick(kept, readings),
        Event::GiveUp(_) => ask_give_up(kept),
        Event::Deliver(_, _) => ask_arrive(kept, bytes),
        _ => not_asked(kept),
    }
}

// A box commits a ticket: on ok what the ask gave leaves, else nothing changes.
pub(crate) fn commit(kept: Kept, ticket: u64) -> Effect
    ensures { Gives (committing kept ticket) result }
{
    match kept.ticketed.commit(ticket) {
        Ok(ticketed) => Effect {
            answer: Answer::Done,
            gave: kept.latest.gave,
            kept: with_ticketed(kept, ticketed),
        },
        Err(refusal) => quiet(Answer::Refused(refusal), kept),
    }
}

// The record that the latest ask gave is stored.
pub(crate) fn store_asked(kept: Kept) -> Effect
    ensures { Gives (storing_asked kept) result }
{
    quiet(
        Answer::Done,
        with_record(kept, asked_replica(kept.ticketed)),
    )
}
