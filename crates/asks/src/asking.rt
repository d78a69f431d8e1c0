// What the three asks share, and the three steps.
ghost use Rattle.std.specs.Prelude.{◌≡◌, [], length};
ghost use Rattle.lists.specs.Choice.{pick};
ghost use Rattle.octets.specs.Areas.{over};
ghost use Rattle.scram.specs.Answers.{answered};
ghost use Rattle.records.specs.Recording.{recorded};
ghost use Rattle.records.specs.Reading.{is_done};
ghost use Rattle.asks.specs.Asking.{answer_before, ask_giving, step_giving};

use crate::ticket::{after_ask, after_step, is_spent, ticket_for};
use crate::{Asked, Stepped, Ticketed};
use records::reading::is_done;
use records::recording::{check_recording, write};
use replica::{Held, Replica};
use scram::Answer;

// What is answered before the event is looked at, where the record area is so long: done where the event is.
pub(crate) fn answer_before(ticketed: Ticketed, area: usize) -> Answer
    ensures { answered result ≡ answer_before ticketed area }
{
    if is_spent(ticketed.tickets) {
        return Answer::Ignored;
    }
    match check_recording(&ticketed.replica.settings, area) {
        Ok(()) => Answer::Done,
        Err(refusal) => Answer::Refused(refusal),
    }
}

// An ask with this answer, whose step leaves this and writes so much.
fn ask_giving(ticketed: Ticketed, answer: Answer, held: Held, frame: usize, command: usize) -> Asked
    ensures { result ≡ ask_giving ticketed answer held frame command }
{
    let tickets = after_ask(ticketed.tickets, is_done(answer), held);
    Asked {
        answer,
        ticket: ticket_for(ticketed.tickets),
        ticketed: Ticketed {
            tickets,
            ..ticketed
        },
        frame,
        command,
    }
}

// An ask that is answered before its event is looked at.
pub(crate) fn turn_down(ticketed: Ticketed, answer: Answer) -> Asked
    ensures { result ≡ ask_giving ticketed answer ticketed.replica.held 0 0 }
{
    ask_giving(ticketed, answer, ticketed.replica.held, 0, 0)
}

// The record of a replica, where the step that left it was done.
fn write_done(answer: Answer, replica: Replica, area: &mut [u8])
    ensures { area.new ≡ over (pick (is_done (answered answer)) (recorded replica (length area.old)) []) area.old }
{
    if is_done(answer) {
        let _ = write(replica, area);
    }
}

// An ask whose step gives this.
pub(crate) fn offer(ticketed: Ticketed, stepped: replica::Stepped, area: &mut [u8]) -> Asked
    ensures asked { result ≡ ask_giving ticketed stepped.answer stepped.replica.held stepped.frame stepped.command }
    ensures area { area.new ≡ over (pick (is_done (answered stepped.answer)) (recorded stepped.replica (length area.old)) []) area.old }
{
    write_done(stepped.answer, stepped.replica, area);
    ask_giving(
        ticketed,
        stepped.answer,
        stepped.replica.held,
        stepped.frame,
        stepped.command,
    )
}

// A step that was not asked gave this: where it was done, the ticket is void.
pub(crate) fn step_giving(ticketed: Ticketed, stepped: replica::Stepped) -> Stepped
    ensures { result ≡ step_giving ticketed stepped }
{
    let tickets = after_step(ticketed.tickets, is_done(stepped.answer));
    Stepped {
        answer: stepped.answer,
        ticketed: Ticketed {
            replica: stepped.replica,
            tickets,
        },
        frame: stepped.frame,
        command: stepped.command,
    }
}
