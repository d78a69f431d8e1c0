// Asking first: a replica with tickets beside it, as a value. An event is asked, which makes no step, and its ticket is committed, which makes that step.
#![tactic(auto)]

pub mod asking;
pub mod ticket;

ghost use Rattle.std.specs.Prelude.{◌≡◌, length, IfOk};
ghost use Rattle.transmitters.specs.Conversion.{converted_row};
ghost use Rattle.replica.specs.Calls.{tick_outcome, give_up_outcome, arrive_outcome};
ghost use Rattle.asks.specs.Asking.{ticketless, ask_outcome, Asks, Steps, commit_answer, committed};
ghost use Rattle.scram.specs.Answers.{answered_of};

use asking::{answer_before, offer, step_giving, turn_down};
use records::reading::is_done;
use refusal::Refusal;
use replica::{Held, Replica};
use scram::Answer;
use ticket::{after_step, commits, no_tickets};
use transmitters::Reading;

// The latest ticket given, 0 before the first; whether it can be committed; and what the step leaves that the latest ask with the answer ok was for. No
// Option: a ticket that is void is the latest all the same, and what its step leaves is kept (`tickets_of`).
#[derive(Clone, Copy)]
pub struct Tickets {
    pub latest: u64,
    pub pending: bool,
    pub held: Held,
}

// A replica, and the tickets beside it.
#[derive(Clone, Copy)]
pub struct Ticketed {
    pub replica: Replica,
    pub tickets: Tickets,
}

// What an ask gives: its answer, its ticket, the replica with its tickets, and the lengths written to the frame area and to the command area, 0 where
// nothing was. No Result: ticket and replica come back whatever the answer is.
#[derive(Clone, Copy)]
pub struct Asked {
    pub answer: Answer,
    pub ticket: u64,
    pub ticketed: Ticketed,
    pub frame: usize,
    pub command: usize,
}

// What a step gives that was not asked. No Result: the replica goes in by value and comes back whatever the answer is.
#[derive(Clone, Copy)]
pub struct Stepped {
    pub answer: Answer,
    pub ticketed: Ticketed,
    pub frame: usize,
    pub command: usize,
}

// A replica that was made or returned: no ticket was given.
pub fn with_tickets(replica: Replica) -> Ticketed
    ensures { result ≡ ticketless replica }
{
    Ticketed {
        replica,
        tickets: no_tickets(replica.held),
    }
}

impl Ticketed {
    // Asks a tick with readings. The three asks, and the three steps below, are not one function that takes a closure: its contract would have to speak of
    // whatever the closure gives and of what it leaves in both lent areas, which is no plainer than the call that each differs in.
    pub fn ask_tick(
        self,
        readings: [Reading; 4],
        area: &mut [u8],
        frame: &mut [u8],
        command: &mut [u8],
    ) -> Asked
        ensures { Asks self (ask_outcome self (length area.old) (tick_outcome self.replica (converted_row readings) (length frame.old) (length command.old)))
            result area.old area.new frame.old frame.new command.old command.new }
    {
        let answer = answer_before(self, area.len());
        if !is_done(answer) {
            return turn_down(self, answer);
        }
        let stepped = self.replica.tick(readings, frame, command);
        offer(self, stepped, area)
    }

    // Asks to give up the view.
    pub fn ask_give_up(self, area: &mut [u8], frame: &mut [u8], command: &mut [u8]) -> Asked
        ensures { Asks self (ask_outcome self (length area.old) (give_up_outcome self.replica (length frame.old) (length command.old)))
            result area.old area.new frame.old frame.new command.old command.new }
    {
        let answer = answer_before(self, area.len());
        if !is_done(answer) {
            return turn_down(self, answer);
        }
        let stepped = self.replica.give_up(frame, command);
        offer(self, stepped, area)
    }

    // Asks for bytes that arrive as a frame.
    pub fn ask_arrive(
        self,
        bytes: &[u8],
        area: &mut [u8],
        frame: &mut [u8],
        command: &mut [u8],
    ) -> Asked
        ensures { Asks self (ask_outcome self (length area.old) (arrive_outcome self.replica bytes.now (length frame.old) (length command.old)))
            result area.old area.new frame.old frame.new command.old command.new }
    {
        let answer = answer_before(self, area.len());
        if !is_done(answer) {
            return turn_down(self, answer);
        }
        let stepped = self.replica.arrive(bytes, frame, command);
        offer(self, stepped, area)
    }

    // Commits a ticket: the step that its ask was for is made, and nothing is written.
    pub fn commit(self, ticket: u64) -> Result<Ticketed, Refusal>
        ensures answer { answered_of result ≡ commit_answer self ticket }
        ensures ticketed { IfOk result (λ ticketed. ticketed ≡ committed self ticket) }
    {
        if !commits(self.tickets, ticket) {
            return Err(Refusal::Ticket);
        }
        let tickets = after_step(self.tickets, true);
        let replica = Replica {
            held: self.tickets.held,
            ..self.replica
        };
        Ok(Ticketed { replica, tickets })
    }

    // A tick that was not asked.
    pub fn tick(self, readings: [Reading; 4], frame: &mut [u8], command: &mut [u8]) -> Stepped
        ensures { Steps self (tick_outcome self.replica (converted_row readings) (length frame.old) (length command.old))
            result frame.old frame.new command.old command.new }
    {
        let stepped = self.replica.tick(readings, frame, command);
        step_giving(self, stepped)
    }

    // The view is given up without an ask.
    pub fn give_up(self, frame: &mut [u8], command: &mut [u8]) -> Stepped
        ensures { Steps self (give_up_outcome self.replica (length frame.old) (length command.old))
            result frame.old frame.new command.old command.new }
    {
        let stepped = self.replica.give_up(frame, command);
        step_giving(self, stepped)
    }

    // Bytes that arrive as a frame, without an ask.
    pub fn arrive(self, bytes: &[u8], frame: &mut [u8], command: &mut [u8]) -> Stepped
        ensures { Steps self (arrive_outcome self.replica bytes.now (length frame.old) (length command.old))
            result frame.old frame.new command.old command.new }
    {
        let stepped = self.replica.arrive(bytes, frame, command);
        step_giving(self, stepped)
    }
}
