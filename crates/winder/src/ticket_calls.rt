// Asking first, for C: a replica with its tickets is an area. The work is crate ticketed's; here its answers become numbers.
ghost use Rattle.std.specs.Prelude.{◌≡◌, [], ◌∷◌, length};
ghost use Rattle.octets.specs.Areas.{over};
ghost use Rattle.scram.specs.Answers.{answered};
ghost use Rattle.transmitters.specs.Conversion.{converted_row};
ghost use Rattle.transmitters.specs.Numbers.{readings_of};
ghost use Rattle.replica.specs.Calls.{tick_outcome, give_up_outcome, arrive_outcome};
ghost use Rattle.ticketed.specs.Calls.{tickets_refusal, with_tickets, ask_at, committing_refusal, committing, step_at};
ghost use Rattle.winder.specs.Answers.{number_of};
ghost use Rattle.winder.specs.TicketAreas.{Asks, Steps};

use crate::answers::{replica_number, result_number};
use ticketed::{Asked, Stepped};

// Writes the record of a replica that was made or returned to the start of an area, with its tickets behind it: none was given.
pub fn winder_tickets(replica: &[u8], area: &mut [u8]) -> u32
    ensures answer { result ≡ tickets_refusal replica.now (length area.old) }
    ensures area { area.new ≡ over (with_tickets replica.now (length area.old)) area.old }
{
    result_number(ticketed::making::with_tickets(replica, area))
}

// What an ask leaves besides the areas.
fn leave_ask(asked: Asked, lengths: &mut [usize; 2], ticket: &mut [u64; 1]) -> u32
    ensures answer { result ≡ number_of (answered asked.answer) }
    ensures lengths { lengths.new ≡ asked.frame ∷ asked.command ∷ [] }
    ensures ticket { ticket.new ≡ asked.ticket ∷ [] }
{
    *lengths = [asked.frame, asked.command];
    *ticket = [asked.ticket];
    let answer = asked.answer;
    replica_number(answer)
}

// Asks a tick with readings, each by its kind and its bits.
pub fn winder_ask_tick(
    replica: &mut [u8],
    kinds: &[u8; 4],
    bits: &[u32; 4],
    area: &mut [u8],
    frame: &mut [u8],
    command: &mut [u8],
    lengths: &mut [usize; 2],
    ticket: &mut [u64; 1],
) -> u32
    ensures { Asks replica.old
        (ask_at replica.old (length area.old) (λ x. tick_outcome x (converted_row (readings_of kinds.now bits.now)) (length frame.old) (length command.old)))
        result replica.new lengths.new ticket.new area.old area.new frame.old frame.new command.old command.new }
{
    let asked = ticketed::asking::ask_tick(replica, kinds, bits, area, frame, command);
    leave_ask(asked, lengths, ticket)
}

// Asks to give up the view.
pub fn winder_ask_give_up(
    replica: &mut [u8],
    area: &mut [u8],
    frame: &mut [u8],
    command: &mut [u8],
    lengths: &mut [usize; 2],
    ticket: &mut [u64; 1],
) -> u32
    ensures { Asks replica.old
        (ask_at replica.old (length area.old) (λ x. give_up_outcome x (length frame.old) (length command.old)))
        result replica.new lengths.new ticket.new area.old area.new frame.old frame.new command.old command.new }
{
    let asked = ticketed::asking::ask_give_up(replica, area, frame, command);
    leave_ask(asked, lengths, ticket)
}

// Asks for bytes that arrive as a frame.
pub fn winder_ask_arrive(
    replica: &mut [u8],
    bytes: &[u8],
    area: &mut [u8],
    frame: &mut [u8],
    command: &mut [u8],
    lengths: &mut [usize; 2],
    ticket: &mut [u64; 1],
) -> u32
    ensures { Asks replica.old
        (ask_at replica.old (length area.old) (λ x. arrive_outcome x bytes.now (length frame.old) (length command.old)))
        result replica.new lengths.new ticket.new area.old area.new frame.old frame.new command.old command.new }
{
    let asked = ticketed::asking::ask_arrive(replica, bytes, area, frame, command);
    leave_ask(asked, lengths, ticket)
}

// Commits a ticket: the step that its ask was for is made.
pub fn winder_commit(replica: &mut [u8], ticket: u64) -> u32
    ensures answer { result ≡ committing_refusal replica.old ticket }
    ensures replica { replica.new ≡ committing replica.old ticket }
{
    result_number(ticketed::committing::commit(replica, ticket))
}

// What a step leaves besides the areas.
fn leave_step(stepped: Stepped, lengths: &mut [usize; 2]) -> u32
    ensures answer { result ≡ number_of (answered stepped.answer) }
    ensures lengths { lengths.new ≡ stepped.frame ∷ stepped.command ∷ [] }
{
    *lengths = [stepped.frame, stepped.command];
    let answer = stepped.answer;
    replica_number(answer)
}

// A tick without an ask.
pub fn winder_ticketed_tick(
    replica: &mut [u8],
    kinds: &[u8; 4],
    bits: &[u32; 4],
    frame: &mut [u8],
    command: &mut [u8],
    lengths: &mut [usize; 2],
) -> u32
    ensures { Steps replica.old
        (step_at replica.old (λ x. tick_outcome x (converted_row (readings_of kinds.now bits.now)) (length frame.old) (length command.old)))
        result replica.new lengths.new frame.old frame.new command.old command.new }
{
    let stepped = ticketed::stepping::tick(replica, kinds, bits, frame, command);
    leave_step(stepped, lengths)
}

// The view is given up without an ask.
pub fn winder_ticketed_give_up(
    replica: &mut [u8],
    frame: &mut [u8],
    command: &mut [u8],
    lengths: &mut [usize; 2],
) -> u32
    ensures { Steps replica.old
        (step_at replica.old (λ x. give_up_outcome x (length frame.old) (length command.old)))
        result replica.new lengths.new frame.old frame.new command.old command.new }
{
    let stepped = ticketed::stepping::give_up(replica, frame, command);
    leave_step(stepped, lengths)
}

// Bytes that arrive as a frame, without an ask.
pub fn winder_ticketed_arrive(
    replica: &mut [u8],
    bytes: &[u8],
    frame: &mut [u8],
    command: &mut [u8],
    lengths: &mut [usize; 2],
) -> u32
    ensures { Steps replica.old
        (step_at replica.old (λ x. arrive_outcome x bytes.now (length frame.old) (length command.old)))
        result replica.new lengths.new frame.old frame.new command.old command.new }
{
    let stepped = ticketed::stepping::arrive(replica, bytes, frame, command);
    leave_step(stepped, lengths)
}
