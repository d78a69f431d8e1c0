// Asking first: an ask makes no step, so the record stays, and the tickets' part gets what its step would leave.
ghost use Rattle.std.specs.Prelude.{◌≡◌, true, ◌≤◌, length};
ghost use Rattle.transmitters.specs.Conversion.{converted_row};
ghost use Rattle.transmitters.specs.Numbers.{readings_of};
ghost use Rattle.replica.specs.Calls.{tick_outcome, give_up_outcome, arrive_outcome};
ghost use Rattle.records.specs.Lengths.{record_length};
ghost use Rattle.ticketed.specs.Lengths.{ticketed_length};
ghost use Rattle.ticketed.specs.TicketsPart.{tickets_at};
ghost use Rattle.ticketed.specs.Reading.{head_ok};
ghost use Rattle.ticketed.specs.Calls.{ask_at, Asks, askable, noted, asked_as, refused_ask};

use crate::Asked;
use crate::lengths::{LATEST, MARK, STEP};
use crate::reading::read;
use crate::words::{copy, put_u64, u64_at};
use asks::{Ticketed, Tickets};
use octets::word::put_bytes;
use records::lengths::{HELD, SETTINGS};
use refusal::Refusal;
use replica::Replica;
use scram::Answer;
use transmitters::numbers::readings_of;

// An ask at bytes that are no replica with tickets: no ticket is given.
fn refused() -> Asked
    ensures { result ≡ refused_ask }
{
    Asked {
        answer: Answer::Refused(Refusal::Record),
        ticket: 0,
        frame: 0,
        command: 0,
    }
}

// The replica with the tickets beside it, for an ask.
fn askable_in(before: Replica, replica: &[u8]) -> Ticketed
    requires { length replica.now ≡ ticketed_length }
    ensures { result ≡ askable before (tickets_at replica.now) }
{
    let tickets = Tickets {
        latest: u64_at(replica, LATEST),
        pending: replica[MARK] == 1,
        held: before.held,
    };
    Ticketed {
        replica: before,
        tickets,
    }
}

// The tickets' part after an ask: where its ticket can be committed, what its step leaves is taken from the record that it gave.
fn put_tickets(latest: u64, pending: bool, area: &[u8], replica: &mut [u8])
    requires { (length replica.old ≡ ticketed_length) × (head_ok replica.old ≡ true) × (pending ≡ true → record_length ≤ length area.now) }
    ensures { replica.new ≡ noted replica.old latest pending area.now }
{
    put_bytes(replica, MARK, &[u8::from(pending)]);
    put_u64(replica, LATEST, latest);
    if pending {
        copy(area, SETTINGS, HELD, replica, STEP);
    }
}

// What an ask gave: its tickets go to the tickets' part.
fn note(asked: asks::Asked, area: &[u8], replica: &mut [u8]) -> Asked
    requires { (length replica.old ≡ ticketed_length) × (head_ok replica.old ≡ true) × (asked.ticketed.tickets.pending ≡ true → record_length ≤ length area.now) }
    ensures asked { result ≡ asked_as asked }
    ensures replica { replica.new ≡ noted replica.old asked.ticketed.tickets.latest asked.ticketed.tickets.pending area.now }
{
    put_tickets(
        asked.ticketed.tickets.latest,
        asked.ticketed.tickets.pending,
        area,
        replica,
    );
    Asked {
        answer: asked.answer,
        ticket: asked.ticket,
        frame: asked.frame,
        command: asked.command,
    }
}

// Asks a tick with readings, each by its kind and its bits. The three asks differ in one call; a closure for it would be handed both lent areas, and its
// contract would say what it does to each.
pub fn ask_tick(
    replica: &mut [u8],
    kinds: &[u8; 4],
    bits: &[u32; 4],
    area: &mut [u8],
    frame: &mut [u8],
    command: &mut [u8],
) -> Asked
    ensures { Asks replica.old
        (ask_at replica.old (length area.old) (λ x. tick_outcome x (converted_row (readings_of kinds.now bits.now)) (length frame.old) (length command.old)))
        result replica.new area.old area.new frame.old frame.new command.old command.new }
{
    let Some(before) = read(replica) else {
        return refused();
    };
    let ticketed = askable_in(before, replica);
    let readings = readings_of(kinds, bits);
    let asked = ticketed.ask_tick(readings, area, frame, command);
    note(asked, area, replica)
}

// Asks to give up the view.
pub fn ask_give_up(
    replica: &mut [u8],
    area: &mut [u8],
    frame: &mut [u8],
    command: &mut [u8],
) -> Asked
    ensures { Asks replica.old
        (ask_at replica.old (length area.old) (λ x. give_up_outcome x (length frame.old) (length command.old)))
        result replica.new area.old area.new frame.old frame.new command.old command.new }
{
    let Some(before) = read(replica) else {
        return refused();
    };
    let ticketed = askable_in(before, replica);
    let asked = ticketed.ask_give_up(area, frame, command);
    note(asked, area, replica)
}

// Asks for bytes that arrive as a frame.
pub fn ask_arrive(
    replica: &mut [u8],
    bytes: &[u8],
    area: &mut [u8],
    frame: &mut [u8],
    command: &mut [u8],
) -> Asked
    ensures { Asks replica.old
        (ask_at replica.old (length area.old) (λ x. arrive_outcome x bytes.now (length frame.old) (length command.old)))
        result replica.new area.old area.new frame.old frame.new command.old command.new }
{
    let Some(before) = read(replica) else {
        return refused();
    };
    let ticketed = askable_in(before, replica);
    let asked = ticketed.ask_arrive(bytes, area, frame, command);
    note(asked, area, replica)
}
