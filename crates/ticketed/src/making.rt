// Tickets for a replica that was made or returned.
ghost use Rattle.std.specs.Prelude.{◌≡◌, ◌≤◌, length};
ghost use Rattle.octets.specs.Areas.{put, over};
ghost use Rattle.scram.specs.Answers.{answered_of};
ghost use Rattle.records.specs.Lengths.{record_length};
ghost use Rattle.ticketed.specs.Lengths.{ticketed_length};
ghost use Rattle.ticketed.specs.TicketsPart.{ticket_bytes};
ghost use Rattle.ticketed.specs.Calls.{answer_of, fresh_tickets, tickets_refusal, with_tickets};

use crate::lengths::{LETTER, TICKETED, TICKETS};
use crate::words::copy;
use records::reading::read;
use refusal::Refusal;

// The tickets' part where no ticket was given.
fn put_fresh(area: &mut [u8])
    requires { ticketed_length ≤ length area.old }
    ensures { area.new ≡ put area.old record_length (ticket_bytes fresh_tickets) }
{
    let mut fresh = [0; TICKETS];
    fresh[0] = b'T';
    fresh[1] = 1;
    copy(&fresh, 0, TICKETS, area, LETTER);
}

// Writes a record to the start of an area, and behind it the tickets of a replica that was made or returned.
pub fn with_tickets(stored: &[u8], area: &mut [u8]) -> Result<(), Refusal>
    ensures answer { answered_of result ≡ answer_of (tickets_refusal stored.now (length area.old)) }
    ensures area { area.new ≡ over (with_tickets stored.now (length area.old)) area.old }
{
    read(stored)?;
    if area.len() < TICKETED {
        return Err(Refusal::Area);
    }
    records::recording::copy(stored, area);
    put_fresh(area);
    Ok(())
}
