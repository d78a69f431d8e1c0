// Committing a ticket.
ghost use Rattle.std.specs.Prelude.{◌≡◌, [], ◌∷◌, length};
ghost use Rattle.octets.specs.Areas.{put};
ghost use Rattle.scram.specs.Answers.{answered_of};
ghost use Rattle.tickets.specs.Tickets.{commits as Tickets·commits};
ghost use Rattle.records.specs.Lengths.{settings_length};
ghost use Rattle.ticketed.specs.Lengths.{ticketed_length};
ghost use Rattle.ticketed.specs.TicketsPart.{tickets_at};
ghost use Rattle.ticketed.specs.Calls.{answer_of, committing_refusal, committing as Calls·committing};

use crate::lengths::{LATEST, MARK, STEP};
use crate::reading::read;
use crate::words::{copy, u64_at};
use octets::word::put_bytes;
use records::lengths::{HELD, SETTINGS};
use refusal::Refusal;

// Whether this ticket makes its step.
#[tactic(auto, unfolding(tickets::specs::Tickets::commits, crate::specs::TicketsPart::tickets_at))]
fn commits(area: &[u8], ticket: u64) -> bool
    requires { length area.now ≡ ticketed_length }
    ensures { result ≡ Tickets·commits (tickets_at area.now) ticket }
{
    ticket == u64_at(area, LATEST) && area[MARK] == 1
}

// What the step leaves goes where what is held stands, and the ticket is void.
fn make_step(area: &mut [u8])
    requires { length area.old ≡ ticketed_length }
    ensures { area.new ≡ put (put area.old settings_length (tickets_at area.old).step) 618 (0 ∷ []) }
{
    let mut step = [0; HELD];
    copy(area, STEP, HELD, &mut step, 0);
    copy(&step, 0, HELD, area, SETTINGS);
    put_bytes(area, MARK, &[0]);
}

// Commits a ticket: the step that its ask was for is made.
pub fn commit(area: &mut [u8], ticket: u64) -> Result<(), Refusal>
    ensures answer { answered_of result ≡ answer_of (committing_refusal area.old ticket) }
    ensures area { area.new ≡ Calls·committing area.old ticket }
{
    if read(area).is_none() {
        return Err(Refusal::Record);
    }
    if !commits(area, ticket) {
        return Err(Refusal::Ticket);
    }
    make_step(area);
    Ok(())
}
