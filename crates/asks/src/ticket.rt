// What asks, steps and commits do with tickets.
ghost use Rattle.std.specs.Prelude.{◌≡◌};
ghost use Rattle.tickets.specs.Tickets.{no_tickets, is_spent, ticket_for, after_ask, after_step, commits as Tickets·commits};
ghost use Rattle.asks.specs.Asking.{tickets_of};

use crate::Tickets;
use replica::Held;

pub const LARGEST_TICKET: u64 = u64::MAX;

// None given.
pub fn no_tickets(held: Held) -> Tickets
    ensures { tickets_of result ≡ no_tickets held }
{
    Tickets {
        latest: 0,
        pending: false,
        held,
    }
}

// Whether the largest ticket was given.
pub fn is_spent(tickets: Tickets) -> bool
    ensures { result ≡ is_spent (tickets_of tickets) }
{
    tickets.latest == LARGEST_TICKET
}

// The ticket of the next ask.
#[tactic(auto, unfolding(lists::specs::Choice::pick))]
pub fn ticket_for(tickets: Tickets) -> u64
    ensures { result ≡ ticket_for (tickets_of tickets) }
{
    tickets.latest.checked_add(1).unwrap_or(0)
}

// The tickets after an ask whose step leaves this, and whether its answer is ok.
#[tactic(auto, unfolding(tickets::specs::Tickets::after_ask, lists::specs::Choice::pick))]
pub fn after_ask(tickets: Tickets, ok: bool, held: Held) -> Tickets
    ensures { tickets_of result ≡ after_ask (tickets_of tickets) ok held }
{
    let Some(latest) = tickets.latest.checked_add(1) else {
        return Tickets {
            pending: false,
            ..tickets
        };
    };
    Tickets {
        latest,
        pending: ok,
        held: if ok { held } else { tickets.held },
    }
}

// The tickets after a step that was not asked, and whether its answer is ok.
#[tactic(auto, unfolding(tickets::specs::Tickets::after_step, lists::specs::Choice::pick))]
pub fn after_step(tickets: Tickets, ok: bool) -> Tickets
    ensures { tickets_of result ≡ after_step (tickets_of tickets) ok }
{
    if ok {
        Tickets {
            pending: false,
            ..tickets
        }
    } else {
        tickets
    }
}

// Whether this ticket makes its step.
#[tactic(auto, unfolding(tickets::specs::Tickets::commits))]
pub fn commits(tickets: Tickets, ticket: u64) -> bool
    ensures { result ≡ Tickets·commits (tickets_of tickets) ticket }
{
    ticket == tickets.latest && tickets.pending
}
