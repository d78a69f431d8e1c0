// Tickets printed: numbers of 64 bits in decimal.
ghost use Rattle.text.specs.Printing.{Puts};
ghost use Rattle.script.specs.Printing.{ticket_word};

use text::printing::{put_byte, put_unsigned};

// A space and a ticket.
pub(crate) fn put_ticket(text: &mut [u8], at: usize, ticket: u64) -> usize
    ensures { Puts text.old at (ticket_word ticket) result text.new }
{
    let at = put_byte(text, at, b' ');
    put_unsigned::<20>(text, at, ticket)
}
