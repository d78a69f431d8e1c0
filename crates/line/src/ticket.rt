// Tickets as the lines of rig write them: decimal, without needless zeros or a sign, of 64 bits.
ghost use Rattle.std.specs.Prelude.{◌≡◌};
ghost use Rattle.line.specs.Tickets.{ticket_of};

use text::numbers::read_unsigned;

// The ticket that a field holds.
pub fn ticket_in(word: &[u8]) -> Option<u64>
    ensures { result ≡ ticket_of word.now }
{
    read_unsigned(word, u64::MAX)
}
