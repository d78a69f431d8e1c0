// Writing a page.
ghost use Rattle.std.specs.Prelude.{◌≡◌, length, IfOk};
ghost use Rattle.octets.specs.Areas.{over};
ghost use Rattle.refusal.specs.Numbers.{number_of};
ghost use Rattle.pages.specs.Entries.{entries_of};
ghost use Rattle.pages.specs.Writing.{write_refusal, written};

use crate::entries::commands_ok;
use crate::lines::{PAGE, put_lines};
use crate::placing::place_words;
use refusal::Refusal;

// Writes the page of the entries in these words, of p commands each, to the start of an area: the length of the page.
pub fn write(p: usize, words: &[u32], area: &mut [u8]) -> Result<usize, Refusal>
    ensures answer { number_of result ≡ write_refusal p (entries_of words.now) area.old }
    ensures count { IfOk result (λ n. n ≡ length (written p (entries_of words.now) area.old)) }
    ensures bytes { area.new ≡ over (written p (entries_of words.now) area.old) area.old }
{
    if !commands_ok(p) {
        return Err(Refusal::Sizes);
    }
    if area.len() < PAGE {
        return Err(Refusal::PageArea);
    }
    let placed = place_words(words);
    if placed.more {
        return Err(Refusal::Page);
    }
    Ok(put_lines(area, 0, p, placed.page.entries()))
}
