// Writing a shift page.
ghost use Rattle.std.specs.Prelude.{◌≡◌};
ghost use Rattle.octets.specs.Areas.{over};
ghost use Rattle.pages.specs.Entries.{entries_of};
ghost use Rattle.pages.specs.Writing.{write_refusal, written};
ghost use Rattle.winder.specs.PageAreas.{length_after};

use crate::answers::refusal_number;

// Writes the page of these entries, of p commands each, to the start of an area. An entry takes seven words.
pub fn winder_write_page(p: usize, entries: &[u32], area: &mut [u8], length: &mut usize) -> u32
    ensures answer { result ≡ write_refusal p (entries_of entries.now) area.old }
    ensures area { area.new ≡ over (written p (entries_of entries.now) area.old) area.old }
    ensures length { length.new ≡ length_after p (entries_of entries.now) area.old length.old }
{
    match pages::writing::write(p, entries, area) {
        Ok(written) => {
            *length = written;
            0
        }
        Err(refusal) => refusal_number(refusal),
    }
}
