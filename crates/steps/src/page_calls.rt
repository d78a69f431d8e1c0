// Reading a shift page, for the comparison alone.
ghost use Rattle.std.specs.Prelude.{◌≡◌, get_or};
ghost use Rattle.pages.specs.Entries.{blank as Entries·blank};
ghost use Rattle.steps.specs.Pages.{words_of, ReadsPage};

use octets::word::bits;
use pages::entries::{Entry, blank};
use pages::lines::{MOST, Page};
use winder::answers::refusal_number;

// The words of an entry.
fn words_of(entry: Entry) -> [u32; 7]
    ensures { result ≡ words_of entry }
{
    let command = entry.values();
    [
        entry.period,
        entry.view,
        u32::from(entry.command.is_some()),
        bits(command[0]),
        bits(command[1]),
        bits(command[2]),
        bits(command[3]),
    ]
}

// What stands on a line; the places that are not in use are blank.
fn line_of(page: Page, line: usize) -> Entry
    ensures { result ≡ get_or page.lines line Entries·blank }
{
    if line < MOST {
        page.lines[line]
    } else {
        blank()
    }
}

// Reads a page of p commands: the number of its lines, and the words of one of them.
#[unsafe(no_mangle)]
pub extern "C" fn steps_read_page(
    p: usize,
    bytes: &[u8],
    line: usize,
    count: &mut usize,
    words: &mut [u32; 7],
) -> u32
    ensures { ReadsPage p bytes.now line result count.old count.new words.old words.new }
{
    match pages::reading::read(p, bytes) {
        Ok(page) => {
            *count = page.count;
            *words = words_of(line_of(page, line));
            0
        }
        Err(refusal) => refusal_number(refusal),
    }
}
