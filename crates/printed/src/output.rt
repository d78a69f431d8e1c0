// The pages of a text: what program page prints of its standard input.
ghost use Rattle.std.specs.Prelude.{◌≡◌, true, false, [], ◌∷◌, ◌+◌, ◌≤◌, ltb, get_or, take};
ghost use Rattle.lists.specs.Choice.{pick};
ghost use Rattle.text.specs.Printing.{Puts};
ghost use Rattle.pages.specs.Entries.{blank};
ghost use Rattle.pages.specs.Page.{on_page, placed as Page·placed, rises};
ghost use Rattle.pages.specs.Placing.{Holds};
ghost use Rattle.printed.specs.Pages.{paged, most_pages, Pages};
ghost use Rattle.printed.specs.Placing.{entries_from};

use crate::taking::{count_passed, first_commands, take_entries};
use pages::entries::Entry;
use pages::lines::{Page, put_lines};
use pages::placing::{Placed, nothing, place};
use text::printing::put_byte;

// No text has longer pages.
pub const OUTPUT: usize = 39436;

// 501 entries have room on so many pages.
const PAGES: usize = 9;

// The length of the pages, and how many lines were passed over: two numbers, of which each counts whatever the other is.
#[derive(Clone, Copy)]
pub struct Paged {
    pub length: usize,
    pub passed: usize,
}

// An entry in its place, where its period is not below `from`.
fn place_from(from: u64, placed: Placed, entry: Entry) -> Placed
    requires { (placed.page.count ≤ 60) × (rises (take placed.page.count placed.page.lines) ≡ true) }
    ensures { Holds result
        (pick (ltb entry.period from) (take placed.page.count placed.page.lines) (Page·placed entry (take placed.page.count placed.page.lines)))
        placed.more }
{
    if u64::from(entry.period) < from {
        return placed;
    }
    place(placed, entry)
}

// The lowest periods from one on, as many as a page has lines.
fn page_from(from: u64, entries: &[Entry]) -> Placed
    ensures { Holds result (on_page (entries_from from entries.now)) false }
{
    let mut placed = nothing();
    for i in (0..entries.len()).rev() {
        placed = place_from(from, placed, entries[i]);
    }
    placed
}

// The period behind that of a full page's last line.
fn period_behind(page: Page) -> u64
    ensures { result ≡ (get_or page.lines 59 blank).period + 1 }
{
    u64::from(page.lines[59].period) + 1
}

// A line with a form feed alone.
fn put_form_feed(text: &mut [u8], at: usize) -> usize
    ensures { Puts text.old at (12 ∷ 10 ∷ []) result text.new }
{
    let at = put_byte(text, at, 12);
    put_byte(text, at, 10)
}

// The pages of some entries, to the start of an area.
fn put_pages(text: &mut [u8], p: usize, entries: &[Entry]) -> usize
    requires { p ≤ 4 }
    ensures { Puts text.old 0 (paged p most_pages (on_page entries.now)) result text.new }
{
    let mut end = 0;
    let mut from = 0;
    for _ in 0..PAGES {
        let placed = page_from(from, entries);
        end = put_lines(text, end, p, placed.page.entries());
        if !placed.more {
            return end;
        }
        end = put_form_feed(text, end);
        from = period_behind(placed.page);
    }
    end
}

// What is printed of a text.
pub fn pages(text: &[u8], output: &mut [u8; OUTPUT]) -> Paged
    ensures { Pages text.now result output.old output.new }
{
    let p = first_commands(text);
    let taken = take_entries(p, text);
    let length = put_pages(output, p, taken.entries());
    Paged {
        length,
        passed: count_passed(p, text),
    }
}
