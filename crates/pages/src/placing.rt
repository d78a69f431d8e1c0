// Entries placed on a page one after the other, from the last given to the first, so that the one placed was given before those that stand.
ghost use Rattle.std.specs.Prelude.{◌≡◌, true, false, [], ◌∷◌, ◌++◌, ◌≤◌, take, ltb};
ghost use Rattle.lists.specs.Choice.{pick};
ghost use Rattle.pages.specs.Entries.{entries_of};
ghost use Rattle.pages.specs.Page.{standing as Page·standing, placed as Page·placed, on_page, rises};
ghost use Rattle.pages.specs.Placing.{Holds};

use crate::entries::{Entry, WORDS, blank, entry_at};
use crate::lines::{MOST, Page};

// The lowest periods, as many as a page has lines; and whether there are more. The page stands where there are more too: program page prints it.
#[derive(Clone, Copy)]
pub struct Placed {
    pub page: Page,
    pub more: bool,
}

// Nothing was placed yet.
pub fn nothing() -> Placed
    ensures { Holds result [] false }
{
    Placed {
        page: Page {
            lines: [blank(); MOST],
            count: 0,
        },
        more: false,
    }
}

// Which of two entries of one period stands on the page, the first of them given before the other.
fn standing(first: Entry, next: Entry) -> Entry
    ensures { result ≡ Page·standing first next }
{
    match first.command {
        Some(_) => first,
        None => { if next.command.is_some() { next } else { first } }
    }
}

// The two entries, that of the lower period first.
fn in_order(a: Entry, b: Entry) -> (Entry, Entry)
    ensures { (result.0 ≡ pick (ltb a.period b.period) a b) × (result.1 ≡ pick (ltb a.period b.period) b a) }
{
    if a.period < b.period { (a, b) } else { (b, a) }
}

// An entry behind the last line, where a line is left.
fn behind(page: Page, entry: Entry, more: bool) -> Placed
    requires { page.count ≤ 60 }
    ensures { Holds result (take page.count page.lines ++ (entry ∷ [])) more }
{
    if MOST <= page.count {
        return Placed { page, more: true };
    }
    let mut lines = page.lines;
    lines[page.count] = entry;
    Placed {
        page: Page {
            lines,
            count: page.count + 1,
        },
        more,
    }
}

// An entry in its place: what stands there moves on by one line.
pub fn place(placed: Placed, entry: Entry) -> Placed
    requires { (placed.page.count ≤ 60) × (rises (take placed.page.count placed.page.lines) ≡ true) }
    ensures { Holds result (Page·placed entry (take placed.page.count placed.page.lines)) placed.more }
{
    let mut lines = placed.page.lines;
    let count = placed.page.count;
    let more = placed.more;
    let mut moved = entry;
    for i in 0..count {
        let held = lines[i];
        if moved.period == held.period {
            lines[i] = standing(moved, held);
            return Placed {
                page: Page { lines, count },
                more,
            };
        }
        let (lower, higher) = in_order(moved, held);
        lines[i] = lower;
        moved = higher;
    }
    behind(Page { lines, count }, moved, more)
}

// The page of the entries in these words.
pub(crate) fn place_words(words: &[u32]) -> Placed
    ensures { Holds result (on_page (entries_of words.now)) false }
{
    let mut placed = nothing();
    for i in (0..words.len() / WORDS).rev() {
        placed = place(placed, entry_at(words, WORDS * i));
    }
    placed
}
