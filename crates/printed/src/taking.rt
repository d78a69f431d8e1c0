// The entries of a text's lines.
ghost use Rattle.std.specs.Prelude.{◌≡◌, [], ◌++◌, ◌+◌, ◌≤◌, take};
ghost use Rattle.lists.specs.Choice.{pick};
ghost use Rattle.printed.specs.Pages.{printed_in, suits, commands, entry_on, with_entry, is_passed, first_commands, entries_in, passed_in};

use crate::lines::{Printed, line_in};
use pages::entries::{Entry, blank};
use text::lines::line_end;

// The header, and the 500 lines of a script.
pub const MOST: usize = 501;

// Whether a command has p values, or there is none.
fn is_suited(p: usize, n: usize) -> bool
    ensures { result ≡ suits p n }
{
    n == 0 || n == p
}

// The number of values of the command of a line, 0 where there is none.
fn commands(printed: Printed) -> usize
    ensures { result ≡ commands printed }
{
    match printed {
        Printed::Step { commands, .. } => commands,
        Printed::Foreign | Printed::Other => 0,
    }
}

// The entry of a line on pages of p commands, where it has one.
fn entry_on(p: usize, printed: Printed) -> Option<Entry>
    ensures { result ≡ entry_on p printed }
{
    match printed {
        Printed::Step { entry, commands } => {
            if is_suited(p, commands) {
                Some(entry)
            } else {
                None
            }
        }
        Printed::Foreign | Printed::Other => None,
    }
}

// Whether it is passed over.
fn is_passed(p: usize, printed: Printed) -> bool
    ensures { result ≡ is_passed p printed }
{
    match printed {
        Printed::Step { commands, .. } => !is_suited(p, commands),
        Printed::Foreign => true,
        Printed::Other => false,
    }
}

// The number of values of the first command. Here, in `take_entries` and in `count_passed` a loop of its own goes over the lines: each keeps something else of a
// line, and an iterator of lines would need a contract over all of its states.
pub(crate) fn first_commands(text: &[u8]) -> usize
    ensures { result ≡ first_commands (printed_in text.now) }
{
    let mut at = 0;
    for _ in 0..MOST {
        if text.len() <= at {
            return 1;
        }
        let stop = line_end(text, at);
        let n = commands(line_in(&text[at..stop]));
        if n != 0 {
            return n;
        }
        at = stop + 1;
    }
    1
}

// The entries of a text: the first `count` are in use. An array with a length beside it, since nothing here has a heap.
#[derive(Clone, Copy)]
pub(crate) struct Taken {
    entries: [Entry; MOST],
    count: usize,
}

impl Taken {
    // Those in use.
    pub(crate) fn entries(&self) -> &[Entry]
        requires { self.now.count ≤ 501 }
        ensures { result.now ≡ take self.now.count self.now.entries }
    {
        &self.entries[..self.count]
    }
}

// One line more. In place: by value all entries would be copied at each line.
fn take_line(p: usize, taken: &mut Taken, printed: Printed)
    requires { taken.old.count ≤ 500 }
    ensures { (taken.new.count ≤ taken.old.count + 1)
        × (take taken.new.count taken.new.entries ≡ take taken.old.count taken.old.entries ++ with_entry (entry_on p printed) []) }
{
    if let Some(entry) = entry_on(p, printed) {
        taken.entries[taken.count] = entry;
        taken.count += 1;
    }
}

// The entries of a text on pages of p commands.
pub(crate) fn take_entries(p: usize, text: &[u8]) -> Taken
    ensures { (result.count ≤ 501) × (take result.count result.entries ≡ entries_in p (printed_in text.now)) }
{
    let mut taken = Taken {
        entries: [blank(); MOST],
        count: 0,
    };
    let mut at = 0;
    for _ in 0..MOST {
        if text.len() <= at {
            return taken;
        }
        let stop = line_end(text, at);
        take_line(p, &mut taken, line_in(&text[at..stop]));
        at = stop + 1;
    }
    taken
}

// How many lines of a text are passed over.
pub(crate) fn count_passed(p: usize, text: &[u8]) -> usize
    ensures { result ≡ passed_in p (printed_in text.now) }
{
    let mut passed = 0;
    let mut at = 0;
    for _ in 0..MOST {
        if text.len() <= at {
            return passed;
        }
        let stop = line_end(text, at);
        passed += usize::from(is_passed(p, line_in(&text[at..stop])));
        at = stop + 1;
    }
    passed
}
