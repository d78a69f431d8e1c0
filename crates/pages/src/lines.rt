// The lines of a page.
ghost use Rattle.std.specs.Prelude.{◌≡◌, ◌*◌, ◌-◌, ◌≤◌, take};
ghost use Rattle.std.specs.Option.{is_some};
ghost use Rattle.lists.specs.Choice.{pick};
ghost use Rattle.text.specs.Printing.{Puts};
ghost use Rattle.pages.specs.Line.{command_shown, line_bytes};
ghost use Rattle.pages.specs.Page.{page_bytes};

use crate::columns::{put_count, put_right, put_spaces, put_values};
use crate::entries::Entry;
use text::printing::put_byte;

// The bytes of a line, its line feed among them.
pub const LINE: usize = 73;

// The most lines.
pub const MOST: usize = 60;

// The longest page.
pub const PAGE: usize = 4380;

// A page: the first `count` lines are in use, and their periods rise. An array with a length beside it, since nothing here has a heap; `count ≤ 60` stands
// in the contracts and not in the type, since `page_of` of specs/Reading.antt, which the contract of `read` names, is a page of any list of entries.
#[derive(Clone, Copy)]
pub struct Page {
    pub lines: [Entry; MOST],
    pub count: usize,
}

impl Page {
    // The lines in use.
    pub fn entries(&self) -> &[Entry]
        requires { self.now.count ≤ 60 }
        ensures { result.now ≡ take self.now.count self.now.lines }
    {
        &self.lines[..self.count]
    }
}

// The first p values of a command, or the hyphen.
fn put_command(text: &mut [u8], at: usize, p: usize, command: Option<[i32; 4]>) -> usize
    requires { p ≤ 4 }
    ensures { Puts text.old at (command_shown p command) result text.new }
{
    match command {
        Some(values) => put_values(text, at, &values[..p]),
        None => put_right(text, at, 12, b"-"),
    }
}

// The spaces behind the command.
fn spaces_left(p: usize, command: Option<[i32; 4]>) -> usize
    requires { p ≤ 4 }
    ensures { result ≡ 50 - 12 * pick (is_some command) p 1 }
{
    if command.is_some() { 50 - 12 * p } else { 38 }
}

// The line of an entry.
fn put_line(text: &mut [u8], at: usize, p: usize, entry: Entry) -> usize
    requires { p ≤ 4 }
    ensures { Puts text.old at (line_bytes p entry) result text.new }
{
    let at = put_count(text, at, entry.period);
    let at = put_byte(text, at, b' ');
    let at = put_count(text, at, entry.view);
    let at = put_byte(text, at, b' ');
    let at = put_command(text, at, p, entry.command);
    let at = put_spaces(text, at, spaces_left(p, entry.command));
    put_byte(text, at, b'\n')
}

// The lines of some entries after the first `at` bytes of an area.
pub fn put_lines(text: &mut [u8], at: usize, p: usize, entries: &[Entry]) -> usize
    requires { p ≤ 4 }
    ensures { Puts text.old at (page_bytes p entries.now) result text.new }
{
    let mut end = at.min(text.len());
    for entry in entries {
        end = put_line(text, end, p, *entry);
    }
    end
}
