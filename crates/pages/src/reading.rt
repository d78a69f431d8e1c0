// Reading a page back.
ghost use Rattle.std.specs.Prelude.{◌≡◌, ◌==◌, ◌+◌, ◌*◌, ◌≤◌, length, pos, IfOk};
ghost use Rattle.std.specs.List.{prefix_len};
ghost use Rattle.lists.specs.Places.{filled};
ghost use Rattle.refusal.specs.Numbers.{number_of};
ghost use Rattle.pages.specs.Page.{rises as Page·rises, page_bytes};
ghost use Rattle.pages.specs.Reading.{unspaced as Reading·unspaced, count_at, value_at, entry_in, lines_in, same as Reading·same, read_refusal, read_entries, page_of};

use crate::entries::{Entry, blank, commands_ok};
use crate::lines::{LINE, MOST, PAGE, Page, put_lines};
use refusal::Refusal;
use text::numbers::{number_in, read_magnitude};

// The number of spaces on the left of columns.
fn spaces(columns: &[u8]) -> usize
    ensures spaces { result ≡ prefix_len (λ b. b == 32) columns.now }
    ensures within { result ≤ length columns.now }
{
    columns.iter().take_while(|b| **b == b' ').count()
}

// What stands in columns behind the spaces on their left.
fn unspaced(columns: &[u8]) -> &[u8]
    ensures { result.now ≡ Reading·unspaced columns.now }
{
    &columns[spaces(columns)..]
}

// The number in the ten columns of a line from one on.
fn count_at(line: &[u8], column: usize) -> u32
    requires { column + 10 ≤ length line.now }
    ensures { result ≡ count_at line.now column }
{
    let end = column + 10;
    read_magnitude(unspaced(&line[column..end])).unwrap_or(0)
}

// Command j of a line.
fn value_at(line: &[u8], j: usize) -> i32
    requires { (length line.now ≡ 73) × (j ≤ 3) }
    ensures { result ≡ value_at line.now j }
{
    let column = 22 + 12 * j;
    let end = column + 12;
    number_in(unspaced(&line[column..end])).unwrap_or(0)
}

// The first n commands of a line.
fn values_in(line: &[u8], n: usize) -> [i32; 4]
    requires { (length line.now ≡ 73) × (n ≤ 4) }
    ensures { result ≡ filled (pos 0) 4 n (value_at line.now) }
{
    let mut values = [0i32; 4];
    for j in 0..n {
        values[j] = value_at(line, j);
    }
    values
}

// The command that a line shows.
fn command_in(p: usize, line: &[u8]) -> Option<[i32; 4]>
    requires { (length line.now ≡ 73) × (p ≤ 4) }
    ensures { result ≡ (entry_in p line.now).command }
{
    if line[33] == b'-' {
        return None;
    }
    Some(values_in(line, p))
}

// The entry that a line shows.
fn entry_in(p: usize, line: &[u8]) -> Entry
    requires { (length line.now ≡ 73) × (p ≤ 4) }
    ensures { result ≡ entry_in p line.now }
{
    Entry {
        period: count_at(line, 0),
        view: count_at(line, 11),
        command: command_in(p, line),
    }
}

// The entries that the first n lines show.
fn lines_in(p: usize, bytes: &[u8], n: usize) -> Page
    requires { (73 * n ≤ length bytes.now) × (n ≤ 60) × (p ≤ 4) }
    ensures { result ≡ page_of (lines_in p n bytes.now) }
{
    let mut lines = [blank(); MOST];
    for i in 0..n {
        let at = LINE * i;
        let end = at + LINE;
        lines[i] = entry_in(p, &bytes[at..end]);
    }
    Page { lines, count: n }
}

// Whether the periods of entries rise.
fn rises(entries: &[Entry]) -> bool
    ensures { result ≡ Page·rises entries.now }
{
    entries.is_sorted_by(|a, b| a.period < b.period)
}

// Whether bytes are the lines of some entries.
fn is_written(p: usize, entries: &[Entry], bytes: &[u8]) -> bool
    requires { (length entries.now ≤ 60) × (p ≤ 4) }
    ensures { result ≡ Reading·same bytes.now (page_bytes p entries.now) }
{
    let mut area = [0u8; PAGE];
    let end = put_lines(&mut area, 0, p, entries);
    bytes == &area[..end]
}

// Reads a page of p commands.
pub fn read(p: usize, bytes: &[u8]) -> Result<Page, Refusal>
    ensures answer { number_of result ≡ read_refusal p bytes.now }
    ensures page { IfOk result (λ page. page ≡ page_of (read_entries p bytes.now)) }
{
    if !commands_ok(p) {
        return Err(Refusal::Sizes);
    }
    let n = bytes.len() / LINE;
    if MOST < n {
        return Err(Refusal::Page);
    }
    let page = lines_in(p, bytes, n);
    if !rises(page.entries()) {
        return Err(Refusal::Page);
    }
    if !is_written(p, page.entries(), bytes) {
        return Err(Refusal::Page);
    }
    Ok(page)
}
