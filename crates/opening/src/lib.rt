// The first line of `rig`: the sizes of a group, its tables, limits, start and quorum numbers.
#![tactic(auto)]

mod ending;
pub mod wrong;

ghost use Rattle.std.specs.Prelude.{◌≡◌, ◌*◌, ◌<◌, ◌≤◌, length, replicate, pos};
ghost use Rattle.text.specs.Numbers.{number_of};
ghost use Rattle.opening.specs.Opening.{size_in, sizes_in, is_rig, begun, from_one, sizes_refusal, starts_of, all_numbers, numbered, entry_of, table_of, law_in, opened_by};

use ending::{has_ended, quorums_in};
use line::fields::field;
use refusal::Refusal;
use replica::Settings;
use text::numbers::number_in;

// Why a first line opens nothing: it is not of the form, or its sizes are refused.
#[derive(Clone, Copy)]
pub enum Unopened {
    Bad,
    Refused(Refusal),
}

// The numbers of boxes, states, readings and commands; 256 for one that is none from 0 to 255.
// They are no options: `begun`, of which theorem short-opening speaks, and `needed` are said of all four, whether they are sizes or not.
#[derive(Clone, Copy)]
struct Sizes {
    boxes: usize,
    n: usize,
    m: usize,
    p: usize,
}

// The fields at which L, C, K, the limits and the start begin, after A, and how many numbers there are.
#[derive(Clone, Copy)]
struct Starts {
    l: usize,
    c: usize,
    k: usize,
    low: usize,
    high: usize,
    start: usize,
    count: usize,
}

#[tactic(auto, unfolding(crate::specs::Opening::is_rig))]
fn is_rig(word: &[u8]) -> bool
    ensures { result ≡ is_rig word.now }
{
    word == b"rig".as_slice()
}

// A number from 0 to 255, else 256.
#[tactic(auto, unfolding(crate::specs::Opening::size_in, lists::specs::Choice::pick))]
fn size_in(word: &[u8]) -> usize
    ensures { result ≡ size_in (number_of word.now) }
{
    match number_in(word) {
        Some(z) => match u8::try_from(z) {
            Ok(size) => usize::from(size),
            Err(_) => 256,
        },
        None => 256,
    }
}

#[tactic(auto, unfolding(crate::specs::Opening::sizes_in))]
fn sizes_in(line: &[u8]) -> Sizes
    ensures { result ≡ sizes_in line.now }
{
    let boxes = size_in(field(line, 1));
    let n = size_in(field(line, 2));
    let m = size_in(field(line, 3));
    let p = size_in(field(line, 4));
    Sizes { boxes, n, m, p }
}

// Whether the line begins with `rig` and four numbers from 0 to 255.
#[tactic(auto, unfolding(crate::specs::Opening::begun))]
fn has_begun(word: &[u8], s: Sizes) -> bool
    ensures { result ≡ begun word.now s }
{
    is_rig(word) && s.boxes <= 255 && s.n <= 255 && s.m <= 255 && s.p <= 255
}

#[tactic(auto, unfolding(crate::specs::Opening::from_one))]
fn is_from_one(size: usize, most: usize) -> bool
    ensures { result ≡ from_one size most }
{
    0 < size && size <= most
}

// The refusal of these numbers: that of the boxes before that of the others.
#[tactic(auto, unfolding(crate::specs::Opening::sizes_refusal, lists::specs::Choice::pick))]
fn sizes_refusal(s: Sizes) -> Option<Refusal>
    ensures { result ≡ sizes_refusal s }
{
    if s.boxes < 3 || 9 < s.boxes {
        return Some(Refusal::Group);
    }
    if !is_from_one(s.n, 6) || !is_from_one(s.m, 4) || !is_from_one(s.p, 4) {
        return Some(Refusal::Sizes);
    }
    None
}

fn area(rows: usize, columns: usize) -> usize
    requires { (rows ≤ 6) × (columns ≤ 6) }
    ensures { (result ≡ rows * columns) × (result ≤ 36) }
{
    rows * columns
}

#[tactic(auto, unfolding(crate::specs::Opening::starts_of))]
fn starts_of(n: usize, m: usize, p: usize) -> Starts
    requires { (n ≤ 6) × (m ≤ 4) × (p ≤ 4) }
    ensures { (result ≡ starts_of n m p) × (result.l ≤ 200) × (result.c ≤ 200) × (result.k ≤ 200) × (result.low ≤ 200) × (result.high ≤ 200) × (result.start ≤ 200) × (result.count ≤ 200) }
{
    let l = 5 + area(n, n);
    let c = l + area(n, m);
    let k = c + area(m, n);
    let low = k + area(p, n);
    let high = low + p;
    let start = high + p;
    Starts {
        l,
        c,
        k,
        low,
        high,
        start,
        count: start + n - 5,
    }
}

// Whether so many fields from field 5 on are numbers.
fn all_numbers(line: &[u8], count: usize) -> bool
    requires { count ≤ 200 }
    ensures { result ≡ all_numbers count line.now }
{
    for j in 0..count {
        if number_in(field(line, j + 5)).is_none() {
            return false;
        }
    }
    true
}

// Whether so many numbers stand after the sizes, and nothing else but the quorum numbers.
#[tactic(auto, unfolding(crate::specs::Opening::numbered))]
fn is_numbered(line: &[u8], count: usize) -> bool
    requires { count ≤ 200 }
    ensures { result ≡ numbered count line.now }
{
    has_ended(line, count) && all_numbers(line, count)
}

// Place k of a table with rows of `stride` places.
#[tactic(auto, unfolding(crate::specs::Opening::entry_of, lists::specs::Choice::pick))]
fn entry_in(line: &[u8], from: usize, rows: usize, columns: usize, stride: usize, k: usize) -> i32
    requires { (from ≤ 200) × (rows ≤ 6) × (columns ≤ 6) × (0 < stride) }
    ensures { result ≡ entry_of line.now from rows columns stride k }
{
    let i = k / stride;
    let j = k % stride;
    if rows <= i || columns <= j {
        return 0;
    }
    number_in(field(line, from + area(i, columns) + j)).unwrap_or(0)
}

// Fills a table that holds 0 from the fields of a line, row by row.
fn fill(line: &[u8], from: usize, rows: usize, columns: usize, stride: usize, out: &mut [i32])
    requires { (from ≤ 200) × (rows ≤ 6) × (columns ≤ 6) × (0 < stride) × (out.old ≡ replicate (length out.old) (pos 0)) }
    ensures { out.new ≡ table_of (length out.old) line.now from rows columns stride }
{
    for (k, entry) in out.iter_mut().enumerate() {
        *entry = entry_in(line, from, rows, columns, stride, k);
    }
}

// The settings of the law that a line gives.
fn law_in(line: &[u8], n: usize, m: usize, p: usize, at: Starts) -> law::Settings
    requires { (n ≤ 6) × (m ≤ 4) × (p ≤ 4) × (at.l ≤ 200) × (at.c ≤ 200) × (at.k ≤ 200) × (at.low ≤ 200) × (at.high ≤ 200) × (at.start ≤ 200) }
    ensures { result ≡ law_in line.now n m p at }
{
    let mut a = [0i32; 36];
    let mut l = [0i32; 24];
    let mut c = [0i32; 24];
    let mut k = [0i32; 24];
    let mut low = [0i32; 4];
    let mut high = [0i32; 4];
    let mut start = [0i32; 6];
    fill(line, 5, n, n, 6, &mut a);
    fill(line, at.l, n, m, 4, &mut l);
    fill(line, at.c, m, n, 6, &mut c);
    fill(line, at.k, p, n, 6, &mut k);
    fill(line, at.low, 1, p, 4, &mut low);
    fill(line, at.high, 1, p, 4, &mut high);
    fill(line, at.start, 1, n, 6, &mut start);
    law::Settings {
        n,
        m,
        p,
        a,
        l,
        c,
        k,
        low,
        high,
        start,
    }
}

// The group that a first line describes: the settings of its box 1.
pub fn open(line: &[u8]) -> Result<Settings, Unopened>
    ensures { result ≡ opened_by line.now (sizes_in line.now) }
{
    let s = sizes_in(line);
    if !has_begun(field(line, 0), s) {
        return Err(Unopened::Bad);
    }
    if let Some(refusal) = sizes_refusal(s) {
        return Err(Unopened::Refused(refusal));
    }
    let at = starts_of(s.n, s.m, s.p);
    if !is_numbered(line, at.count) {
        return Err(Unopened::Bad);
    }
    let boxes = s.boxes as u8;
    let quorums = quorums_in(line, at.count, boxes);
    let law = law_in(line, s.n, s.m, s.p, at);
    Ok(Settings {
        boxes,
        own: 1,
        quorums,
        law,
    })
}
