// Standard input gathered into one area as it comes, standard output and standard error. No contract can say what standard input held, nor what was
// written: the contracts here speak of lengths and of areas alone.
#![tactic(auto)]

ghost use Rattle.std.specs.Prelude.{◌≡◌, ◌≤◌, length, take, drop};
ghost use Rattle.lists.specs.Choice.{pick};

use std::io::Read;
use text::printing::put_byte;

// Of a line so many bytes are kept. No line of a script has as many (line/proofs/LongLines.antt, opening/proofs/LongOpening.antt): a line that is
// cut is none of the format before it is cut and none after.
const LINE: usize = 2048;

// The most bytes that are read at once.
pub const CHUNK: usize = 65536;

// The text so far: the first `end` bytes of an area, of which the first `whole` are whole lines, and the last line has `column` bytes. It has `lines`
// line feeds, and nothing follows where the input ended, a flag that says nothing of the text before it.
#[derive(Clone, Copy)]
pub struct Gathered {
    pub end: usize,
    pub whole: usize,
    pub column: usize,
    pub lines: usize,
    pub ended: bool,
}

impl Gathered {
    // Nothing was read yet.
    pub fn new() -> Self
        ensures { (result.end ≡ 0) × (result.whole ≡ 0) }
    {
        Gathered {
            end: 0,
            whole: 0,
            column: 0,
            lines: 0,
            ended: false,
        }
    }

    // How much of the text is to be played: whole lines, and at the end also a last line that lacks its line feed.
    #[tactic(auto, unfolding(lists::specs::Choice::pick))]
    pub fn ready(self) -> usize
        ensures { result ≡ pick self.ended self.end self.whole }
    {
        if self.ended { self.end } else { self.whole }
    }

    // One byte more, where there are fewer than `most` lines.
    fn with_byte(self, byte: u8, most: usize, area: &mut [u8]) -> Self
        requires { self.end ≤ length area.old }
        ensures { result.end ≤ length area.old }
    {
        if most <= self.lines || byte != b'\n' && LINE <= self.column {
            return self;
        }
        let end = put_byte(area, self.end, byte);
        if byte == b'\n' {
            return Gathered {
                end,
                whole: end,
                column: 0,
                lines: self.lines + 1,
                ..self
            };
        }
        Gathered {
            end,
            column: self.column + 1,
            ..self
        }
    }

    // The bytes of a chunk more. By a `for`: a closure would have to take the area with it.
    fn with_chunk(self, chunk: &[u8], most: usize, area: &mut [u8]) -> Self
        requires { self.end ≤ length area.old }
        ensures { result.end ≤ length area.old }
    {
        let mut gathered = self;
        for byte in chunk {
            gathered = gathered.with_byte(*byte, most, area);
        }
        gathered
    }

    // Reads once from standard input. The text ends where the input does or a read fails, or with `most` lines. That the area has the bytes on standard
    // input, each line cut, no contract can say.
    pub fn read_more(
        self,
        rt: &impl Input,
        most: usize,
        chunk: &mut [u8; CHUNK],
        area: &mut [u8],
    ) -> Self
        ensures { result.end ≤ length area.old }
    {
        let filled = rt.reader().read(chunk).unwrap_or(0);
        let before = Gathered {
            end: self.end.min(area.len()),
            ended: filled == 0,
            ..self
        };
        let next = before.with_chunk(first(chunk, filled), most, area);
        Gathered {
            ended: next.ended || most <= next.lines,
            ..next
        }
    }
}

// The first n bytes of an area, or all that there are.
pub fn first(bytes: &[u8], n: usize) -> &[u8]
    ensures { result.now ≡ take n bytes.now }
{
    &bytes[..n.min(bytes.len())]
}

// Hands the bytes of an area after the first `from`, up to the first n, to standard output, and tells how many those are. What was written no
// contract can say.
pub fn write_more(rt: &impl Print, bytes: &[u8], from: usize, n: usize) -> usize
    ensures { result ≡ length (drop from (take n bytes.now)) }
{
    let text = first(bytes, n);
    if text.len() <= from {
        return 0;
    }
    let _ = rt.write_all(&text[from..]);
    text.len() - from
}

// Hands the first n bytes of an area to standard error, and tells how many those are.
pub fn write_error(stderr: &impl Print, bytes: &[u8], n: usize) -> usize
    ensures { result ≡ length (take n bytes.now) }
{
    let text = first(bytes, n);
    let _ = stderr.write_all(text);
    text.len()
}
