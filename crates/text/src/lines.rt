// Parts of a text, and its lines.
ghost use Rattle.std.specs.Prelude.{◌≡◌, ◌==◌, ◌+◌, ◌-◌, ◌≤◌, length, take, drop};
ghost use Rattle.std.specs.List.{position};
ghost use Rattle.text.specs.Lines.{up_to, after, first_line, after_line};

// Where the first byte `stop` stands.
fn first(text: &[u8], stop: u8) -> Option<usize>
    ensures { result ≡ position (λ b. b == stop) text.now }
{
    text.iter().position(|&b| b == stop)
}

// Where the part that starts at `from` ends: at a byte `stop`, or at the text's end.
pub fn part_end(text: &[u8], from: usize, stop: u8) -> usize
    requires { from ≤ length text.now }
    ensures { (from ≤ result) × (result ≤ length text.now) × (take (result - from) (drop from text.now) ≡ up_to stop (drop from text.now))
        × (drop (result + 1) text.now ≡ after stop (drop from text.now)) }
{
    let part = &text[from..];
    from + first(part, stop).unwrap_or(part.len())
}

// Where the line that starts at `from` ends: at a line feed, or at the text's end.
pub fn line_end(text: &[u8], from: usize) -> usize
    requires { from ≤ length text.now }
    ensures { (from ≤ result) × (result ≤ length text.now) × (take (result - from) (drop from text.now) ≡ first_line (drop from text.now))
        × (drop (result + 1) text.now ≡ after_line (drop from text.now)) }
{
    part_end(text, from, 10)
}
