// A whole script played: what bench and rig print of the text on their standard input.
ghost use Rattle.std.specs.Prelude.{◌≡◌, ◌+◌, ◌-◌, ◌*◌, ◌≤◌, length, take, drop};
ghost use Rattle.text.specs.Lines.{first_line, lines_of};
ghost use Rattle.script.specs.Play.{most, table_length, line_room};
ghost use Rattle.script.specs.Script.{left, played, left_by, group_output, bench_output, rig_output, output_room, Prints};

use crate::boxes::{Kept, fresh};
use crate::play::{LENGTHS, MOST, TABLE, place_of, play};
use crate::printing::{put_bad, put_header, refusal_line};
use line::events::call_in;
use opening::{Unopened, open};
use replica::Settings;
use replica::refusals::check_settings;
use setup::bench_settings;
use text::lines::line_end;

// No script prints more: the header line, and 500 lines of at most 256 bytes.
pub const OUTPUT: usize = 128040;

// Plays the lines of a text after the first `start` bytes of the output.
fn play_lines(
    of_rig: bool,
    kept: [Kept; 10],
    boxes: u8,
    m: u8,
    text: &[u8],
    table: &mut [u8],
    lengths: &mut [usize],
    output: &mut [u8],
    start: usize,
) -> usize
    requires { (length table.old ≡ table_length) × (length lengths.old ≡ most + 1) × (start + line_room * most ≤ length output.old) }
    ensures { Prints
        (played of_rig boxes m 0 (left kept table.old lengths.old (take start output.old)) (lines_of most text.now)).printed
        result output.old output.new × (start ≤ result) }
{
    let mut held = kept;
    let mut end = start;
    let mut at = 0;
    for number in 0..MOST {
        if text.len() <= at {
            return end;
        }
        let stop = line_end(text, at);
        let called = call_in(of_rig, boxes, m, &text[at..stop]);
        let place = place_of(called.event);
        let one = play(
            held[place],
            called.asks,
            called.event,
            called.readings,
            number + 1,
            table,
            lengths,
            output,
            end,
        );
        held[place] = one.kept;
        end = one.end;
        at = stop + 1;
    }
    end
}

// What a script prints that is played by a group with these settings.
fn play_script(of_rig: bool, settings: Settings, text: &[u8], output: &mut [u8]) -> usize
    requires { length output.old ≡ output_room }
    ensures { Prints (left_by of_rig settings text.now).printed result output.old output.new }
{
    let mut table = [0u8; TABLE];
    let mut lengths = [0usize; LENGTHS];
    let kept = fresh(settings);
    let m = settings.law.m.min(4);
    let start = put_header(output, 0);
    play_lines(
        of_rig,
        kept,
        settings.boxes,
        m as u8,
        text,
        &mut table,
        &mut lengths,
        output,
        start,
    )
}

// What program bench prints of its standard input.
pub fn bench(text: &[u8], output: &mut [u8; OUTPUT]) -> usize
    ensures { Prints (bench_output text.now) result output.old output.new }
{
    play_script(false, bench_settings(), text, output)
}

// What the rig prints of a group that its first line describes: `r` and a number where making refuses it.
fn group(settings: Settings, text: &[u8], output: &mut [u8]) -> usize
    requires { length output.old ≡ output_room }
    ensures { Prints (group_output settings text.now) result output.old output.new }
{
    match check_settings(&settings) {
        Ok(()) => play_script(true, settings, text, output),
        Err(refusal) => refusal_line(output, 0, refusal),
    }
}

// The text after the line that ends at `stop`.
fn after_line(text: &[u8], stop: usize) -> &[u8]
    ensures { result.now ≡ drop (stop + 1) text.now }
{
    if text.len() <= stop {
        return &text[0..0];
    }
    let at = stop + 1;
    &text[at..]
}

// The first line of a text.
pub fn first_line(text: &[u8]) -> &[u8]
    ensures { result.now ≡ first_line text.now }
{
    let stop = line_end(text, 0);
    &text[0..stop]
}

// What program rig prints of its standard input.
pub fn rig(text: &[u8], output: &mut [u8; OUTPUT]) -> usize
    ensures { Prints (rig_output text.now) result output.old output.new }
{
    let stop = line_end(text, 0);
    let rest = after_line(text, stop);
    match open(&text[0..stop]) {
        Ok(settings) => group(settings, rest, output),
        Err(Unopened::Refused(refusal)) => refusal_line(output, 0, refusal),
        Err(Unopened::Bad) => put_bad(output, 0),
    }
}
