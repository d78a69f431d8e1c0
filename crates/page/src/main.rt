// The shift pages of what bench or rig printed: `rig < script | page`. What it prints of its standard input is `pages_output` of
// printed/specs/Pages.antt, by the contract of `printed::output::pages`. How many lines were passed over is said on standard error.
#![tactic(auto)]

mod messages;

use console::{CHUNK, Gathered};
use printed::output::OUTPUT;

// One line more than is looked at, each cut at 2,048 bytes, and their line feeds.
const LINES: usize = 502;

const TEXT: usize = 1028598;

// Prints the pages of a text.
fn print(rt: &HostRuntime, text: &[u8], output: &mut [u8; OUTPUT]) {
    let paged = printed::output::pages(text, output);
    console::write_more(rt, output, 0, paged.length);
    messages::say_passed(&rt.stderr(), paged.passed);
}

// Nothing is printed before the input ended: the lowest period may come last.
fn run(
    rt: &HostRuntime,
    chunk: &mut [u8; CHUNK],
    text: &mut [u8; TEXT],
    output: &mut [u8; OUTPUT],
) {
    let mut gathered = Gathered::new();
    for _ in 0..u64::MAX {
        gathered = gathered.read_more(rt, LINES, chunk, text);
        if gathered.ended {
            print(rt, console::first(text, gathered.end), output);
            messages::say_cut(&rt.stderr(), gathered.lines, gathered.column);
            return;
        }
    }
}

fn main(rt: HostRuntime) {
    let mut chunk = [0u8; CHUNK];
    let mut text = [0u8; TEXT];
    let mut output = [0u8; OUTPUT];
    run(&rt, &mut chunk, &mut text, &mut output);
}
