// The bench for any group: the first line of standard input describes it, and the lines after are played. What it prints of them is `rig_output` of
// script/specs/Script.antt, by the contract of `script::output::rig`. The lines so far are played again whenever more come, and what is new is printed,
// so that lines typed at a terminal are answered at once. What is wrong with the first line is said once, on standard error.
#![tactic(auto)]

mod errors;

use console::{CHUNK, Gathered};
use script::output::OUTPUT;

// The first line and at most 500 others, each cut at 2,048 bytes, and their line feeds.
const LINES: usize = 501;

const TEXT: usize = 1026549;

// Plays a text, prints what is new, and tells how much was printed then.
fn play(rt: &HostRuntime, text: &[u8], output: &mut [u8; OUTPUT], printed: usize) -> usize {
    let n = script::output::rig(text, output);
    console::write_more(rt, output, printed, n);
    if printed == 0 {
        errors::say(&rt.stderr(), script::output::first_line(text));
    }
    n
}

// Nothing is printed before the first line is whole, or the input ended.
fn run(
    rt: &HostRuntime,
    chunk: &mut [u8; CHUNK],
    text: &mut [u8; TEXT],
    output: &mut [u8; OUTPUT],
) {
    let mut gathered = Gathered::new();
    let mut printed = 0;
    let mut played = 0;
    for _ in 0..u64::MAX {
        gathered = gathered.read_more(rt, LINES, chunk, text);
        let size = gathered.ready();
        if played < size || gathered.ended && printed == 0 {
            printed = play(rt, console::first(text, size), output, printed);
            played = size;
        }
        if gathered.ended {
            return;
        }
    }
}

fn main(rt: HostRuntime) {
    let mut chunk = [0u8; CHUNK];
    let mut text = [0u8; TEXT];
    let mut output = [0u8; OUTPUT];
    run(&rt, &mut chunk, &mut text, &mut output);
}
