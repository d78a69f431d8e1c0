// The bench of document 01: three boxes with one state, one reading and one command, played by the lines of standard input. What it prints of them
// is `bench_output` of script/specs/Script.antt, by the contract of `script::output::bench`. The lines so far are played again whenever more come, and
// what is new is printed, so that lines typed at a terminal are answered at once.
#![tactic(auto)]

use console::{CHUNK, Gathered};
use script::output::OUTPUT;

// At most 500 lines, each cut at 2,048 bytes, and their line feeds.
const LINES: usize = 500;

const TEXT: usize = 1024500;

// Plays a text, prints what is new, and tells how much was printed then.
fn play(rt: &impl Print, text: &[u8], output: &mut [u8; OUTPUT], printed: usize) -> usize {
    let n = script::output::bench(text, output);
    console::write_more(rt, output, printed, n);
    n
}

// The header line is printed before anything is read. Each program has its own turns: what it does with the text so far differs, and a closure for that
// would capture the output and what was printed.
fn run(
    rt: &(impl Input + Print),
    chunk: &mut [u8; CHUNK],
    text: &mut [u8; TEXT],
    output: &mut [u8; OUTPUT],
) {
    let mut gathered = Gathered::new();
    let mut printed = play(rt, console::first(text, 0), output, 0);
    let mut played = 0;
    for _ in 0..u64::MAX {
        gathered = gathered.read_more(rt, LINES, chunk, text);
        let size = gathered.ready();
        if played < size {
            printed = play(rt, console::first(text, size), output, printed);
            played = size;
        }
        if gathered.ended {
            return;
        }
    }
}

fn main(rt: HostRuntime) {
    let mut chunk = [0u8; CHUNK];
    let mut text = [0u8; TEXT];
    let mut output = [0u8; OUTPUT];
    run(&rt, &mut chunk, &mut text, &mut output);
}
