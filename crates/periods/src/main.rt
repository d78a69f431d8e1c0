// Decided periods, played on replicas alone, so that the instructions of their steps can be counted (tools/figures). Each byte of standard input is a
// period: `a` of three boxes with n, m and p 4, 2 and 1; `b` of nine boxes with 6, 4 and 4; `c` of three boxes, where the Propose is lost and the
// next box takes over. The last command of each group is printed.
#![tactic(auto)]

mod boxes;
mod normal;
mod steps;
mod takeover;

use boxes::Group;
use frame::lengths::LONGEST_COMMAND;
use std::io::Read;

// A letter, and the values of its group's last command, of which there are p.
fn print(rt: &impl Print, letter: u8, p: usize, command: [u8; LONGEST_COMMAND]) {
    let mut text = [0u8; 64];
    let values = frame::command_values(&command);
    let at = text::printing::put_byte(&mut text, 0, letter);
    let at = text::printing::put_byte(&mut text, at, 32);
    let at = text::printing::put_list(&mut text, at, &values[..p.min(4)]);
    let at = text::printing::put_byte(&mut text, at, 10);
    let _ = rt.write_all(&text[..at.min(64)]);
}

fn main(rt: HostRuntime) {
    let mut letters = [0u8; 4096];
    let count = rt.reader().read(&mut letters).unwrap_or(0);
    let mut a = Group::<3>::new(4, 2, 1);
    let mut b = Group::<9>::new(6, 4, 4);
    let mut c = Group::<3>::new(4, 2, 1);
    for letter in &letters[..count] {
        match letter {
            b'a' => a = normal::period(a, 2),
            b'b' => b = normal::period(b, 4),
            b'c' => c = takeover::period(c),
            _ => {}
        }
    }
    print(&rt, b'a', 1, a.command);
    print(&rt, b'b', 4, b.command);
    print(&rt, b'c', 1, c.command);
}
