// Writes a frame of each kind and two commands, and says what reading and writing answer on whole frames and on damaged ones.
#![tactic(auto)]

ghost use Rattle.std.specs.Prelude.{◌≤◌};

mod damage;
mod print;
mod samples;

use damage::{damage, lengths, number, reading};
use frame::Frame;
use print::{number_line, rows, text, written_line};
use refusal::Refusal;
use samples::{absent_value, ack, decide, estimate, fifth_kind, mark_beyond, propose};

// A frame's bytes, in an area that held `filler` in every byte.
fn bytes_of(frame: Frame, filler: u8) -> [u8; 80] {
    let mut area = [filler; 80];
    let _ = frame::write(4, 2, frame, &mut area);
    area
}

// A command's bytes, in an area that held aa in every byte.
fn command_bytes(limited: bool) -> [u8; 80] {
    let mut area = [170u8; 80];
    let _ = frame::write_command(2, 258, [50i32, -50, 7, 7], limited, &mut area);
    area
}

fn formats(rt: &impl Print) {
    text(rt, b"Propose\n");
    rows(rt, bytes_of(propose(), 170), 53);
    text(rt, b"Ack\n");
    rows(rt, bytes_of(ack(), 170), 20);
    text(rt, b"Decide\n");
    rows(rt, bytes_of(decide(), 170), 53);
    text(rt, b"Estimate\n");
    rows(rt, bytes_of(estimate(), 170), 53);
    text(rt, b"Command, and a byte after it that held aa\n");
    rows(rt, command_bytes(false), 17);
    text(
        rt,
        b"Command that is marked, and a byte after it that held aa\n",
    );
    rows(rt, command_bytes(true), 17);
}

fn damaged(rt: &impl Print) {
    text(
        rt,
        b"Propose, each byte raised by 1: 8 refused, = read and written back the same\n",
    );
    damage(rt, bytes_of(propose(), 0), 53);
    text(rt, b"Ack, each byte raised by 1\n");
    damage(rt, bytes_of(ack(), 0), 20);
    text(
        rt,
        b"Propose cut short or followed by 00, at lengths 0 to 80\n",
    );
    lengths(rt, bytes_of(propose(), 0));
    text(rt, b"Ack cut short or followed by 00, at lengths 0 to 80\n");
    lengths(rt, bytes_of(ack(), 0));
    number_line(
        rt,
        b"Propose of 52 bytes: ",
        reading(4, 2, bytes_of(propose(), 0), 52),
    );
    number_line(
        rt,
        b"Propose of 53 bytes: ",
        reading(4, 2, bytes_of(propose(), 0), 53),
    );
    number_line(
        rt,
        b"Propose of 53 bytes, n = 0: ",
        reading(0, 2, bytes_of(propose(), 0), 53),
    );
    number_line(
        rt,
        b"Propose of 53 bytes, n = 7: ",
        reading(7, 2, bytes_of(propose(), 0), 53),
    );
    number_line(
        rt,
        b"Propose of 53 bytes, m = 0: ",
        reading(4, 0, bytes_of(propose(), 0), 53),
    );
    number_line(
        rt,
        b"Propose of 53 bytes, m = 5: ",
        reading(4, 5, bytes_of(propose(), 0), 53),
    );
}

// What writing answers to an area of that many bytes.
fn write_to<const ROOM: usize>(n: usize, frame: Frame) -> Result<usize, Refusal>
    requires { ROOM ≤ 69 }
{
    let mut area = [0u8; ROOM];
    frame::write(n, 2, frame, &mut area)
}

fn command_to<const ROOM: usize>(p: usize) -> Result<usize, Refusal>
    requires { ROOM ≤ 24 }
{
    let mut area = [0u8; ROOM];
    frame::write_command(p, 1, [1i32, 2, 3, 4], false, &mut area)
}

fn written(rt: &impl Print, label: &[u8], answer: Result<usize, Refusal>) {
    written_line(rt, label, number(answer.err()), answer.unwrap_or(0));
}

fn writes(rt: &impl Print) {
    text(rt, b"Writing: answer and length\n");
    written(rt, b"  Propose to 69 bytes: ", write_to::<69>(4, propose()));
    written(rt, b"  Propose to 68 bytes: ", write_to::<68>(4, propose()));
    written(rt, b"  Ack to 68 bytes: ", write_to::<68>(4, ack()));
    written(rt, b"  n = 7, to 68 bytes: ", write_to::<68>(7, propose()));
    written(rt, b"  kind 5: ", write_to::<69>(4, fifth_kind()));
    written(rt, b"  a mark at m: ", write_to::<69>(4, mark_beyond()));
    written(
        rt,
        b"  a value that is absent: ",
        write_to::<69>(4, absent_value()),
    );
    written(rt, b"  command, p = 0: ", command_to::<24>(0));
    written(rt, b"  command, p = 1: ", command_to::<24>(1));
    written(rt, b"  command, p = 4: ", command_to::<24>(4));
    written(rt, b"  command, p = 5, to 23 bytes: ", command_to::<23>(5));
    written(rt, b"  command, p = 1, to 23 bytes: ", command_to::<23>(1));
}

fn main(rt: HostRuntime) {
    formats(&rt);
    damaged(&rt);
    writes(&rt);
}
