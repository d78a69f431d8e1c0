// Document 01's cases that are run and not proved: coefficients, group sizes, own numbers and a Propose at the ends of what is taken.
#![tactic(auto)]

mod answers;
mod print;
mod samples;

use answers::number_of;
use print::{answer, number, text};
use replica::Replica;
use samples::{law_with, propose, settings};

fn coefficient_line(rt: &impl Print, z: i32, table: &str, law: law::Settings) {
    let _ = print!(rt; "coefficient {z} in {table}: ");
    answer(rt, number_of(law::check(law)));
}

// A coefficient in each of the tables.
fn coefficient(rt: &impl Print, z: i32) {
    coefficient_line(rt, z, "A", law_with(z, 0, 0, 0));
    coefficient_line(rt, z, "L", law_with(0, z, 0, 0));
    coefficient_line(rt, z, "C", law_with(0, 0, z, 0));
    coefficient_line(rt, z, "K", law_with(0, 0, 0, z));
}

fn frame_line(rt: &impl Print, bytes: &[u8]) {
    text(rt, b"Propose of ");
    number(rt, bytes.len() as u64);
    text(rt, b" bytes: ");
    answer(rt, number_of(frame::read(4, 2, bytes)));
}

// A Propose with n = 4 and m = 2, whole, and a byte shorter and longer.
fn frames(rt: &impl Print) {
    let mut area = [0u8; frame::lengths::LONGEST_FRAME];
    let _ = frame::write(4, 2, propose(), &mut area);
    frame_line(rt, &area[0..52]);
    frame_line(rt, &area[0..53]);
    frame_line(rt, &area[0..54]);
}

fn make(rt: &impl Print, boxes: u8, own: u8) {
    answer(rt, number_of(Replica::make(settings(boxes, own))));
}

fn group_line(rt: &impl Print, boxes: u8) {
    text(rt, b"N ");
    number(rt, boxes as u64);
    text(rt, b": ");
    make(rt, boxes, 1);
}

fn own_line(rt: &impl Print, boxes: u8, own: u8) {
    text(rt, b"N ");
    number(rt, boxes as u64);
    text(rt, b", own number ");
    number(rt, own as u64);
    text(rt, b": ");
    make(rt, boxes, own);
}

fn groups(rt: &impl Print) {
    for boxes in [2, 3, 9, 10] {
        group_line(rt, boxes);
    }
    for (boxes, own) in [(3, 0), (3, 3), (3, 4), (9, 0), (9, 9), (9, 10)] {
        own_line(rt, boxes, own);
    }
}

fn main(rt: HostRuntime) {
    for z in [16777216, 16777217, -16777216, -16777217] {
        coefficient(&rt, z);
    }
    frames(&rt);
    groups(&rt);
}
