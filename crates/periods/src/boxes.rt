// Groups of boxes, with coefficients that keep the state near its readings.
ghost use Rattle.std.specs.Prelude.{◌<◌};

use frame::lengths::LONGEST_COMMAND;
use replica::{Replica, Settings};
use transmitters::Reading;

// The replicas of N boxes, that of box j at place j - 1, and the command written last.
#[derive(Clone, Copy)]
pub struct Group<const N: usize> {
    pub replicas: [Replica; N],
    pub command: [u8; LONGEST_COMMAND],
}

// A table of four rows of six places, with a value on its diagonal and another off it.
fn four_rows(on: i32, off: i32) -> [i32; 24] {
    let mut table = [off; 24];
    table[0] = on;
    table[7] = on;
    table[14] = on;
    table[21] = on;
    table
}

// Places beyond n, m and p are not looked at, so all groups have the same tables.
fn law(n: usize, m: usize, p: usize) -> law::Settings {
    let mut a = [1024; 36];
    a[0] = 32768;
    a[7] = 32768;
    a[14] = 32768;
    a[21] = 32768;
    a[28] = 32768;
    a[35] = 32768;
    let mut l = [512; 24];
    l[0] = 32768;
    l[5] = 32768;
    l[10] = 32768;
    l[15] = 32768;
    let c = four_rows(65536, 256);
    let k = four_rows(65536, -2048);
    law::Settings {
        n,
        m,
        p,
        a,
        l,
        c,
        k,
        low: [-1000000; 4],
        high: [1000000; 4],
        start: [10, 20, 20, 20, 20, 20],
    }
}

fn made(boxes: u8, own: u8, law: law::Settings) -> Replica {
    let quorums = quorums::majorities(boxes);
    let made = Replica::make(Settings {
        boxes,
        own,
        quorums,
        law,
    });
    made.unwrap_or(replica::blank())
}

impl<const N: usize> Group<N> {
    // Fresh boxes under a law of these sizes.
    pub fn new(n: usize, m: usize, p: usize) -> Self
        requires { N < 256 }
    {
        let law = law(n, m, p);
        // A closure for std::array::from_fn does not see that N is below 256.
        let mut replicas = [made(N as u8, 1, law); N];
        for j in 1..N {
            replicas[j] = made(N as u8, j as u8 + 1, law);
        }
        Group {
            replicas,
            command: [0u8; LONGEST_COMMAND],
        }
    }
}

// The readings of every tick: 103, 204, 305 and 406, of which the first m are there.
pub fn row(m: usize) -> [Reading; 4] {
    std::array::from_fn(|j| if j < m {
        Reading::Count(103 + 101 * j as i32)
    } else {
        Reading::Missing
    })
}
