// The frames that the program writes: 4 states and 2 readings, of which reading 0 is absent.
use estimate::Estimate;
use frame::Frame;
use frame::kinds::{ACK, DECIDE, ESTIMATE, PROPOSE};
use readings::Readings;

fn second_present() -> Readings {
    Readings {
        present: [false, true, false, false],
        values: [0i32, -2, 0, 0],
    }
}

fn with_parts(kind: u8, base_view: u32, base_period: u32, readings: Readings) -> Frame {
    Frame {
        kind,
        sender: 3,
        period: 258,
        view: 5,
        base_view,
        base_period,
        estimate: Estimate {
            state: [1i32, -1, -2147483648, 2147483647, 0, 0],
            readings,
        },
    }
}

pub(crate) fn propose() -> Frame {
    with_parts(PROPOSE, 5, 258, second_present())
}

pub(crate) fn decide() -> Frame {
    with_parts(DECIDE, 5, 258, second_present())
}

pub(crate) fn estimate() -> Frame {
    with_parts(ESTIMATE, 4, 257, second_present())
}

// The Ack of box 2, period 1, view 0. An Ack's estimate is not looked at.
pub(crate) fn ack() -> Frame {
    Frame {
        kind: ACK,
        sender: 2,
        period: 1,
        view: 0,
        base_view: 0,
        base_period: 0,
        estimate: Estimate {
            state: [9i32; 6],
            readings: Readings {
                present: [true; 4],
                values: [9i32; 4],
            },
        },
    }
}

// What no frame can hold: a fifth kind, a mark at m = 2, a value under an absent mark.
pub(crate) fn fifth_kind() -> Frame {
    with_parts(5, 5, 258, second_present())
}

pub(crate) fn mark_beyond() -> Frame {
    let readings = Readings {
        present: [false, true, true, false],
        values: [0i32, -2, 0, 0],
    };
    with_parts(PROPOSE, 5, 258, readings)
}

pub(crate) fn absent_value() -> Frame {
    let readings = Readings {
        present: [false, true, false, false],
        values: [1i32, -2, 0, 0],
    };
    with_parts(PROPOSE, 5, 258, readings)
}
