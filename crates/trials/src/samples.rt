// What is looked at: settings whose other numbers are taken, and a Propose.
use estimate::Estimate;
use frame::Frame;
use readings::Readings;
use replica::Settings;

// One state, one reading and one command, with these coefficients.
pub(crate) fn law_with(of_a: i32, of_l: i32, of_c: i32, of_k: i32) -> law::Settings {
    let mut a = [0; 36];
    let mut l = [0; 24];
    let mut c = [0; 24];
    let mut k = [0; 24];
    a[0] = of_a;
    l[0] = of_l;
    c[0] = of_c;
    k[0] = of_k;
    law::Settings {
        n: 1,
        m: 1,
        p: 1,
        a,
        l,
        c,
        k,
        low: [0; 4],
        high: [0; 4],
        start: [0; 6],
    }
}

pub(crate) fn settings(boxes: u8, own: u8) -> Settings {
    let law = law_with(65536, 32768, 65536, 65536);
    let quorums = quorums::majorities(boxes);
    Settings {
        boxes,
        own,
        quorums,
        law,
    }
}

// The Propose of box 1 in period 1 and view 0.
pub(crate) fn propose() -> Frame {
    let readings = Readings {
        present: [true, true, false, false],
        values: [5, 6, 0, 0],
    };
    let estimate = Estimate {
        state: [1, 2, 3, 4, 0, 0],
        readings,
    };
    Frame {
        kind: frame::kinds::PROPOSE,
        sender: 1,
        period: 1,
        view: 0,
        base_view: 0,
        base_period: 1,
        estimate,
    }
}
