// The settings of document 01's bench, which program bench runs and the cases P1 to P5 are about.
#![tactic(auto)]

ghost use Rattle.std.specs.Prelude.{◌≡◌};
ghost use Rattle.setup.specs.Bench.{bench};

use quorums::Quorums;
use replica::Settings;

// N = 3, both quorum numbers 2; n = m = p = 1; A, C and K hold 65536, L 32768; widest limits; start 0. The settings of box 1.
pub fn bench_settings() -> Settings
    ensures { result ≡ bench }
{
    let mut a = [0i32; 36];
    let mut l = [0i32; 24];
    let mut c = [0i32; 24];
    let mut k = [0i32; 24];
    let mut low = [0i32; 4];
    let mut high = [0i32; 4];
    a[0] = 65536;
    l[0] = 32768;
    c[0] = 65536;
    k[0] = 65536;
    low[0] = -2147483648;
    high[0] = 2147483647;
    let law = law::Settings {
        n: 1,
        m: 1,
        p: 1,
        a,
        l,
        c,
        k,
        low,
        high,
        start: [0i32; 6],
    };
    let quorums = Quorums {
        to_decide: 2,
        to_propose: 2,
    };
    Settings {
        boxes: 3,
        own: 1,
        quorums,
        law,
    }
}
