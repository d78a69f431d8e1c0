// The kinds of frames, and what is asked of them.
// Numbers, and no enum: a frame that is handed in may have a kind that there is not, which `write` refuses by 8 (`write_refusal`).
ghost use Rattle.std.specs.Prelude.{◌≡◌};
ghost use Rattle.frame.specs.Kinds.{kind_ok, part_count, has_parts};

pub const PROPOSE: u8 = 1;

pub const ACK: u8 = 2;

pub const DECIDE: u8 = 3;

pub const ESTIMATE: u8 = 4;

// There is a kind of that number.
pub fn kind_ok(kind: u8) -> bool
    ensures { result ≡ kind_ok kind }
{
    matches!(kind, PROPOSE | ACK | DECIDE | ESTIMATE)
}

// How many parts its frames have.
pub(crate) fn part_count(kind: u8) -> u8
    ensures { result ≡ part_count kind }
{
    match kind {
        PROPOSE | DECIDE | ESTIMATE => 2,
        _ => 0,
    }
}

// Its frames carry an estimate.
pub fn has_parts(kind: u8) -> bool
    ensures { result ≡ has_parts kind }
{
    0 < part_count(kind)
}
