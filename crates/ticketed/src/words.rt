// Numbers of 64 bits, and bytes from one area to another.
ghost use Rattle.std.specs.Prelude.{◌≡◌, ◌+◌, ◌≤◌, length};
ghost use Rattle.octets.specs.Words.{little_endian, number_at, part};
ghost use Rattle.octets.specs.Areas.{put};

use octets::word::put_bytes;

pub(crate) fn u64_at(bytes: &[u8], at: usize) -> u64
    requires { at + 8 ≤ length bytes.now }
    ensures { result ≡ number_at 8 bytes.now at }
{
    u64::from_le_bytes([
        bytes[at],
        bytes[at + 1],
        bytes[at + 2],
        bytes[at + 3],
        bytes[at + 4],
        bytes[at + 5],
        bytes[at + 6],
        bytes[at + 7],
    ])
}

pub(crate) fn put_u64(area: &mut [u8], at: usize, x: u64)
    requires { at + 8 ≤ length area.old }
    ensures { area.new ≡ put area.old at (little_endian 8 x) }
{
    put_bytes(area, at, &x.to_le_bytes());
}

// Copies as many bytes from an offset of one area to an offset of another.
#[tactic(auto, unfolding(octets::specs::Areas::put))]
pub(crate) fn copy(from: &[u8], at: usize, count: usize, to: &mut [u8], into: usize)
    requires { (at + count ≤ length from.now) × (into + count ≤ length to.old) }
    ensures { to.new ≡ put to.old into (part from.now at count) }
{
    to[into..into + count].copy_from_slice(&from[at..at + count]);
}
