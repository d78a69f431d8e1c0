// Numbers as bytes, the lowest byte first.
ghost use Rattle.std.specs.Prelude.{◌≡◌, ◌+◌, ◌≤◌, length};
ghost use Rattle.octets.specs.Words.{little_endian, number_at, twos_complement, from_twos_complement};
ghost use Rattle.octets.specs.Areas.{put};

pub fn u16_at(bytes: &[u8], at: usize) -> usize
    requires { at + 2 ≤ length bytes.now }
    ensures { result ≡ number_at 2 bytes.now at }
{
    usize::from(u16::from_le_bytes([bytes[at], bytes[at + 1]]))
}

pub fn u32_at(bytes: &[u8], at: usize) -> u32
    requires { at + 4 ≤ length bytes.now }
    ensures { result ≡ number_at 4 bytes.now at }
{
    u32::from_le_bytes([bytes[at], bytes[at + 1], bytes[at + 2], bytes[at + 3]])
}

// The i32 whose 32 bits in two's complement are x.
pub fn signed(x: u32) -> i32
    ensures { result ≡ from_twos_complement x }
{
    x.cast_signed()
}

// The 32 bits of z in two's complement.
pub fn bits(z: i32) -> u32
    ensures { result ≡ twos_complement z }
{
    z.cast_unsigned()
}

pub fn put_bytes(area: &mut [u8], at: usize, bytes: &[u8])
    requires { at + length bytes.now ≤ length area.old }
    ensures { area.new ≡ put area.old at bytes.now }
{
    area[at..at + bytes.len()].copy_from_slice(bytes);
}

pub fn put_u16(area: &mut [u8], at: usize, x: usize)
    requires { at + 2 ≤ length area.old }
    ensures { area.new ≡ put area.old at (little_endian 2 x) }
{
    put_bytes(area, at, &x.to_le_bytes()[..2]);
}

pub fn put_u32(area: &mut [u8], at: usize, x: u32)
    requires { at + 4 ≤ length area.old }
    ensures { area.new ≡ put area.old at (little_endian 4 x) }
{
    put_bytes(area, at, &x.to_le_bytes());
}
