// The frames that lines sent. Line f has the SLOT bytes of a table from SLOT * f on, and the length of its frame at place f of a list.
// One table and one list, since nothing here has a heap.
ghost use Rattle.std.specs.Prelude.{◌≡◌, ◌+◌, ◌*◌, ◌≤◌, length, take};
ghost use Rattle.line.specs.Frames.{slot, was_sent, frame_of, frame_fits, kept_frame, kept};

// The longest frame has 69 bytes.
pub const SLOT: usize = 69;

// Whether line f sent a frame before line `number`.
pub fn was_sent(lengths: &[usize], number: u32, f: u32) -> bool
    ensures { result ≡ was_sent lengths.now number f }
{
    0 < f && f < number && 0 < lengths.get(f as usize).copied().unwrap_or(0)
}

// The frame of so many bytes that line f sent.
pub fn frame_of(table: &[u8], f: u32, size: usize) -> &[u8]
    ensures { result.now ≡ frame_of table.now f size }
{
    let start = (SLOT * (f as usize)).min(table.len());
    let rest = &table[start..];
    &rest[..size.min(rest.len())]
}

// Whether a frame of so many bytes of an area has room in the line's place.
fn fits(table: usize, number: u32, frame: usize, size: usize) -> bool
    ensures { result ≡ frame_fits table number frame size }
{
    size <= frame && size <= SLOT && SLOT * (number as usize) + size <= table
}

fn put_frame(table: &mut [u8], number: u32, frame: &[u8], size: usize)
    requires { (size ≤ length frame.now) × (slot * number + size ≤ length table.old) }
    ensures { table.new ≡ kept_frame table.old number (take size frame.now) }
{
    let start = SLOT * (number as usize);
    table[start..start + size].copy_from_slice(&frame[..size]);
}

// Puts the frame of line `number` into the table, where there is room.
pub fn keep(table: &mut [u8], number: u32, frame: &[u8], size: usize)
    ensures { table.new ≡ kept table.old number frame.now size }
{
    if fits(table.len(), number, frame.len(), size) {
        put_frame(table, number, frame, size);
    }
}
