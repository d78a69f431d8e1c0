// The bytes that every frame starts with.
ghost use Rattle.std.specs.Prelude.{◌≡◌, ◌≤◌, length};
ghost use Rattle.octets.specs.Areas.{put};
ghost use Rattle.frame.specs.Lengths.{header_length};
ghost use Rattle.frame.specs.Format.{header};
ghost use Rattle.frame.specs.Reading.{header_ok, headed};

use crate::Frame;
use crate::kinds::{kind_ok, part_count};
use crate::lengths::{HEADER_LENGTH, frame_length};
use estimate::Estimate;
use octets::word::{put_bytes, put_u32, u32_at};

// Length, kind, part count and byte 3 are what they must be.
pub(crate) fn header_ok(n: usize, m: usize, bytes: &[u8]) -> bool
    requires { (n ≤ 6) × (m ≤ 4) }
    ensures { result ≡ header_ok n m bytes.now }
{
    bytes.len() >= HEADER_LENGTH
        && bytes.len() == frame_length(n, m, bytes[0])
        && kind_ok(bytes[0])
        && bytes[2] == part_count(bytes[0])
        && bytes[3] == 0
}

// The fields of a header, with an estimate.
pub(crate) fn headed_by(bytes: &[u8], estimate: Estimate) -> Frame
    requires { header_length ≤ length bytes.now }
    ensures { result ≡ headed bytes.now estimate }
{
    let kind = bytes[0];
    let sender = bytes[1];
    let period = u32_at(bytes, 4);
    let view = u32_at(bytes, 8);
    let base_view = u32_at(bytes, 12);
    let base_period = u32_at(bytes, 16);
    Frame {
        kind,
        sender,
        period,
        view,
        base_view,
        base_period,
        estimate,
    }
}

pub(crate) fn put_header(frame: Frame, area: &mut [u8])
    requires { header_length ≤ length area.old }
    ensures { area.new ≡ put area.old 0 (header frame) }
{
    put_bytes(
        area,
        0,
        &[frame.kind, frame.sender, part_count(frame.kind), 0],
    );
    put_u32(area, 4, frame.period);
    put_u32(area, 8, frame.view);
    put_u32(area, 12, frame.base_view);
    put_u32(area, 16, frame.base_period);
}
