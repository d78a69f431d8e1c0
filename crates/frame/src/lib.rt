// The frames of document 01: read from bytes, and written to an area that the caller lends.
#![tactic(auto)]

mod command;
mod header;
pub mod kinds;
pub mod lengths;
mod parts;

ghost use Rattle.std.specs.Prelude.{◌≡◌, ◌≤◌, ◌&&◌, length, leb, IfOk};
ghost use Rattle.refusal.specs.Numbers.{number_of};
ghost use Rattle.octets.specs.Areas.{put, over};
ghost use Rattle.frame.specs.Sizes.{sizes_ok};
ghost use Rattle.frame.specs.Lengths.{longest_frame};
ghost use Rattle.frame.specs.Format.{frame_bytes};
ghost use Rattle.frame.specs.Reading.{read_refusal, read_frame};
ghost use Rattle.frame.specs.Writing.{well_formed, write_refusal, written};
ghost use Rattle.frame.specs.Command.{command_refusal, command_written, command_values, command_limited};
ghost use Rattle.frame.specs.CommandReading.{read_command_refusal, read_command};

use command::{command_in, is_command, put_command};
use estimate::marks::is_writable;
use estimate::parts::{estimate_length, put_estimate, read_state, readings_length, state_length};
use estimate::{Estimate, no_estimate};
use header::{headed_by, header_ok, put_header};
use kinds::{has_parts, kind_ok};
use lengths::{COMMAND_START, HEADER_LENGTH, LONGEST_COMMAND, LONGEST_FRAME, PARTS_START};
use octets::values::read_values;
use parts::{checked_readings, pairs_ok, put_pairs};
use refusal::Refusal;

// The kind is a number of `kinds`. Where it has no parts, the bytes carry no estimate.
#[derive(Clone, Copy)]
pub struct Frame {
    pub kind: u8,
    pub sender: u8,
    pub period: u32,
    pub view: u32,
    pub base_view: u32,
    pub base_period: u32,
    pub estimate: Estimate,
}

// What the bytes of a command say. It is limited where clamping or limits changed a value in the update or the command it comes from; the values count
// either way.
#[derive(Clone, Copy)]
pub struct CommandFields {
    pub period: u32,
    pub values: [i32; 4],
    pub limited: bool,
}

// A size is from 1 to the most that there may be.
fn in_range(size: usize, most: usize) -> bool
    ensures { result ≡ (leb 1 size && leb size most) }
{
    1 <= size && size <= most
}

// n states and m readings are within their ranges. They go in apart, here and below: they are two numbers of the settings, which C hands in apart.
fn sizes_ok(n: usize, m: usize) -> bool
    ensures { result ≡ sizes_ok n m }
{
    in_range(n, 6) && in_range(m, 4)
}

// Reads a frame of n states and m readings. Once its pairs are found to say where the parts lie, each part goes to its own reader.
pub fn read(n: usize, m: usize, bytes: &[u8]) -> Result<Frame, Refusal>
    ensures answer { number_of result ≡ read_refusal n m bytes.now }
    ensures frame { IfOk result (λ frame. frame ≡ read_frame n m bytes.now) }
{
    if !sizes_ok(n, m) {
        return Err(Refusal::Sizes);
    }
    if !header_ok(n, m, bytes) {
        return Err(Refusal::Frame);
    }
    if !has_parts(bytes[0]) {
        return Ok(headed_by(bytes, no_estimate()));
    }
    if !pairs_ok(n, m, bytes) {
        return Err(Refusal::Frame);
    }
    let state_end = PARTS_START + state_length(n);
    let readings_end = state_end + readings_length(m);
    let state = read_state(n, &bytes[PARTS_START..state_end]);
    let readings = checked_readings(m, &bytes[state_end..readings_end]).ok_or(Refusal::Frame)?;
    Ok(headed_by(bytes, Estimate { state, readings }))
}

// A kind that there is; marks and absent values that a frame can hold.
fn well_formed(m: usize, frame: Frame) -> bool
    requires { m ≤ 4 }
    ensures { result ≡ well_formed m frame }
{
    kind_ok(frame.kind) && (!has_parts(frame.kind) || is_writable(m, frame.estimate.readings))
}

// Writes a frame and returns its length.
fn put_frame(n: usize, m: usize, frame: Frame, area: &mut [u8]) -> usize
    requires { (n ≤ 6) × (m ≤ 4) × (longest_frame ≤ length area.old) }
    ensures { (result ≡ length (frame_bytes n m frame))
        × (area.new ≡ put area.old 0 (frame_bytes n m frame)) }
{
    put_header(frame, area);
    if !has_parts(frame.kind) {
        return HEADER_LENGTH;
    }
    put_pairs(n, m, area);
    let estimate = frame.estimate;
    put_estimate(n, m, estimate, area, PARTS_START);
    PARTS_START + estimate_length(n, m)
}

// Writes a frame of n states and m readings to the start of an area.
pub fn write(n: usize, m: usize, frame: Frame, area: &mut [u8]) -> Result<usize, Refusal>
    ensures answer { number_of result ≡ write_refusal n m frame area.old }
    ensures count { IfOk result (λ size. size ≡ length (written n m frame area.old)) }
    ensures bytes { area.new ≡ over (written n m frame area.old) area.old }
{
    if !sizes_ok(n, m) {
        return Err(Refusal::Sizes);
    }
    if area.len() < LONGEST_FRAME {
        return Err(Refusal::Area);
    }
    if !well_formed(m, frame) {
        return Err(Refusal::Frame);
    }
    Ok(put_frame(n, m, frame, area))
}

// Writes a command of p values to the start of an area.
pub fn write_command(
    p: usize,
    period: u32,
    values: [i32; 4],
    limited: bool,
    area: &mut [u8],
) -> Result<usize, Refusal>
    ensures answer { number_of result ≡ command_refusal p area.old }
    ensures count { IfOk result (λ size. size ≡ length (command_written p period values limited area.old)) }
    ensures bytes { area.new ≡ over (command_written p period values limited area.old) area.old }
{
    if !in_range(p, 4) {
        return Err(Refusal::Sizes);
    }
    if area.len() < LONGEST_COMMAND {
        return Err(Refusal::Area);
    }
    Ok(put_command(p, period, values, limited, area))
}

// Reads a command of p values.
pub fn read_command(p: usize, bytes: &[u8]) -> Result<CommandFields, Refusal>
    ensures answer { number_of result ≡ read_command_refusal p bytes.now }
    ensures command { IfOk result (λ command. command ≡ read_command p bytes.now) }
{
    if !in_range(p, 4) {
        return Err(Refusal::Sizes);
    }
    if !is_command(p, bytes) {
        return Err(Refusal::Frame);
    }
    Ok(command_in(p, bytes))
}

// The values of the command at the start of an area: 0 in each place where the area is too short for one.
pub fn command_values(area: &[u8]) -> [i32; 4]
    ensures { result ≡ command_values area.now }
{
    let mut values = [0i32; 4];
    if area.len() < LONGEST_COMMAND {
        return values;
    }
    read_values(&area[COMMAND_START..], &mut values);
    values
}

// Whether the command at the start of an area is marked: false where the area is too short for one.
pub fn command_limited(area: &[u8]) -> bool
    ensures { result ≡ command_limited area.now }
{
    area.len() >= LONGEST_COMMAND && area[2] == 1
}
