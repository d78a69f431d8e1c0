// Reading and writing a frame.
ghost use Rattle.std.specs.Prelude.{◌≡◌};
ghost use Rattle.octets.specs.Areas.{over};
ghost use Rattle.frame.specs.Reading.{read_refusal, read_frame};
ghost use Rattle.frame.specs.Writing.{write_refusal, written};
ghost use Rattle.winder.specs.Areas.{unless_refused};
ghost use Rattle.winder.specs.FrameAreas.{frame_of, kind_and_sender_of, counters_of, marks_of, length_after};

use crate::answers::refusal_number;
use crate::areas::{frame_of, marks_of};

// Reads a frame of n states and m readings.
pub fn winder_read_frame(
    n: usize,
    m: usize,
    bytes: &[u8],
    kind_and_sender: &mut [u8; 2],
    counters: &mut [u32; 4],
    state: &mut [i32; 6],
    present: &mut [u8; 4],
    values: &mut [i32; 4],
) -> u32
    ensures answer { result ≡ read_refusal n m bytes.now }
    ensures kind_and_sender { kind_and_sender.new ≡ unless_refused (read_refusal n m bytes.now) (kind_and_sender_of (read_frame n m bytes.now)) kind_and_sender.old }
    ensures counters { counters.new ≡ unless_refused (read_refusal n m bytes.now) (counters_of (read_frame n m bytes.now)) counters.old }
    ensures state { state.new ≡ unless_refused (read_refusal n m bytes.now) (read_frame n m bytes.now).estimate.state state.old }
    ensures present { present.new ≡ unless_refused (read_refusal n m bytes.now) (marks_of (read_frame n m bytes.now).estimate.readings) present.old }
    ensures values { values.new ≡ unless_refused (read_refusal n m bytes.now) (read_frame n m bytes.now).estimate.readings.values values.old }
{
    match frame::read(n, m, bytes) {
        Ok(frame) => {
            *kind_and_sender = [frame.kind, frame.sender];
            *counters = [frame.period, frame.view, frame.base_view, frame.base_period];
            let read = frame.estimate.state;
            *state = read;
            *present = marks_of(frame.estimate.readings);
            let given = frame.estimate.readings.values;
            *values = given;
            0
        }
        Err(refusal) => refusal_number(refusal),
    }
}

// Writes a frame of n states and m readings to the start of an area.
pub fn winder_write_frame(
    n: usize,
    m: usize,
    kind_and_sender: &[u8; 2],
    counters: &[u32; 4],
    state: &[i32; 6],
    present: &[u8; 4],
    values: &[i32; 4],
    area: &mut [u8],
    length: &mut usize,
) -> u32
    ensures answer { result ≡ write_refusal n m (frame_of kind_and_sender.now counters.now state.now present.now values.now) area.old }
    ensures area { area.new ≡ over (written n m (frame_of kind_and_sender.now counters.now state.now present.now values.now) area.old) area.old }
    ensures length { length.new ≡ length_after n m (frame_of kind_and_sender.now counters.now state.now present.now values.now) area.old length.old }
{
    let frame = frame_of(kind_and_sender, counters, state, present, values);
    match frame::write(n, m, frame, area) {
        Ok(size) => {
            *length = size;
            0
        }
        Err(refusal) => refusal_number(refusal),
    }
}
