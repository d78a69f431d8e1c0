// The areas of a caller as values of the law and the frames.
ghost use Rattle.std.specs.Prelude.{◌≡◌};
ghost use Rattle.estimate.specs.Marks.{bit};
ghost use Rattle.winder.specs.LawAreas.{readings_of};
ghost use Rattle.winder.specs.FrameAreas.{frame_of, marks_of};

use estimate::Estimate;
use frame::Frame;
use readings::Readings;

// A mark is present where it is not 0.
pub fn readings_of(present: &[u8; 4], values: &[i32; 4]) -> Readings
    ensures { result ≡ readings_of present.now values.now }
{
    Readings {
        present: present.map(|byte| byte != 0),
        values: *values,
    }
}

pub(crate) fn frame_of(
    kind_and_sender: &[u8; 2],
    counters: &[u32; 4],
    state: &[i32; 6],
    present: &[u8; 4],
    values: &[i32; 4],
) -> Frame
    ensures { result ≡ frame_of kind_and_sender.now counters.now state.now present.now values.now }
{
    let estimate = Estimate {
        state: *state,
        readings: readings_of(present, values),
    };
    Frame {
        kind: kind_and_sender[0],
        sender: kind_and_sender[1],
        period: counters[0],
        view: counters[1],
        base_view: counters[2],
        base_period: counters[3],
        estimate,
    }
}

// A mark as a byte: callers prove by its clause.
pub fn mark_byte(mark: bool) -> u8
    ensures { result ≡ bit mark }
{
    u8::from(mark)
}

// 1 for a present reading, else 0.
pub fn marks_of(readings: Readings) -> [u8; 4]
    ensures { result ≡ marks_of readings }
{
    readings.present.map(mark_byte)
}
