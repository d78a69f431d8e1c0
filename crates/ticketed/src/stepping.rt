// Steps without an ask: one that is made voids the latest ticket.
ghost use Rattle.std.specs.Prelude.{◌≡◌, [], ◌∷◌, length};
ghost use Rattle.lists.specs.Choice.{pick};
ghost use Rattle.octets.specs.Areas.{put, over};
ghost use Rattle.transmitters.specs.Conversion.{converted_row};
ghost use Rattle.transmitters.specs.Numbers.{readings_of};
ghost use Rattle.scram.specs.Answers.{answered};
ghost use Rattle.replica.specs.Calls.{tick_outcome, give_up_outcome, arrive_outcome};
ghost use Rattle.records.specs.Recording.{recorded};
ghost use Rattle.records.specs.Reading.{is_done};
ghost use Rattle.ticketed.specs.Lengths.{ticketed_length};
ghost use Rattle.ticketed.specs.Calls.{step_at, Steps, refused_step, stepped_as};

use crate::Stepped;
use crate::lengths::MARK;
use crate::reading::read;
use octets::word::put_bytes;
use records::reading::is_done;
use records::recording::write;
use refusal::Refusal;
use scram::Answer;
use transmitters::numbers::readings_of;

// A step at bytes that are no replica with tickets.
fn refused() -> Stepped
    ensures { result ≡ refused_step }
{
    Stepped {
        answer: Answer::Refused(Refusal::Record),
        frame: 0,
        command: 0,
    }
}

// What a step leaves in the area: where it was done, the record of the replica then, and the ticket is void.
fn leave(answer: Answer, next: replica::Replica, replica: &mut [u8])
    requires { length replica.old ≡ ticketed_length }
    ensures { replica.new ≡ pick (is_done (answered answer)) (put (over (recorded next (length replica.old)) replica.old) 618 (0 ∷ [])) replica.old }
{
    if is_done(answer) {
        let _ = write(next, replica);
        put_bytes(replica, MARK, &[0]);
    }
}

// The step that this makes of the replica in the area.
fn step_of(stepped: replica::Stepped, replica: &mut [u8]) -> Stepped
    requires { length replica.old ≡ ticketed_length }
    ensures stepped { result ≡ stepped_as stepped }
    ensures replica { replica.new ≡ pick (is_done (answered stepped.answer)) (put (over (recorded stepped.replica (length replica.old)) replica.old) 618 (0 ∷ [])) replica.old }
{
    leave(stepped.answer, stepped.replica, replica);
    Stepped {
        answer: stepped.answer,
        frame: stepped.frame,
        command: stepped.command,
    }
}

// A tick with readings, each by its kind and its bits. The three steps differ in one call, as the asks do.
pub fn tick(
    replica: &mut [u8],
    kinds: &[u8; 4],
    bits: &[u32; 4],
    frame: &mut [u8],
    command: &mut [u8],
) -> Stepped
    ensures { Steps replica.old
        (step_at replica.old (λ x. tick_outcome x (converted_row (readings_of kinds.now bits.now)) (length frame.old) (length command.old)))
        result replica.new frame.old frame.new command.old command.new }
{
    let Some(before) = read(replica) else {
        return refused();
    };
    let readings = readings_of(kinds, bits);
    let stepped = before.tick(readings, frame, command);
    step_of(stepped, replica)
}

// The view is given up.
pub fn give_up(replica: &mut [u8], frame: &mut [u8], command: &mut [u8]) -> Stepped
    ensures { Steps replica.old
        (step_at replica.old (λ x. give_up_outcome x (length frame.old) (length command.old)))
        result replica.new frame.old frame.new command.old command.new }
{
    let Some(before) = read(replica) else {
        return refused();
    };
    let stepped = before.give_up(frame, command);
    step_of(stepped, replica)
}

// Bytes that arrive as a frame.
pub fn arrive(replica: &mut [u8], bytes: &[u8], frame: &mut [u8], command: &mut [u8]) -> Stepped
    ensures { Steps replica.old
        (step_at replica.old (λ x. arrive_outcome x bytes.now (length frame.old) (length command.old)))
        result replica.new frame.old frame.new command.old command.new }
{
    let Some(before) = read(replica) else {
        return refused();
    };
    let stepped = before.arrive(bytes, frame, command);
    step_of(stepped, replica)
}
