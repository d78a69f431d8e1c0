// Returning after a power cycle: the record's replica, after as many ticks with no reading as periods were missed.
ghost use Rattle.std.specs.Prelude.{◌≡◌, IfSome, IfOk};
ghost use Rattle.std.specs.Option.{is_none};
ghost use Rattle.scram.specs.Answers.{answered_of};
ghost use Rattle.scram.specs.Shown.{is_refused};
ghost use Rattle.records.specs.Returning.{missed_tick, after_missed, stay_answer, stayed, return_answer, returned};

use crate::reading::read;
use frame::lengths::{LONGEST_COMMAND, LONGEST_FRAME};
use refusal::Refusal;
use replica::Replica;
use scram::Answer;
use transmitters::Reading;

// No more missed periods are taken.
pub const MOST_MISSED: u32 = 10000;

// A missed period: the replica after a tick handed no reading, whose frame is dropped; none where that tick is refused.
fn miss(replica: Replica) -> Option<Replica>
    ensures refused { is_none result ≡ is_refused (missed_tick replica).answer }
    ensures replica { IfSome result (λ next. next ≡ after_missed replica) }
{
    let mut frame = [0u8; LONGEST_FRAME];
    let mut command = [0u8; LONGEST_COMMAND];
    let stepped = replica.tick([Reading::Missing; 4], &mut frame, &mut command);
    match stepped.answer {
        Answer::Refused(_) => None,
        Answer::Done | Answer::Ignored => Some(stepped.replica),
    }
}

// As many missed periods at a replica: 16 where they are too many.
pub fn stay_up(replica: Replica, missed: u32) -> Result<Replica, Refusal>
    ensures answer { answered_of result ≡ stay_answer missed replica }
    ensures replica { IfOk result (λ up. up ≡ stayed missed replica) }
{
    if MOST_MISSED < missed {
        return Err(Refusal::Missed);
    }
    let mut up = replica;
    for _ in 0..missed {
        let Some(next) = miss(up) else {
            return Err(Refusal::Missed);
        };
        up = next;
    }
    Ok(up)
}

// Returns from a record: 15, then 16.
pub fn return_from(bytes: &[u8], missed: u32) -> Result<Replica, Refusal>
    ensures answer { answered_of result ≡ return_answer missed bytes.now }
    ensures replica { IfOk result (λ up. up ≡ returned missed bytes.now) }
{
    let replica = read(bytes)?;
    stay_up(replica, missed)
}
