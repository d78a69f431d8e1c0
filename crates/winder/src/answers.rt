// Answers as document 01's numbers.
ghost use Rattle.std.specs.Prelude.{◌≡◌};
ghost use Rattle.refusal.specs.Numbers.{number};
ghost use Rattle.scram.specs.Answers.{answered, answered_of};
ghost use Rattle.winder.specs.Answers.{number_of};

use refusal::Refusal;
use scram::Answer;

// The number of a refusal, which is never 0.
pub fn refusal_number(refusal: Refusal) -> u32
    ensures { result ≡ number refusal }
{
    u32::from(u8::from(refusal))
}

// The number of the refusal of a call that gives nothing beside it, and 0 where it is done.
pub(crate) fn result_number(given: Result<(), Refusal>) -> u32
    ensures { result ≡ number_of (answered_of given) }
{
    match given {
        Ok(()) => 0,
        Err(refusal) => refusal_number(refusal),
    }
}

// 0 for done, and 256 for ignored.
pub fn replica_number(answer: Answer) -> u32
    ensures { result ≡ number_of (answered answer) }
{
    match answer {
        Answer::Done => 0,
        Answer::Ignored => 256,
        Answer::Refused(refusal) => refusal_number(refusal),
    }
}
