// A replica with tickets in the area of a caller (docs/RECORD.md): the record, and the tickets behind it. Asking, committing, and stepping without an ask.
#![tactic(auto)]

pub mod asking;
pub mod committing;
pub mod lengths;
pub mod making;
mod reading;
pub mod stepping;
mod words;

use scram::Answer;

// What an ask gives: its answer, its ticket, and the lengths written to the frame area and to the command area, 0 where nothing was.
// No Result: an answer may be "ignored", and the lengths beside it are numbers that C is given whatever the answer is.
#[derive(Clone, Copy)]
pub struct Asked {
    pub answer: Answer,
    pub ticket: u64,
    pub frame: usize,
    pub command: usize,
}

// What a step gives that was not asked. No Result, for the same reason.
#[derive(Clone, Copy)]
pub struct Stepped {
    pub answer: Answer,
    pub frame: usize,
    pub command: usize,
}
