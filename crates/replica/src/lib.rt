// One replica of a group, as a value that takes events: a tick with readings, a frame that arrives, a view that is given up.
#![tactic(auto)]

mod arrivals;
mod checked;
pub mod fit;
mod moves;
mod output;
pub mod refusals;
mod rules;

ghost use Rattle.std.specs.Prelude.{◌≡◌, length, IfOk};
ghost use Rattle.scram.specs.Answers.{answered_of};
ghost use Rattle.transmitters.specs.Conversion.{converted_row};
ghost use Rattle.replica.specs.Calls.{tick_outcome, give_up_outcome, arrive_outcome, Gives, made_answer, made, fresh_of};
ghost use Rattle.replica.specs.Settings.{blank_settings};
ghost use Rattle.replica.specs.Rules.{stepped_by};

use estimate::Estimate;
pub use moves::no_best;
use moves::{blank_settings, fresh};
use quorums::Quorums;
use refusal::Refusal;
use refusals::check_settings;
use scram::Answer;
use transmitters::Reading;

// The group's size N, the box's own number, the quorum numbers, and the settings of the law. Those of one group differ in the own number alone.
#[derive(Clone, Copy)]
pub struct Settings {
    pub boxes: u8,
    pub own: u8,
    pub quorums: Quorums,
    pub law: law::Settings,
}

impl Settings {
    ghost use Rattle.replica.specs.Settings.{member_of};

    // The few numbers that the rules need.
    fn member(&self) -> Member
        ensures { result ≡ member_of self.now }
    {
        Member {
            boxes: self.boxes,
            own: self.own,
            quorums: self.quorums,
            n: self.law.n,
            m: self.law.m,
        }
    }
}

// The best estimate heard in a view change: whether there is one, the box that it came from, its bases, and the estimate.
// No Option: a replica handed in may hold anything beside `any: false`, and a step gives that back (`replica` of `Gives`, by `held_of`).
#[derive(Clone, Copy)]
pub struct Best {
    pub any: bool,
    pub box_number: u8,
    pub base_view: u32,
    pub base_period: u32,
    pub estimate: Estimate,
}

// What a replica holds besides its settings, which no event changes. Place j of heard is for box j. Mode and decided are facts of their own, whatever stands
// beside them.
#[derive(Clone, Copy)]
pub struct Held {
    pub period: u32,
    pub view: u32,
    pub base_view: u32,
    pub view_change: bool,
    pub decided: bool,
    pub estimate: Estimate,
    pub base_period: u32,
    pub heard: [bool; 10],
    pub best: Best,
}

#[derive(Clone, Copy)]
pub struct Replica {
    pub settings: Settings,
    pub held: Held,
}

// What a step gives back: its answer, the replica, and the lengths written to the two lent areas, 0 where nothing was.
// No Result: a replica "goes into a step and comes back from it" (docs/SPECIFICATION.md), whatever the answer is.
#[derive(Clone, Copy)]
pub struct Stepped {
    pub answer: Answer,
    pub replica: Replica,
    pub frame: usize,
    pub command: usize,
}

// What a step gives beside the settings, which stay: its answer, what is held then, and the lengths written to the two lent areas, 0 where nothing was.
// No Result, for the same reason: what is held goes in by value and comes back.
#[derive(Clone, Copy)]
pub struct Given {
    pub answer: Answer,
    pub held: Held,
    pub frame: usize,
    pub command: usize,
}

// The few numbers of the settings that the rules need: N, the own number, the quorum numbers, and the sizes of a frame.
// No ghost field for `Fit`: `member_of` and `group_of` of specs/Settings.antt are of settings that are refused too, and give a Member with no proof.
#[derive(Clone, Copy)]
struct Member {
    boxes: u8,
    own: u8,
    quorums: Quorums,
    n: usize,
    m: usize,
}

// What a rule gives: the answer, what is held then, the length of the frame sent, and whether the command of the estimate held is issued.
// No Result: what is held comes back whatever the answer is.
#[derive(Clone, Copy)]
struct Moved {
    answer: Answer,
    held: Held,
    frame: usize,
    issues: bool,
}

impl Replica {
    // A fresh replica.
    pub fn make(settings: Settings) -> Result<Replica, Refusal>
        ensures answer { answered_of result ≡ made_answer settings }
        ensures replica { IfOk result (λ replica. replica ≡ made settings) }
    {
        check_settings(&settings)?;
        Ok(fresh(settings))
    }

    // A tick with readings as the transmitters send them. Nothing looks at the row before it is converted.
    pub fn tick(self, readings: [Reading; 4], frame: &mut [u8], command: &mut [u8]) -> Stepped
        ensures { Gives self.settings (tick_outcome self (converted_row readings) (length frame.old) (length command.old))
            result frame.old frame.new command.old command.new }
    {
        let converted = transmitters::convert_row(readings);
        let given = checked::tick(&self.settings, self.held, converted, frame, command.len());
        step_of(self, given)
    }

    // The view is given up.
    pub fn give_up(self, frame: &mut [u8], command: &mut [u8]) -> Stepped
        ensures { Gives self.settings (give_up_outcome self (length frame.old) (length command.old))
            result frame.old frame.new command.old command.new }
    {
        let given = checked::give_up(&self.settings, self.held, frame, command.len());
        step_of(self, given)
    }

    // Bytes that arrive as a frame.
    pub fn arrive(self, bytes: &[u8], frame: &mut [u8], command: &mut [u8]) -> Stepped
        ensures { Gives self.settings (arrive_outcome self bytes.now (length frame.old) (length command.old))
            result frame.old frame.new command.old command.new }
    {
        let given = checked::arrive(&self.settings, self.held, bytes, frame, command);
        step_of(self, given)
    }
}

// A replica of no settings, which every step refuses by 1.
pub fn blank() -> Replica
    ensures { result ≡ fresh_of blank_settings }
{
    fresh(blank_settings())
}

// The step that this makes of the replica handed in: its settings stay.
fn step_of(replica: Replica, given: Given) -> Stepped
    ensures { result ≡ stepped_by replica.settings given }
{
    Stepped {
        answer: given.answer,
        replica: Replica {
            settings: replica.settings,
            held: given.held,
        },
        frame: given.frame,
        command: given.command,
    }
}
