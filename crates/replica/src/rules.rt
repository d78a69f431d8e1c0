// The rules that need no frame: proposing, raising the view, what follows a tick, and giving up.
ghost use Rattle.std.specs.Prelude.{◌≡◌, true, not, ◌&&◌, ◌≤◌, ◌<◌, length};
ghost use Rattle.law.specs.declared.Settings as Law;
ghost use Rattle.frame.specs.Lengths.{longest_frame};
ghost use Rattle.scram.specs.Events as Events;
ghost use Rattle.replica.specs.Settings.{Fit, law_of, group_of};
ghost use Rattle.replica.specs.Held.{estimate_in, held_in};
ghost use Rattle.replica.specs.Rules.{Says, followed};

use crate::moves::{entered, following, proposing};
use crate::output::send;
use crate::refusals::{ignored, refused_rule};
use crate::{Held, Member, Moved};
use estimate::Estimate;
use frame::Frame;
use refusal::Refusal;
use scram::Answer;

// Whether a box coordinates a view.
fn leads(member: Member, view: u32) -> bool
    ensures { result ≡ Events.leads (group_of member) member.own view }
{
    member.own == scram::quorum::coordinator(member.boxes, view)
}

// Propose goes to all others.
pub(crate) fn propose(member: Member, held: Held, estimate: Estimate, frame: &mut [u8]) -> Moved
    requires { Fit member × (longest_frame ≤ length frame.old) }
    ensures { (law : Law.Settings) → Says law member (Events.propose (law_of law) (group_of member) member.own (held_in held) (estimate_in estimate))
        result frame.old frame.new }
{
    let next = proposing(member.own, held, estimate);
    let proposal = Frame {
        kind: frame::kinds::PROPOSE,
        sender: member.own,
        period: held.period,
        view: held.view,
        base_view: held.view,
        base_period: held.period,
        estimate,
    };
    let length = send(member.n, member.m, proposal, frame);
    Moved {
        answer: Answer::Done,
        held: next,
        frame: length,
        issues: false,
    }
}

// A view entered as another box: the Estimate goes to the new coordinator.
fn follow(member: Member, held: Held, view: u32, frame: &mut [u8]) -> Moved
    requires { Fit member × (longest_frame ≤ length frame.old) }
    ensures { (law : Law.Settings) → Says law member (followed law member (held_in held) view) result frame.old frame.new }
{
    let next = following(held, view);
    let own_estimate = Frame {
        kind: frame::kinds::ESTIMATE,
        sender: member.own,
        period: held.period,
        view,
        base_view: held.base_view,
        base_period: held.base_period,
        estimate: held.estimate,
    };
    let length = send(member.n, member.m, own_estimate, frame);
    Moved {
        answer: Answer::Done,
        held: next,
        frame: length,
        issues: false,
    }
}

// The view is raised by 1.
fn raise(member: Member, held: Held, frame: &mut [u8]) -> Moved
    requires { Fit member × (longest_frame ≤ length frame.old) × (held.view < 4294967295) }
    ensures { (law : Law.Settings) → Says law member (Events.raise (law_of law) (group_of member) member.own (held_in held))
        result frame.old frame.new }
{
    let view = held.view + 1;
    if leads(member, view) {
        let next = entered(member.own, held, view);
        return Moved {
            answer: Answer::Done,
            held: next,
            frame: 0,
            issues: false,
        };
    }
    follow(member, held, view, frame)
}

// What follows a tick: in view-change mode the view is raised, in normal mode a coordinator proposes.
pub(crate) fn after_tick(member: Member, held: Held, frame: &mut [u8]) -> Moved
    requires { Fit member × (longest_frame ≤ length frame.old) × (held.view_change ≡ true → held.view < 4294967295) }
    ensures { (law : Law.Settings) → Says law member (Events.after_tick (law_of law) (group_of member) member.own (held_in held))
        result frame.old frame.new }
{
    if held.view_change {
        return raise(member, held, frame);
    }
    if leads(member, held.view) {
        return propose(member, held, held.estimate, frame);
    }
    Moved {
        answer: Answer::Done,
        held,
        frame: 0,
        issues: false,
    }
}

// Giving up the view raises it, unless the box coordinates it in normal mode.
pub(crate) fn give_up_view(member: Member, held: Held, frame: &mut [u8]) -> Moved
    requires { Fit member × (longest_frame ≤ length frame.old) }
    ensures { (law : Law.Settings) → Says law member (Events.give_up (law_of law) (group_of member) member.own (held_in held))
        result frame.old frame.new }
{
    if scram::ignored::idle(held.period, held.decided) || normal_coordinator(member, held) {
        return ignored(held);
    }
    if held.view == u32::MAX {
        return refused_rule(held, Refusal::LastView);
    }
    raise(member, held, frame)
}

// Whether the box coordinates its view in normal mode.
fn normal_coordinator(member: Member, held: Held) -> bool
    ensures { result ≡ (not held.view_change && Events.leads (group_of member) member.own held.view) }
{
    !held.view_change && leads(member, held.view)
}
