// Frames that arrive: what is refused by 8 to 11, what is ignored, and the rules of the four kinds.
ghost use Rattle.std.specs.Prelude.{◌≡◌, true, [], ◌≤◌, ◌<◌, length};
ghost use Rattle.law.specs.declared.Settings as Law;
ghost use Rattle.frame.specs.Lengths.{longest_frame};
ghost use Rattle.scram.specs.Events as Events;
ghost use Rattle.replica.specs.Settings.{Fit, law_of, group_of};
ghost use Rattle.replica.specs.Held.{best_in, held_in};
ghost use Rattle.replica.specs.Frames.{kind_of, message_of, found};
ghost use Rattle.replica.specs.Rules.{Says, quorum_heard, decided};

use crate::moves::{adopting, better, entered, hearing, with_box};
use crate::output::send;
use crate::refusals::{ignored, refused_rule};
use crate::rules::propose;
use crate::{Best, Held, Member, Moved};
use frame::Frame;
use refusal::Refusal;
use scram::{Answer, Kind};

// The kind of a frame that was read. No TryFrom: reading gives no number but those of the four kinds, and an Err would have no ground.
#[tactic(auto, unfolding(crate::specs::Frames::kind_of, lists::specs::Choice::pick))]
fn kind_of(number: u8) -> Kind
    ensures { result ≡ kind_of number }
{
    match number {
        frame::kinds::PROPOSE => Kind::Propose,
        frame::kinds::ACK => Kind::Ack,
        frame::kinds::DECIDE => Kind::Decide,
        _ => Kind::Estimate,
    }
}

// A Propose: its view and estimate are adopted, and an Ack goes back.
fn receive_propose(member: Member, held: Held, f: Frame, frame: &mut [u8]) -> Moved
    requires { Fit member × (longest_frame ≤ length frame.old) }
    ensures { (law : Law.Settings) → Says law member (Events.receive (law_of law) (group_of member) member.own Kind.Propose (held_in held) (message_of f))
        result frame.old frame.new }
{
    let next = adopting(held, f.view, f.estimate, held.decided);
    let ack = Frame {
        kind: frame::kinds::ACK,
        sender: member.own,
        period: held.period,
        view: f.view,
        base_view: 0,
        base_period: 0,
        estimate: estimate::no_estimate(),
    };
    let length = send(member.n, member.m, ack, frame);
    Moved {
        answer: Answer::Done,
        held: next,
        frame: length,
        issues: false,
    }
}

// The boxes needed to decide have acknowledged: Decide to all others, and the command.
fn decide(member: Member, held: Held, box_number: u8, frame: &mut [u8]) -> Moved
    requires { Fit member × (longest_frame ≤ length frame.old) × (box_number < 10) }
    ensures { (law : Law.Settings) → Says law member (decided law member (held_in held) box_number) result frame.old frame.new }
{
    let next = hearing(held, box_number, held.best, true);
    let decision = Frame {
        kind: frame::kinds::DECIDE,
        sender: member.own,
        period: held.period,
        view: held.view,
        base_view: held.view,
        base_period: held.period,
        estimate: held.estimate,
    };
    let length = send(member.n, member.m, decision, frame);
    Moved {
        answer: Answer::Done,
        held: next,
        frame: length,
        issues: true,
    }
}

// Whether the boxes heard, with one more, are as many as a quorum number asks for.
fn quorum_heard(quorum: u8, boxes: u8, heard: [bool; 10], box_number: u8) -> bool
    requires { box_number < 10 }
    ensures { result ≡ quorum_heard quorum boxes heard box_number }
{
    quorum <= scram::quorum::count_heard(with_box(heard, box_number), boxes)
}

// An Ack: at the boxes needed to decide the box decides.
fn hear_ack(member: Member, held: Held, box_number: u8, frame: &mut [u8]) -> Moved
    requires { Fit member × (longest_frame ≤ length frame.old) × (box_number < 10) }
    ensures { (law : Law.Settings) → Says law member (Events.hear_ack (law_of law) (group_of member) member.own (held_in held) box_number)
        result frame.old frame.new }
{
    if quorum_heard(
        member.quorums.to_decide,
        member.boxes,
        held.heard,
        box_number,
    ) {
        return decide(member, held, box_number, frame);
    }
    let next = hearing(held, box_number, held.best, held.decided);
    Moved {
        answer: Answer::Done,
        held: next,
        frame: 0,
        issues: false,
    }
}

// A Decide: adopted like a Propose; the box decides and issues the command.
fn receive_decide(held: Held, f: Frame) -> Moved
    ensures { (law : Law.Settings) (member : Member) → Says law member (Events.receive (law_of law) (group_of member) member.own Kind.Decide (held_in held) (message_of f)) result [] [] }
{
    let next = adopting(held, f.view, f.estimate, true);
    Moved {
        answer: Answer::Done,
        held: next,
        frame: 0,
        issues: true,
    }
}

// An estimate heard: at the boxes needed to propose the best is taken whole and proposed.
fn hear_estimate(member: Member, held: Held, given: Best, frame: &mut [u8]) -> Moved
    requires { Fit member × (longest_frame ≤ length frame.old) × (given.box_number < 10) }
    ensures { (law : Law.Settings) → Says law member (Events.hear_estimate (law_of law) (group_of member) member.own (held_in held) (best_in given))
        result frame.old frame.new }
{
    let best = better(held.best, given);
    let box_number = given.box_number;
    if quorum_heard(
        member.quorums.to_propose,
        member.boxes,
        held.heard,
        box_number,
    ) {
        return propose(member, held, best.estimate, frame);
    }
    let next = hearing(held, box_number, best, held.decided);
    Moved {
        answer: Answer::Done,
        held: next,
        frame: 0,
        issues: false,
    }
}

// An Estimate: at a higher view the box first enters it.
fn receive_estimate(member: Member, held: Held, f: Frame, frame: &mut [u8]) -> Moved
    requires { Fit member × (longest_frame ≤ length frame.old) × (f.sender < 10) }
    ensures { (law : Law.Settings) → Says law member (Events.receive (law_of law) (group_of member) member.own Kind.Estimate (held_in held) (message_of f))
        result frame.old frame.new }
{
    let given = Best {
        any: true,
        box_number: f.sender,
        base_view: f.base_view,
        base_period: f.base_period,
        estimate: f.estimate,
    };
    if held.view < f.view {
        return hear_estimate(member, entered(member.own, held, f.view), given, frame);
    }
    hear_estimate(member, held, given, frame)
}

// A frame that is neither refused nor ignored.
fn receive(member: Member, held: Held, kind: Kind, f: Frame, frame: &mut [u8]) -> Moved
    requires { Fit member × (longest_frame ≤ length frame.old) × (f.sender < 10) }
    ensures { (law : Law.Settings) → Says law member (Events.receive (law_of law) (group_of member) member.own kind (held_in held) (message_of f))
        result frame.old frame.new }
{
    match kind {
        Kind::Propose => receive_propose(member, held, f, frame),
        Kind::Ack => hear_ack(member, held, f.sender, frame),
        Kind::Decide => receive_decide(held, f),
        Kind::Estimate => receive_estimate(member, held, f, frame),
    }
}

// Whether a frame is ignored.
fn ignores(held: Held, kind: Kind, f: Frame) -> bool
    requires { (f.sender < 10) × (kind ≡ kind_of f.kind) }
    ensures { result ≡ Events.ignores (held_in held) (message_of f) }
{
    let heard = held.heard[f.sender as usize];
    scram::ignored::idle(held.period, held.decided)
        || scram::ignored::stale(held.period, held.view, f.period, f.view)
        || scram::ignored::unwanted(kind, held.view, held.view_change, heard, f.view)
}

// A frame that was read: 9 to 11, then the grounds for ignoring, then its rule. The tests of 9 to 11 stand side by side before the first is acted on, so that
// an edit can exchange two of them and nothing else.
fn arrive_frame(member: Member, held: Held, f: Frame, frame: &mut [u8]) -> Moved
    requires { Fit member × (longest_frame ≤ length frame.old) }
    ensures { (law : Law.Settings) → Says law member (Events.arrive (law_of law) (group_of member) member.own (held_in held) (message_of f))
        result frame.old frame.new }
{
    let kind = kind_of(f.kind);
    let coordinator = scram::quorum::coordinator(member.boxes, f.view);
    let sender = scram::refusals::bad_sender(member.boxes, member.own, f.sender);
    let place = scram::refusals::bad_place(kind, coordinator, member.own, f.sender);
    let base = scram::refusals::bad_base(kind, f.period, f.view, f.base_view, f.base_period);
    if sender {
        return refused_rule(held, Refusal::Sender);
    }
    if place {
        return refused_rule(held, Refusal::Place);
    }
    if base {
        return refused_rule(held, Refusal::Base);
    }
    if ignores(held, kind, f) {
        return ignored(held);
    }
    receive(member, held, kind, f, frame)
}

// Bytes that arrive: 8 where they are no frame.
pub(crate) fn arrive_bytes(member: Member, held: Held, bytes: &[u8], frame: &mut [u8]) -> Moved
    requires { Fit member × (longest_frame ≤ length frame.old) }
    ensures { (law : Law.Settings) → Says law member (Events.arrival (law_of law) (group_of member) member.own (held_in held)
        (found member.n member.m bytes.now)) result frame.old frame.new }
{
    match frame::read(member.n, member.m, bytes) {
        Ok(f) => arrive_frame(member, held, f, frame),
        Err(_) => refused_rule(held, Refusal::Frame),
    }
}
