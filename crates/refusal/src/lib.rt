// The grounds on which calls are refused. They are numbered together, so that a number means one thing wherever it is returned.
#![tactic(auto)]

ghost use Rattle.std.specs.Prelude.{◌≡◌};
ghost use Rattle.refusal.specs.Numbers.{number};

// Group: N, or the own number. Sizes: n, m or p. Area: one that is lent. LastPeriod and LastView: none is left. Mark: a reading at or above m. Frame, Record:
// the bytes are none. Sender, Place and Base: of a frame. PageArea and Page: of the shift page. Missed: too many periods. Ticket: not to be committed.
#[derive(Clone, Copy, Debug, PartialEq, Eq)]
pub enum Refusal {
    Group,
    Sizes,
    Coefficient,
    Limits,
    Area,
    LastPeriod,
    Mark,
    Frame,
    Sender,
    Place,
    Base,
    LastView,
    PageArea,
    Page,
    Record,
    Missed,
    Ticket,
    Quorums,
}

impl From<Refusal> for u8 {
    ghost from_gives = { λ refusal result. result ≡ number refusal };

    fn from(refusal: Refusal) -> u8 {
        match refusal {
            Refusal::Group => 1,
            Refusal::Sizes => 2,
            Refusal::Coefficient => 3,
            Refusal::Limits => 4,
            Refusal::Area => 5,
            Refusal::LastPeriod => 6,
            Refusal::Mark => 7,
            Refusal::Frame => 8,
            Refusal::Sender => 9,
            Refusal::Place => 10,
            Refusal::Base => 11,
            Refusal::LastView => 12,
            Refusal::PageArea => 13,
            Refusal::Page => 14,
            Refusal::Record => 15,
            Refusal::Missed => 16,
            Refusal::Ticket => 17,
            Refusal::Quorums => 18,
        }
    }
}
