// What the station's calls answer, with document 01's number of each ("The numbers" and "The station").
ghost use Rattle.std.specs.Prelude.{◌≡◌};
ghost use Rattle.station.specs.Answers.{number, made_number};

use pdu::Refusal;

// What a call on a station answers.
#[derive(Clone, Copy, Debug, PartialEq, Eq)]
pub enum Answer {
    // Refused: nothing changes. The first is the reader's refusal.
    Unread(Refusal),
    NoRoom,
    UnknownKey,
    OtherNet,
    OtherId,
    NotFine,
    NotIn,
    ClockBack,
    // Taken.
    Entered,
    Renewed,
    Joined,
    Positioned,
    Passed,
    TimePassed,
    Counted,
}

impl Answer {
    // Document 01's number of the answer.
    pub fn number(self) -> u8
        ensures { result ≡ number self }
    {
        match self {
            Answer::Unread(refusal) => refusal.number(),
            Answer::NoRoom => 30,
            Answer::UnknownKey => 31,
            Answer::OtherNet => 32,
            Answer::OtherId => 33,
            Answer::NotFine => 34,
            Answer::NotIn => 35,
            Answer::ClockBack => 36,
            Answer::Entered => 40,
            Answer::Renewed => 41,
            Answer::Joined => 42,
            Answer::Positioned => 43,
            Answer::Passed => 44,
            Answer::TimePassed => 46,
            Answer::Counted => 47,
        }
    }
}

// A maker's refusal of settings out of range.
#[derive(Clone, Copy, Debug, PartialEq, Eq)]
pub struct BadSettings;

impl BadSettings {
    // Document 01's number of the refusal.
    pub fn number(self) -> u8
        ensures { result ≡ 37 }
    {
        37
    }
}

// Document 01's number of what a maker answers: 0, or that of its refusal. The maker's rules speak of this number (`made_by_rules`).
pub fn made_number(answer: Result<(), BadSettings>) -> u8
    ensures { result ≡ made_number answer }
{
    match answer {
        Ok(()) => 0,
        Err(refusal) => refusal.number(),
    }
}
