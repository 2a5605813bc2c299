// Carries PDUs over a line that loses, repeats and reorders: records, the near end and the far end (document 01, "The trunk").
// Only the promises of reading, writing and the station's step are used from below.
#![tactic(auto)]

use station::{Answer, BadSettings, Station};

pub mod far_end;
pub mod kinds;
pub mod near_end;
pub mod records;
mod refusals;

pub use refusals::Refusal;

// What a record carries behind its head: a type 0 Signal of so many words, a Transmitter, round-trip timing (request R-1), or nothing.
#[derive(Clone, Copy, Debug, PartialEq, Eq)]
pub enum Load {
    Words(u16),
    Transmitter,
    Interrogation,
    TimingReply,
    Nothing,
}

// A record's head.
#[derive(Clone, Copy)]
struct Head {
    kind: u8,
    number: u32,
}

// The near end: how many PDUs were accepted, and how many the far end has acknowledged. Only calls make one.
#[derive(Clone, Copy)]
pub struct Near {
    accepted: u32,
    acknowledged: u32,
}

// The near end after an offer, and its answer: the number that its first PDU took. This and five more below are an end beside an answer: a
// generic pair under them would be no plainer, since `offered`, `sent`, `replied`, `made_far`, `arrived` and `ticked` name these types.
#[derive(Clone, Copy)]
pub struct Offered {
    pub near: Near,
    pub answer: Result<u32, Refusal>,
}

// The near end after a send, which leaves it as it was, and its answer: the bytes written.
#[derive(Clone, Copy)]
pub struct Sending {
    pub near: Near,
    pub answer: Result<usize, Refusal>,
}

// The near end after a reply, and its answer: the acknowledged count after it.
#[derive(Clone, Copy)]
pub struct Replied {
    pub near: Near,
    pub answer: Result<u32, Refusal>,
}

// The far end: how many PDUs were delivered, and the station that hears them. Only calls make one.
#[derive(Clone, Copy)]
pub struct Far {
    count: u32,
    station: Station,
}

// What a maker of far ends answers: 37 comes with a station of level 0, net 0, 1 exchange and the usual limit.
#[derive(Clone, Copy)]
pub struct MadeFar {
    pub far: Far,
    pub answer: Result<(), BadSettings>,
}

// What becomes of a record that is not refused: delivered, with the PDU's size and the station's answer; a repeat; or early.
#[derive(Clone, Copy, Debug, PartialEq, Eq)]
pub enum Arrival {
    Delivered { size: usize, answer: Answer },
    Repeat,
    Early,
}

// The far end after an arrival, and its answer.
#[derive(Clone, Copy)]
pub struct Arrived {
    pub far: Far,
    pub answer: Result<Arrival, Refusal>,
}

// The far end after a clock, and its station's answer.
#[derive(Clone, Copy)]
pub struct Ticked {
    pub far: Far,
    pub answer: Answer,
}

// A record that a check took: a reply or a PDU record, with its number and the record's size. The kind stays a number: `taken` and `checked_says`
// (specs/Record) name it.
#[derive(Clone, Copy, Debug, PartialEq, Eq)]
pub enum Checked {
    Reply { number: u32, size: u16 },
    Pdu { kind: u8, number: u32, size: u16 },
}
