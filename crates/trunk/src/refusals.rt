// The trunk's refusals (document 01, "The numbers").
ghost use Rattle.std.specs.Prelude.{◌≡◌};
ghost use Rattle.trunk.specs.Refusals.{number, Pdu};

#[derive(Clone, Copy, Debug, PartialEq, Eq)]
pub enum Refusal {
    // What the reader refuses; and no room, in the writer's words.
    Pdu(pdu::Refusal),
    // No known kind.
    RecordKind,
    // The record is empty, or not of its kind's length.
    RecordLength,
    // The carried bytes are not a written PDU of that kind.
    RecordPdu,
    // A Signal of a message type that no record carries: 6 and 7 are left for it.
    NotCarried,
    // With these PDUs more than eight would be unacknowledged.
    WindowFull,
    // The numbers left do not suffice, or a PDU record has the number that none gets.
    RecordNumber,
    NotHeld,
    // A reply above the accepted count.
    AboveAccepted,
    StoreSize,
    // A reply where a PDU belongs, or the reverse.
    WrongDirection,
    // More than eight PDUs in one datagram (request R-5).
    ManyPdus,
}

impl Refusal {
    // Document 01's number.
    pub fn number(self) -> u8
        ensures { result ≡ number self }
    {
        match self {
            Refusal::Pdu(refusal) => refusal.number(),
            Refusal::RecordKind => 20,
            Refusal::RecordLength => 21,
            Refusal::RecordPdu => 22,
            Refusal::NotCarried => 23,
            Refusal::WindowFull => 24,
            Refusal::RecordNumber => 25,
            Refusal::NotHeld => 26,
            Refusal::AboveAccepted => 27,
            Refusal::StoreSize => 28,
            Refusal::WrongDirection => 29,
            Refusal::ManyPdus => 51,
        }
    }
}

impl From<pdu::Refusal> for Refusal {
    ghost from_gives = { λ p e. e ≡ Pdu p };

    fn from(read: pdu::Refusal) -> Refusal {
        Refusal::Pdu(read)
    }
}
