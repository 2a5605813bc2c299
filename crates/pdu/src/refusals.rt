// The refusals of reading and writing (document 01, "The numbers").
ghost use Rattle.std.specs.Prelude.{◌≡◌};
ghost use Rattle.pdu.specs.Refusals.{number};

// Each with document 01's number.
#[derive(Clone, Copy, Debug, PartialEq, Eq)]
pub enum Refusal {
    // Fewer than 12 bytes.
    Short = 1,
    Version = 2,
    // In writing, a status in a version that has none (request R-9).
    Status = 52,
    // Type or family.
    PduType = 3,
    // The length field is above the slice's length, or too small for its type.
    Length = 4,
    // Category, input source, major, detail or system.
    Radio = 5,
    ModulationLength = 6,
    PatternLength = 7,
    // Variable parameter records in a Transmitter of version 7 (request R-9).
    ParameterRecords = 64,
    // The length field is not 112, or not the filled size.
    PduSize = 8,
    // Bytes 104 to 111 break their rules.
    Modulation = 9,
    // The encoding's class; in writing, its kept part.
    Encoding = 10,
    TdlType = 11,
    DataLength = 12,
    // The fields of the network header (request R-3).
    Npg = 131,
    Net = 132,
    Tsec = 133,
    Msec = 134,
    MessageType = 135,
    // A slot that no epoch has, an epoch that no day has, and a slot that the last epoch does not have.
    Slot = 136,
    Epoch = 137,
    LateSlot = 138,
    // A retired message type (request R-4).
    Retired = 50,
    // The body is not whole words, or has not the size of round-trip timing.
    BodySize = 14,
    // More words, or bytes, than a body may have.
    BodyLimit = 15,
    // A lent output is too short.
    NoRoom = 16,
}

impl Refusal {
    // Document 01's number.
    pub fn number(self) -> u8
        ensures { result ≡ number self }
    {
        self as u8
    }
}
