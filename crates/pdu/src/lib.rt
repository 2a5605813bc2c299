// Link 16 PDUs (DIS Transmitter and Signal): the types that reading and writing share, the numbers of document 01 that other crates use,
// and the tests of a record's fields. What reading and writing mean stands in specs/; the crates `reader` and `writer` do it.
#![tactic(auto)]

mod refusals;
pub mod rules;

pub use refusals::Refusal;

// Bytes 0 to 19: the PDU types, their family, the versions taken, and the least bytes that hold a type.
pub const TRANSMITTER_TYPE: u8 = 25;

pub const SIGNAL_TYPE: u8 = 26;

pub const RADIO_FAMILY: u8 = 4;

pub const OLDER_VERSION: u8 = 5;

pub const NEWER_VERSION: u8 = 6;

// Version 7 has a status in byte 10 (request R-9), which versions 5 and 6 have not.
pub const STATUS_VERSION: u8 = 7;

pub const SHORTEST: usize = 12;

// A Transmitter: its size, the least its length field may say, and its fields of one allowed value.
pub const TRANSMITTER_SIZE: usize = 112;

pub const TRANSMITTER_LEAST: u16 = 104;

pub const CATEGORY: u8 = 21;

pub const INPUT_SOURCE: u8 = 8;

pub const PATTERN_LENGTH: u16 = 0;

pub const MAJOR: u16 = 7;

pub const DETAIL: u16 = 0;

pub const SYSTEM: u16 = 8;

pub const MODULATION_LENGTH: u8 = 8;

// The variable parameter records of a Transmitter of version 7.
pub const PARAMETER_RECORDS: u16 = 0;

// Bytes 104 to 111.
pub const LAST_LEVEL: u8 = 4;

pub const FIRST_ID_LEVEL: u8 = 3;

pub const FIRST_PRIMARY_MODE: u8 = 1;

pub const LAST_PRIMARY_MODE: u8 = 2;

pub const LAST_SECONDARY_MODE: u8 = 3;

pub const COARSE: u8 = 2;

pub const FINE: u8 = 3;

// A Signal: the least its length field may say, its encoding class above 14 kept bits, its TDL type.
pub const SIGNAL_LEAST: u16 = 32;

pub const ENCODING_CLASS: u16 = 1;

pub const ENCODING_KEPT: u16 = 16384;

pub const TDL_TYPE: u16 = 100;

// The network header: its bytes, and the last value of each field.
pub const NETWORK_BYTES: u16 = 20;

pub const LAST_NPG: u16 = 511;

pub const LAST_NET: u8 = 127;

pub const LAST_SECURITY: u8 = 127;

pub const NO_SECURITY: u8 = 255;

pub const LAST_MESSAGE_TYPE: u8 = 7;

// The slot ID: a slot in its low 17 bits, an epoch in its high 8, 7 bits of padding between them.
pub const SLOTS: u32 = 131072;

pub const SLOT_PADDINGS: u32 = 128;

pub const EPOCH_UNIT: u32 = 16777216;

pub const EPOCHS: u32 = 256;

pub const LAST_SLOT: u32 = 98303;

pub const LAST_EPOCH: u8 = 112;

pub const LAST_SLOT_OF_LAST_EPOCH: u32 = 49151;

// A PDU's size is a multiple of this.
pub const FILL: usize = 4;

// Where a Signal's body starts; a type 0 body's header and words; the most bytes of another body.
pub const BODY_START: usize = 52;

pub const BODY_HEADER: usize = 6;

pub const WORD_BYTES: usize = 10;

pub const MOST_WORDS: usize = 12;

pub const MOST_BYTES: usize = 256;

// Round-trip timing (request R-1): its two message types, and the bytes of their body; the 35 kept bits are 3 of its first two bytes, and the last
// four.
pub const INTERROGATION: u8 = 1;

pub const TIMING_REPLY: u8 = 2;

pub const TIMING_BYTES: usize = 6;

pub const TIMING_LOW: usize = 2;

pub const TIMING_HIGHS: u16 = 8;

pub const TIMING_UNIT: u64 = 4294967296;

// The message types that are retired (request R-4).
pub const FIRST_RETIRED: u8 = 3;

pub const LAST_RETIRED: u8 = 5;

// The last two bytes of a word start here; they hold the format in 2 bits, the label in 5 above it and the sublabel in 3 above that.
pub const WORD_LOW: usize = 8;

pub const FORMATS: u16 = 4;

pub const LABEL_UNIT: u16 = 4;

pub const LABELS: u16 = 32;

pub const SUBLABEL_UNIT: u16 = 128;

pub const SUBLABELS: u16 = 8;

// Fields are the PDU's numbers and no enums: a record to be written may break the rules (9, 131 to 138), and the definitions name these fields.

// Bytes 0 to 19, which both PDUs share; type, family, length and padding are not kept. The status is 0 in versions 5 and 6.
#[derive(Clone, Copy, Debug, PartialEq, Eq)]
pub struct Header {
    pub version: u8,
    pub exercise: u8,
    pub timestamp: u32,
    pub status: u8,
    pub site: u16,
    pub application: u16,
    pub entity: u16,
    pub radio: u16,
}

// Bytes 20 to 31 of a Transmitter: its radio entity type, the category left out, and its transmit state.
#[derive(Clone, Copy, Debug, PartialEq, Eq)]
pub struct Entity {
    pub kind: u8,
    pub domain: u8,
    pub country: u16,
    pub version: u8,
    pub nomenclature: u16,
    pub state: u8,
}

// Bytes 32 to 71: antenna location (three doubles) and relative location (three singles), as bits, and the pattern type.
#[derive(Clone, Copy, Debug, PartialEq, Eq)]
pub struct Antenna {
    pub x: u64,
    pub y: u64,
    pub z: u64,
    pub dx: u32,
    pub dy: u32,
    pub dz: u32,
    pub pattern: u16,
}

// Bytes 72 to 103: frequency, bandwidth and power as bits; spread spectrum; crypto system and key ID.
#[derive(Clone, Copy, Debug, PartialEq, Eq)]
pub struct Emission {
    pub frequency: u64,
    pub bandwidth: u32,
    pub power: u32,
    pub spread: u16,
    pub crypto: u16,
    pub key: u16,
}

// Bytes 104 to 111: TSA level, modes, synchronization state and ID.
#[derive(Clone, Copy, Debug, PartialEq, Eq)]
pub struct Sync {
    pub level: u8,
    pub primary: u8,
    pub secondary: u8,
    pub state: u8,
    pub id: u32,
}

#[derive(Clone, Copy, Debug, PartialEq, Eq)]
pub struct Transmitter {
    pub header: Header,
    pub entity: Entity,
    pub antenna: Antenna,
    pub emission: Emission,
    pub sync: Sync,
}

// The network header of a Signal; the slot ID is two fields, so that no padding bit is in a record.
#[derive(Clone, Copy, Debug, PartialEq, Eq)]
pub struct Network {
    pub npg: u16,
    pub net: u8,
    pub tsec: u8,
    pub msec: u8,
    pub message_type: u8,
    pub slot: u32,
    pub epoch: u8,
    pub time: u64,
}

#[derive(Clone, Copy, Debug, PartialEq, Eq)]
pub struct Signal {
    pub header: Header,
    pub encoding: u16,
    pub rate: u32,
    pub samples: u16,
    pub network: Network,
}

// What reading a datagram answers: its refusal; a Transmitter; or a Signal and its body's size, the body left in the caller's slice.
// An enum of its own, the form that document 01 asks for: "The reader's answer is a refusal number, a Transmitter with its fields, or a Signal". The
// number is the refusal's `number`.
#[derive(Clone, Copy, Debug, PartialEq, Eq)]
pub enum Reading {
    Refused(Refusal),
    Transmitter(Transmitter),
    Signal(Signal, u16),
}

// A word of a type 0 body, where one stands.
#[derive(Clone, Copy, Debug, PartialEq, Eq)]
pub struct Word {
    pub format: u8,
    pub label: u8,
    pub sublabel: u8,
}
