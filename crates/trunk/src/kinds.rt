// The kinds of record: one table of what each carries, and what follows from it.
ghost use Rattle.std.specs.Prelude.{◌≡◌, ◌≤◌};
ghost use Rattle.trunk.specs.Kinds.{load, load_size, carried_size, record_size, longest_record, is_reply_load, kind_for, load_of_type};
ghost use Rattle.trunk.specs.Kinds.{load_of_signal, load_of, kind_of, kind_carried};

use crate::{Load, records};
use pdu::Reading;

const FIRST_WORDS: u8 = 0;

const LAST_WORDS: u8 = FIRST_WORDS + pdu::MOST_WORDS as u8;

const TRANSMITTER_KIND: u8 = 16;

const INTERROGATION_KIND: u8 = 17;

const TIMING_REPLY_KIND: u8 = 18;

pub(crate) const REPLY_KIND: u8 = 32;

// The longest PDU that the trunk carries, and the longest record.
pub(crate) const LONGEST_PDU: usize = 180;

pub const LONGEST_RECORD: usize = records::HEAD_SIZE + LONGEST_PDU;

// What a record of this kind carries, if it is a kind.
#[tactic(auto, unfolding(crate::specs::Kinds::load))]
pub fn load(kind: u8) -> Option<Load>
    ensures { result ≡ load kind }
{
    match kind {
        FIRST_WORDS..=LAST_WORDS => Some(Load::Words(u16::from(kind - FIRST_WORDS))),
        TRANSMITTER_KIND => Some(Load::Transmitter),
        INTERROGATION_KIND => Some(Load::Interrogation),
        TIMING_REPLY_KIND => Some(Load::TimingReply),
        REPLY_KIND => Some(Load::Nothing),
        _ => None,
    }
}

impl Load {
    // How many bytes it takes.
    fn size(self) -> usize
        ensures { result ≡ load_size self }
    {
        match self {
            Load::Words(n) => {
                // Not `signal_size`, whose bytes are a u16: a load may have any number of words.
                let bytes = pdu::BODY_START + pdu::BODY_HEADER + pdu::WORD_BYTES * usize::from(n);
                bytes.next_multiple_of(pdu::FILL)
            }
            Load::Transmitter => pdu::TRANSMITTER_SIZE,
            Load::Interrogation | Load::TimingReply => pdu::rules::signal_size(
                pdu::TIMING_BYTES as u16,
            ),
            Load::Nothing => 0,
        }
    }

    // Its kind.
    fn kind(self) -> u16
        ensures { result ≡ kind_for self }
    {
        match self {
            Load::Words(n) => u16::from(FIRST_WORDS) + n,
            Load::Transmitter => u16::from(TRANSMITTER_KIND),
            Load::Interrogation => u16::from(INTERROGATION_KIND),
            Load::TimingReply => u16::from(TIMING_REPLY_KIND),
            Load::Nothing => u16::from(REPLY_KIND),
        }
    }
}

// How many bytes a record of this kind carries; none where the kind is unknown, as `carried_size` and `record_size` (specs/Kinds) have it: the
// lister reads on by it to the refusal.
fn carried_size(kind: u8) -> usize
    ensures { result ≡ carried_size kind }
{
    load(kind).map_or(0, Load::size)
}

// The length of a record of this kind; the head alone where the kind is unknown.
#[tactic(auto, using(crate::proofs::KindLaws::record_small))]
pub fn record_size(kind: u8) -> usize
    ensures { (result ≡ record_size kind) × (result ≤ longest_record) }
{
    records::HEAD_SIZE + carried_size(kind)
}

// Whether a load is that of a reply.
pub(crate) fn is_reply_load(load: Option<Load>) -> bool
    ensures { result ≡ is_reply_load load }
{
    matches!(load, Some(Load::Nothing))
}

// What carries a message of this type that has no words.
fn load_of_type(message_type: u8) -> Option<Load>
    ensures { result ≡ load_of_type message_type }
{
    match message_type {
        pdu::INTERROGATION => Some(Load::Interrogation),
        pdu::TIMING_REPLY => Some(Load::TimingReply),
        _ => None,
    }
}

// What carries a Signal of this message type with a body of n bytes. Its words are counted in a u16, as the size of a body is: `pdu::rules::words_in`
// counts in a usize, which would be narrowed here, no plainer.
fn load_of_signal(message_type: u8, n: u16) -> Option<Load>
    ensures { result ≡ load_of_signal message_type n }
{
    if message_type != 0 {
        return load_of_type(message_type);
    }
    let words = n.saturating_sub(pdu::BODY_HEADER as u16) / pdu::WORD_BYTES as u16;
    Some(Load::Words(words))
}

// What carries what reading answered; nothing carries a refusal.
fn load_of(answer: Reading) -> Option<Load>
    ensures { result ≡ load_of answer }
{
    match answer {
        Reading::Refused(_) => None,
        Reading::Transmitter(_) => Some(Load::Transmitter),
        Reading::Signal(s, n) => load_of_signal(s.network.message_type, n),
    }
}

// The kind that carries what reading answered. (A byte has room for each kind of the table; a Signal that was not read may have more words.)
pub(crate) fn kind_of(answer: Reading) -> Option<u16>
    ensures { result ≡ kind_of answer }
{
    load_of(answer).map(Load::kind)
}

// The kind of what bytes hold that should be in written form.
pub(crate) fn kind_of_carried(carried: Option<Reading>) -> Option<u16>
    ensures { result ≡ kind_carried carried }
{
    carried.and_then(kind_of)
}
