// The body of a Signal: its rules, and the words of a type 0 body.
ghost use Rattle.std.specs.Prelude.{◌≡◌, length};
ghost use Rattle.wire.specs.First.{first};
ghost use Rattle.pdu.specs.Refusals.{refused};
ghost use Rattle.pdu.specs.Words.{words_in, word_at, word_says};
ghost use Rattle.pdu.specs.Fields.{plain_word};
ghost use Rattle.pdu.specs.Rules.{body_rules};

use pdu::{Refusal, Word};

// The rules of a body, which ask its length alone. It takes the slice: document 01 asks for the part that starts at byte 52 (docs/DESIGN.md).
pub(crate) fn check(message_type: u8, body: &[u8]) -> Result<(), Refusal>
    ensures { refused result ≡ first (body_rules message_type (length body.now)) }
{
    pdu::rules::check_body(message_type, body.len())
}

// How many whole words a type 0 body has behind its header.
pub fn count(body: &[u8]) -> usize
    ensures { result ≡ words_in (length body.now) }
{
    pdu::rules::words_in(body.len())
}

// The format, label and sublabel of word i, or nothing where the body has no word i.
#[tactic(auto, unfolding(pdu::specs::Words::word_at))]
pub fn at(body: &[u8], i: usize) -> Option<Word>
    ensures answer { result ≡ word_at body.now i }
    ensures says { word_says result ≡ plain_word body.now i }
{
    if i < count(body) {
        let low = wire::number_at::<u16>(
            body,
            pdu::BODY_HEADER + pdu::WORD_BYTES * i + pdu::WORD_LOW,
        );
        Some(Word {
            format: (low % pdu::FORMATS) as u8,
            label: (low / pdu::LABEL_UNIT % pdu::LABELS) as u8,
            sublabel: (low / pdu::SUBLABEL_UNIT % pdu::SUBLABELS) as u8,
        })
    } else {
        None
    }
}
