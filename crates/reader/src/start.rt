// Bytes 0 to 19, which both PDUs share, and the rules that stand there.
ghost use Rattle.std.specs.Prelude.{List, ℕ, ◌≡◌, ◌≤◌, length, true, false, IfOk};
ghost use Rattle.wire.specs.First.{first};
ghost use Rattle.wire.specs.Table.{width, all_blank};
ghost use Rattle.pdu.specs.Refusals.{refused};
ghost use Rattle.pdu.specs.Numbers.{shortest};
ghost use Rattle.pdu.specs.Tables.{header_table};
ghost use Rattle.pdu.specs.Reading.{version_seven, says_transmitter, header_of, wrong_type, wrong_length, start_rules};
ghost use Rattle.reader.specs.Laid.{IsStarted};

use pdu::{Header, Refusal};
use std::marker::Model;

// Whether refusal 3 applies.
#[tactic(auto, unfolding(pdu::specs::Reading::wrong_type))]
fn wrong_type(d: &[u8]) -> bool
    requires { shortest ≤ length d.now }
    ensures { result ≡ wrong_type d.now }
{
    let pdu_type = wire::number_at::<u8>(d, 2);
    let known = matches!(pdu_type, pdu::TRANSMITTER_TYPE | pdu::SIGNAL_TYPE);
    !(known && wire::number_at::<u8>(d, 3) == pdu::RADIO_FAMILY)
}

// A slice that breaks none of 1, 2 and 3, so that it has a header's start. Contracts see its bytes.
#[derive(Drop)]
pub(crate) struct Start<'a> {
    pub(crate) bytes: &'a [u8],
}

impl<'a> Model for Start<'a> {
    ghost Value = { List ℕ };

    ghost view = { λ s. s.bytes.now };

    ghost invariant = { λ s. IsStarted s.bytes.now };
}

impl<'a> Start<'a> {
    // Rules 1, 2 and 3.
    #[tactic(auto, unfolding(pdu::specs::Reading::start_rules))]
    pub(crate) fn check(d: &'a [u8]) -> Result<Start<'a>, Refusal>
        ensures refused { refused result ≡ first (start_rules d.now) }
        ensures started { IfOk result (λ s. s ≡ d.now) }
    {
        if d.len() < pdu::SHORTEST {
            return Err(Refusal::Short);
        }
        if pdu::rules::wrong_version(wire::number_at(d, 0)) {
            return Err(Refusal::Version);
        }
        if wrong_type(d) {
            return Err(Refusal::PduType);
        }
        Ok(Start { bytes: d })
    }

    // Whether byte 2 says Transmitter; else it says Signal.
    pub(crate) fn says_transmitter(&self) -> bool
        ensures { result ≡ says_transmitter self.now }
    {
        wire::number_at::<u8>(self.bytes, 2) == pdu::TRANSMITTER_TYPE
    }

    // Whether refusal 4 applies, for a PDU whose length field is at least `least`: it may end before the slice does.
    #[tactic(auto, unfolding(pdu::specs::Reading::wrong_length))]
    pub(crate) fn wrong_length(&self, least: u16) -> bool
        ensures wrong { result ≡ wrong_length least self.now }
        ensures long { result ≡ false → least ≤ length self.now }
    {
        let field = wire::number_at::<u16>(self.bytes, 8);
        self.bytes.len() < usize::from(field) || field < least
    }
}

// The 20 shared bytes at the start of a slice; contracts see the whole slice.
#[derive(Drop)]
pub(crate) struct HeaderBytes<'a> {
    pub(crate) bytes: &'a [u8],
}

impl<'a> Model for HeaderBytes<'a> {
    ghost Value = { List ℕ };

    ghost view = { λ h. h.bytes.now };

    ghost invariant = { λ h. width (header_table true 0 0) ≤ length h.bytes.now };
}

impl<'a> HeaderBytes<'a> {
    // The status in byte 10, which versions 5 and 6 have not.
    #[tactic(auto, unfolding(pdu::specs::Reading::header_of))]
    fn status(&self) -> u8
        ensures { result ≡ (header_of self.now).status }
    {
        let d = self.bytes;
        if pdu::rules::is_seven(wire::number_at(d, 0)) {
            wire::number_at::<u8>(d, 10)
        } else {
            0
        }
    }

    // Whether the padding is zero: byte 11, and byte 10 where it is no status.
    pub(crate) fn is_blank(&self) -> bool
        ensures { result ≡ all_blank 0 (header_table (version_seven self.now) 0 0) self.now }
    {
        let d = self.bytes;
        if pdu::rules::is_seven(wire::number_at(d, 0)) {
            wire::number_at::<u8>(d, 11) == 0
        } else {
            wire::number_at::<u16>(d, 10) == 0
        }
    }

    // The shared fields.
    #[tactic(auto, unfolding(pdu::specs::Reading::header_of))]
    pub(crate) fn fields(&self) -> Header
        ensures { result ≡ header_of self.now }
    {
        let d = self.bytes;
        Header {
            version: wire::number_at(d, 0),
            exercise: wire::number_at(d, 1),
            timestamp: wire::number_at(d, 4),
            status: self.status(),
            site: wire::number_at(d, 12),
            application: wire::number_at(d, 14),
            entity: wire::number_at(d, 16),
            radio: wire::number_at(d, 18),
        }
    }
}
