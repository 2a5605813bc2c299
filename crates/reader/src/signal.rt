// Reading a Signal.
ghost use Rattle.std.specs.Prelude.{List, ℕ, ◌≡◌, ◌+◌, ◌≤◌, length, take, drop, IfOk};
ghost use Rattle.wire.specs.First.{first};
ghost use Rattle.wire.specs.Table.{all_blank};
ghost use Rattle.pdu.specs.Refusals.{refused};
ghost use Rattle.pdu.specs.Numbers.{body_start};
ghost use Rattle.pdu.specs.Tables.{signal_size, network_table};
ghost use Rattle.pdu.specs.Forms.{table_of};
ghost use Rattle.pdu.specs.Rules.{body_rules, inner_rules};
ghost use Rattle.pdu.specs.Reading.{signal_of, body_size, wrong_bits, signal_layout};
ghost use Rattle.pdu.specs.Writing.{body_blank, written_as};
ghost use Rattle.pdu.specs.declared.Reading.TheVariants.{Signal as a_signal};
ghost use Rattle.reader.specs.Laid.{IsLaidSignal};

use crate::start::{HeaderBytes, Start};
use crate::words;
use pdu::{Network, Refusal, Signal};
use std::marker::Model;

// Whether refusal 12 applies to a data length in bits.
#[tactic(auto, unfolding(pdu::specs::Reading::wrong_bits))]
fn wrong_bits(bits: u16) -> bool
    ensures { result ≡ wrong_bits bits }
{
    bits % 8 != 0 || bits < 8 * pdu::NETWORK_BYTES
}

// A Signal whose layout is right, so that its fields, its body and its fill lie in the slice. Contracts see its bytes.
#[derive(Drop)]
pub(crate) struct LaidSignal<'a> {
    pub(crate) bytes: &'a [u8],
}

impl<'a> Model for LaidSignal<'a> {
    ghost Value = { List ℕ };

    ghost view = { λ s. s.bytes.now };

    ghost invariant = { λ s. IsLaidSignal s.bytes.now };
}

impl<'a> LaidSignal<'a> {
    // Rules 4, 10, 11, 12 and 8.
    #[tactic(auto, unfolding(pdu::specs::Reading::signal_layout))]
    pub(crate) fn check(start: &Start<'a>) -> Result<LaidSignal<'a>, Refusal>
        ensures refused { refused result ≡ first (signal_layout start.now) }
        ensures laid { IfOk result (λ s. s ≡ start.now) }
    {
        let d = start.bytes;
        if start.wrong_length(pdu::SIGNAL_LEAST) {
            return Err(Refusal::Length);
        }
        if wire::number_at::<u16>(d, 20) / pdu::ENCODING_KEPT != pdu::ENCODING_CLASS {
            return Err(Refusal::Encoding);
        }
        if wire::number_at::<u16>(d, 22) != pdu::TDL_TYPE {
            return Err(Refusal::TdlType);
        }
        let bits = wire::number_at::<u16>(d, 28);
        if wrong_bits(bits) {
            return Err(Refusal::DataLength);
        }
        if usize::from(wire::number_at::<u16>(d, 8))
            != pdu::rules::filled_size(pdu::SIGNAL_LEAST, bits / 8)
        {
            return Err(Refusal::PduSize);
        }
        Ok(LaidSignal { bytes: d })
    }

    // It stands again in transmitter.rt, each of its own type: a trait for one line, with its law, would be no plainer.
    fn header(&self) -> HeaderBytes<'a>
        ensures { result ≡ self.now }
    {
        HeaderBytes { bytes: self.bytes }
    }

    #[tactic(auto, unfolding(pdu::specs::Reading::signal_of))]
    fn network(&self) -> Network
        ensures { result ≡ (signal_of self.now).network }
    {
        let d = self.bytes;
        let slot_id = wire::number_at::<u32>(d, 40);
        Network {
            npg: wire::number_at(d, 32),
            net: wire::number_at(d, 34),
            tsec: wire::number_at(d, 35),
            msec: wire::number_at(d, 36),
            message_type: wire::number_at(d, 37),
            slot: slot_id % pdu::SLOTS,
            epoch: (slot_id / pdu::EPOCH_UNIT % pdu::EPOCHS) as u8,
            time: wire::number_at(d, 44),
        }
    }

    #[tactic(auto, unfolding(pdu::specs::Reading::signal_of))]
    fn message_type(&self) -> u8
        ensures { result ≡ (signal_of self.now).network.message_type }
    {
        wire::number_at(self.bytes, 37)
    }

    pub(crate) fn body_size(&self) -> u16
        ensures size { result ≡ body_size self.now }
        ensures inside { body_start + result ≤ length self.now }
    {
        wire::number_at::<u16>(self.bytes, 28) / 8 - pdu::NETWORK_BYTES
    }

    // Where the body ends.
    fn body_end(&self) -> usize
        ensures end { result ≡ body_start + body_size self.now }
        ensures inside { result ≤ length self.now }
    {
        pdu::BODY_START + usize::from(self.body_size())
    }

    // The part of the slice that starts at byte 52.
    fn body(&self) -> &'a [u8]
        ensures bytes { result.now ≡ take (body_size self.now) (drop body_start self.now) }
        ensures size { length result.now ≡ body_size self.now }
    {
        &self.bytes[pdu::BODY_START..self.body_end()]
    }

    // What stands behind the body: the fill, and what the slice has behind the PDU.
    fn behind_body(&self) -> &'a [u8]
        ensures { result.now ≡ drop (body_start + body_size self.now) self.now }
    {
        &self.bytes[self.body_end()..]
    }

    // The fields of a Signal.
    #[tactic(auto, unfolding(pdu::specs::Reading::header_of, pdu::specs::Reading::signal_of))]
    pub(crate) fn fields(&self) -> Signal
        ensures { result ≡ signal_of self.now }
    {
        let d = self.bytes;
        Signal {
            header: self.header().fields(),
            encoding: wire::number_at::<u16>(d, 20) % pdu::ENCODING_KEPT,
            rate: wire::number_at(d, 24),
            samples: wire::number_at(d, 30),
            network: self.network(),
        }
    }

    // Rules 14 and 15, of the body.
    pub(crate) fn check_body(&self) -> Result<(), Refusal>
        ensures { refused result ≡ first (body_rules (signal_of self.now).network.message_type (body_size self.now)) }
    {
        words::check(self.message_type(), self.body())
    }

    // Rules 131 to 138 and 50, of the network header, and those of the body.
    #[tactic(auto, using(pdu::proofs::RefusalLaws::inner_then))]
    pub(crate) fn check_inner(&self) -> Result<(), Refusal>
        ensures { refused result ≡ first (inner_rules (a_signal (signal_of self.now) (body_size self.now))) }
    {
        self.network().check()?;
        self.check_body()
    }

    // Whether the padding bits of the slot ID are zero.
    fn is_slot_blank(&self) -> bool
        ensures { result ≡ all_blank 32 network_table self.now }
    {
        let d = self.bytes;
        wire::number_at::<u16>(d, 38) == 0
            && wire::number_at::<u32>(d, 40) / pdu::SLOTS % pdu::SLOT_PADDINGS == 0
    }

    // Whether the padding inside the body is zero: round-trip timing alone has any.
    fn is_body_blank(&self) -> bool
        requires { first (inner_rules (a_signal (signal_of self.now) (body_size self.now))) ≡ 0 }
        ensures { result ≡ body_blank self.now }
    {
        !pdu::rules::is_timing(self.message_type())
            || wire::number_at::<u16>(self.bytes, pdu::BODY_START) / pdu::TIMING_HIGHS == 0
    }

    // Whether every padding bit of a Signal that breaks no rule and is the whole slice, and its fill, is zero. Tests joined by `&` are one value,
    // with no branch, for the compiler as for the proof.
    fn is_blank(&self) -> bool
        requires unbroken { first (inner_rules (a_signal (signal_of self.now) (body_size self.now))) ≡ 0 }
        requires alone { length self.now ≡ signal_size (body_size self.now) }
        ensures { result ≡ all_blank 0 (table_of (a_signal (signal_of self.now) (body_size self.now))) self.now }
    {
        self.header().is_blank()
            & self.is_slot_blank()
            & self.is_body_blank()
            & wire::is_zero(self.behind_body())
    }

    // Whether no rule behind the layout is broken, nothing stands behind the PDU, and every padding bit and the fill is zero.
    #[tactic(auto, using(crate::proofs::Checks::signal_written, crate::proofs::Checks::refused_none))]
    pub(crate) fn is_written(&self) -> bool
        ensures { result ≡ written_as (a_signal (signal_of self.now) (body_size self.now)) self.now }
    {
        self.check_inner().is_ok()
            && self.bytes.len() == pdu::rules::signal_size(self.body_size())
            && self.is_blank()
    }
}
