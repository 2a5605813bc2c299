// Reading a Transmitter.
ghost use Rattle.std.specs.Prelude.{List, ℕ, ◌≡◌, ◌≤◌, length, IfOk};
ghost use Rattle.wire.specs.First.{first};
ghost use Rattle.wire.specs.Table.{all_blank};
ghost use Rattle.pdu.specs.Refusals.{refused};
ghost use Rattle.pdu.specs.Numbers.{transmitter_least};
ghost use Rattle.pdu.specs.Forms.{table_of};
ghost use Rattle.pdu.specs.Rules.{inner_rules};
ghost use Rattle.pdu.specs.Reading.{transmitter_of, wrong_fixed, wrong_records, transmitter_layout};
ghost use Rattle.pdu.specs.Writing.{written_as};
ghost use Rattle.pdu.specs.declared.Reading.TheVariants.{Transmitter as a_transmitter};
ghost use Rattle.reader.specs.Laid.{IsLaidTransmitter};

use crate::start::{HeaderBytes, Start};
use pdu::{Antenna, Emission, Entity, Refusal, Sync, Transmitter};
use std::marker::Model;

// Bytes 90 to 93 as one number: one test in place of two.
const MAJOR_AND_DETAIL: u32 = pdu::MAJOR as u32 * 65536 + pdu::DETAIL as u32;

// Whether refusal 5 applies.
#[tactic(auto, unfolding(pdu::specs::Reading::wrong_fixed))]
fn wrong_fixed(d: &[u8]) -> bool
    requires { transmitter_least ≤ length d.now }
    ensures { result ≡ wrong_fixed d.now }
{
    let entity = wire::number_at::<u8>(d, 24) == pdu::CATEGORY
        && wire::number_at::<u8>(d, 29) == pdu::INPUT_SOURCE;
    let modulation = wire::number_at::<u32>(d, 90) == MAJOR_AND_DETAIL
        && wire::number_at::<u16>(d, 94) == pdu::SYSTEM;
    !(entity && modulation)
}

// Whether refusal 64 applies.
#[tactic(auto, unfolding(pdu::specs::Reading::wrong_records))]
fn wrong_records(d: &[u8]) -> bool
    requires { transmitter_least ≤ length d.now }
    ensures { result ≡ wrong_records d.now }
{
    pdu::rules::is_seven(wire::number_at(d, 0))
        && wire::number_at::<u16>(d, 30) != pdu::PARAMETER_RECORDS
}

// A Transmitter whose layout is right, so that its fields lie in the slice. Contracts see its bytes.
#[derive(Drop)]
pub(crate) struct LaidTransmitter<'a> {
    pub(crate) bytes: &'a [u8],
}

impl<'a> Model for LaidTransmitter<'a> {
    ghost Value = { List ℕ };

    ghost view = { λ t. t.bytes.now };

    ghost invariant = { λ t. IsLaidTransmitter t.bytes.now };
}

impl<'a> LaidTransmitter<'a> {
    // Rules 4 to 7, 64 and 8.
    #[tactic(auto, unfolding(pdu::specs::Reading::transmitter_layout))]
    pub(crate) fn check(start: &Start<'a>) -> Result<LaidTransmitter<'a>, Refusal>
        ensures refused { refused result ≡ first (transmitter_layout start.now) }
        ensures laid { IfOk result (λ t. t ≡ start.now) }
    {
        let d = start.bytes;
        if start.wrong_length(pdu::TRANSMITTER_LEAST) {
            return Err(Refusal::Length);
        }
        if wrong_fixed(d) {
            return Err(Refusal::Radio);
        }
        if wire::number_at::<u8>(d, 100) != pdu::MODULATION_LENGTH {
            return Err(Refusal::ModulationLength);
        }
        if wire::number_at::<u16>(d, 70) != pdu::PATTERN_LENGTH {
            return Err(Refusal::PatternLength);
        }
        if wrong_records(d) {
            return Err(Refusal::ParameterRecords);
        }
        if wire::number_at::<u16>(d, 8) != pdu::TRANSMITTER_SIZE as u16 {
            return Err(Refusal::PduSize);
        }
        Ok(LaidTransmitter { bytes: d })
    }

    // It stands again in signal.rt, each of its own type.
    fn header(&self) -> HeaderBytes<'a>
        ensures { result ≡ self.now }
    {
        HeaderBytes { bytes: self.bytes }
    }

    #[tactic(auto, unfolding(pdu::specs::Reading::transmitter_of))]
    fn entity(&self) -> Entity
        ensures { result ≡ (transmitter_of self.now).entity }
    {
        let d = self.bytes;
        Entity {
            kind: wire::number_at(d, 20),
            domain: wire::number_at(d, 21),
            country: wire::number_at(d, 22),
            version: wire::number_at(d, 25),
            nomenclature: wire::number_at(d, 26),
            state: wire::number_at(d, 28),
        }
    }

    #[tactic(auto, unfolding(pdu::specs::Reading::transmitter_of))]
    fn antenna(&self) -> Antenna
        ensures { result ≡ (transmitter_of self.now).antenna }
    {
        let d = self.bytes;
        Antenna {
            x: wire::number_at(d, 32),
            y: wire::number_at(d, 40),
            z: wire::number_at(d, 48),
            dx: wire::number_at(d, 56),
            dy: wire::number_at(d, 60),
            dz: wire::number_at(d, 64),
            pattern: wire::number_at(d, 68),
        }
    }

    #[tactic(auto, unfolding(pdu::specs::Reading::transmitter_of))]
    fn emission(&self) -> Emission
        ensures { result ≡ (transmitter_of self.now).emission }
    {
        let d = self.bytes;
        Emission {
            frequency: wire::number_at(d, 72),
            bandwidth: wire::number_at(d, 80),
            power: wire::number_at(d, 84),
            spread: wire::number_at(d, 88),
            crypto: wire::number_at(d, 96),
            key: wire::number_at(d, 98),
        }
    }

    #[tactic(auto, unfolding(pdu::specs::Reading::transmitter_of))]
    fn sync(&self) -> Sync
        ensures { result ≡ (transmitter_of self.now).sync }
    {
        let d = self.bytes;
        Sync {
            level: wire::number_at(d, 104),
            primary: wire::number_at(d, 105),
            secondary: wire::number_at(d, 106),
            state: wire::number_at(d, 107),
            id: wire::number_at(d, 108),
        }
    }

    // The fields of a Transmitter.
    #[tactic(auto, unfolding(pdu::specs::Reading::header_of, pdu::specs::Reading::transmitter_of))]
    pub(crate) fn fields(&self) -> Transmitter
        ensures { result ≡ transmitter_of self.now }
    {
        Transmitter {
            header: self.header().fields(),
            entity: self.entity(),
            antenna: self.antenna(),
            emission: self.emission(),
            sync: self.sync(),
        }
    }

    // Rule 9, the one behind the layout.
    #[tactic(auto, unfolding(pdu::specs::Rules::inner_rules))]
    pub(crate) fn check_inner(&self) -> Result<(), Refusal>
        ensures { refused result ≡ first (inner_rules (a_transmitter (transmitter_of self.now))) }
    {
        self.sync().check()
    }

    // Whether every padding byte is zero. Bytes 30 and 31 are so in version 7, where they are no padding.
    fn is_blank(&self) -> bool
        ensures { result ≡ all_blank 0 (table_of (a_transmitter (transmitter_of self.now))) self.now }
    {
        let d = self.bytes;
        self.header().is_blank()
            & (wire::number_at::<u16>(d, 30) == 0)
            & wire::is_zero(&d[101..104])
    }

    // Whether 9 is not broken, nothing stands behind the PDU, and every padding byte is zero.
    #[tactic(auto, using(crate::proofs::Checks::transmitter_written, crate::proofs::Checks::refused_none))]
    pub(crate) fn is_written(&self) -> bool
        ensures { result ≡ written_as (a_transmitter (transmitter_of self.now)) self.now }
    {
        self.check_inner().is_ok() && self.bytes.len() == pdu::TRANSMITTER_SIZE && self.is_blank()
    }
}
