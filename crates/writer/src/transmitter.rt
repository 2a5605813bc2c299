// Writing a Transmitter: straight into the lent output, each function the bytes of a struct.
ghost use Rattle.std.specs.Prelude.{◌≡◌, true, [], ◌≤◌, length};
ghost use Rattle.wire.specs.Bytes.{splice};
ghost use Rattle.wire.specs.Table.{fill};
ghost use Rattle.pdu.specs.Numbers.{transmitter_size};
ghost use Rattle.pdu.specs.Tables.{entity_table, antenna_table, emission_table, sync_table};
ghost use Rattle.pdu.specs.Records.{entity_values, antenna_values, emission_values, sync_values};
ghost use Rattle.pdu.specs.declared.Reading.TheVariants.{Transmitter as a_transmitter};

use crate::header;
use crate::writing::Record;
use pdu::{Antenna, Emission, Entity, Refusal, Sync, Transmitter};

// The four puts ask for the room of the whole PDU. A type that kept this would hold the lent output and be made anew for each put: no plainer.

// Writes bytes 20 to 31; the last two are zero in every version.
fn put_entity(out: &mut [u8], e: Entity)
    requires { transmitter_size ≤ length out.old }
    ensures { out.new ≡ splice 20 (fill (entity_table true) (entity_values e)) out.old }
{
    wire::put_two(out, 20, e.kind, e.domain);
    wire::put(out, 22, e.country);
    wire::put_two(out, 24, pdu::CATEGORY, e.version);
    wire::put(out, 26, e.nomenclature);
    wire::put_two(out, 28, e.state, pdu::INPUT_SOURCE);
    wire::put(out, 30, 0u16);
}

// Writes bytes 32 to 71.
fn put_antenna(out: &mut [u8], a: Antenna)
    requires { transmitter_size ≤ length out.old }
    ensures { out.new ≡ splice 32 (fill antenna_table (antenna_values a)) out.old }
{
    wire::put_three(out, 32, a.x, a.y, a.z);
    wire::put_three(out, 56, a.dx, a.dy, a.dz);
    wire::put_two(out, 68, a.pattern, pdu::PATTERN_LENGTH);
}

// Writes bytes 72 to 103.
fn put_emission(out: &mut [u8], e: Emission)
    requires { transmitter_size ≤ length out.old }
    ensures { out.new ≡ splice 72 (fill emission_table (emission_values e)) out.old }
{
    wire::put(out, 72, e.frequency);
    wire::put(out, 80, e.bandwidth);
    wire::put(out, 84, e.power);
    wire::put_four(out, 88, e.spread, pdu::MAJOR, pdu::DETAIL, pdu::SYSTEM);
    wire::put_two(out, 96, e.crypto, e.key);
    wire::put_four(out, 100, pdu::MODULATION_LENGTH, 0, 0, 0);
}

// Writes bytes 104 to 111.
fn put_sync(out: &mut [u8], s: Sync)
    requires { transmitter_size ≤ length out.old }
    ensures { out.new ≡ splice 104 (fill sync_table (sync_values s)) out.old }
{
    wire::put_four(out, 104, s.level, s.primary, s.secondary, s.state);
    wire::put(out, 108, s.id);
}

impl Record for Transmitter {
    ghost form = { a_transmitter };

    ghost body = { λ t. [] };

    // 2, 52, 9.
    #[tactic(auto, using(crate::proofs::Checks::transmitter_then))]
    fn check(&self) -> Result<(), Refusal> {
        self.header.check()?;
        self.sync.check()
    }

    fn size(&self) -> usize {
        pdu::TRANSMITTER_SIZE
    }

    #[tactic(auto, unfolding(pdu::specs::Forms::bytes_of))]
    fn put(&self, out: &mut [u8]) {
        header::put(
            out,
            self.header,
            pdu::TRANSMITTER_TYPE,
            pdu::TRANSMITTER_SIZE as u16,
        );
        put_entity(out, self.entity);
        put_antenna(out, self.antenna);
        put_emission(out, self.emission);
        put_sync(out, self.sync);
    }
}
