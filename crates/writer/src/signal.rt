// Writing a Signal: straight into the lent output, each function a run of its bytes.
ghost use Rattle.std.specs.Prelude.{◌≡◌, ◌≤◌, length};
ghost use Rattle.wire.specs.Bytes.{splice};
ghost use Rattle.wire.specs.First.{first};
ghost use Rattle.wire.specs.Table.{fill};
ghost use Rattle.pdu.specs.Numbers.{body_start, most_bytes, last_slot};
ghost use Rattle.pdu.specs.Tables.{encoding_table, network_table};
ghost use Rattle.pdu.specs.Records.{encoding_values, network_values};
ghost use Rattle.pdu.specs.Refusals.{refused};
ghost use Rattle.pdu.specs.Rules.{inner_rules};
ghost use Rattle.pdu.specs.Forms.{bytes_of_body};
ghost use Rattle.pdu.specs.Bodies.{body_written, BodyFits};
ghost use Rattle.pdu.specs.Writing.{record_rules};
ghost use Rattle.pdu.specs.declared.Reading.TheVariants.{Signal as a_signal};

use crate::header;
use crate::writing::Record;
use pdu::{Network, Refusal, Signal};

// A Signal and its body.
#[derive(Clone, Copy)]
pub(crate) struct Message<'a> {
    pub signal: Signal,
    pub body: &'a [u8],
}

// Writes bytes 32 to 51; the rules keep the slot within its bits.
fn put_network(out: &mut [u8], n: Network)
    requires { (body_start ≤ length out.old) × (n.slot ≤ last_slot) }
    ensures { out.new ≡ splice 32 (fill network_table (network_values n)) out.old }
{
    let slot_id = u32::from(n.epoch) * pdu::EPOCH_UNIT + n.slot;
    wire::put(out, 32, n.npg);
    wire::put_four(out, 34, n.net, n.tsec, n.msec, n.message_type);
    wire::put(out, 38, 0u16);
    wire::put(out, 40, slot_id);
    wire::put(out, 44, n.time);
}

// Writes the body of a message of this type: that of round-trip timing with the padding in its first two bytes zero.
fn put_message(out: &mut [u8], message_type: u8, body: &[u8])
    requires { BodyFits message_type body.now out.old }
    ensures { out.new ≡ splice body_start (body_written message_type body.now) out.old }
{
    if pdu::rules::is_timing(message_type) {
        let high = wire::number_at::<u16>(body, 0) % pdu::TIMING_HIGHS;
        wire::put(out, pdu::BODY_START, high);
        wire::copy(
            out,
            pdu::BODY_START + pdu::TIMING_LOW,
            &body[pdu::TIMING_LOW..],
        );
    } else {
        wire::copy(out, pdu::BODY_START, body);
    }
}

impl Message<'_> {
    // The rules of the network header, retired types included, and of the body.
    #[tactic(auto, using(pdu::proofs::RefusalLaws::inner_then))]
    fn check_inner(&self) -> Result<(), Refusal>
        ensures { refused result ≡ first (inner_rules (a_signal self.now.signal (length self.now.body.now))) }
    {
        let network = self.signal.network;
        network.check()?;
        pdu::rules::check_body(network.message_type, self.body.len())
    }

    // The body's size, which the rules keep short.
    fn body_size(&self) -> u16
        requires { length self.now.body.now ≤ most_bytes }
        ensures { result ≡ length self.now.body.now }
    {
        self.body.len() as u16
    }

    // Writes bytes 20 to 31.
    #[tactic(auto, using(pdu::proofs::Taken::signal_bounds))]
    fn put_encoding(&self, out: &mut [u8])
        requires room { body_start ≤ length out.old }
        requires rules { first (record_rules (a_signal self.now.signal (length self.now.body.now))) ≡ 0 }
        ensures { out.new ≡ splice 20 (fill (encoding_table (length self.now.body.now)) (encoding_values self.now.signal)) out.old }
    {
        let bits = 8 * (pdu::NETWORK_BYTES + self.body_size());
        let encoding = pdu::ENCODING_CLASS * pdu::ENCODING_KEPT + self.signal.encoding;
        wire::put_two(out, 20, encoding, pdu::TDL_TYPE);
        wire::put(out, 24, self.signal.rate);
        wire::put_two(out, 28, bits, self.signal.samples);
    }

    // Writes the body, and the fill.
    fn put_body(&self, out: &mut [u8])
        requires { BodyFits self.now.signal.network.message_type self.now.body.now out.old }
        ensures { out.new ≡ splice body_start (bytes_of_body self.now.signal.network.message_type self.now.body.now) out.old }
    {
        let end = pdu::BODY_START + self.body.len();
        let size = pdu::rules::signal_size(self.body_size());
        put_message(out, self.signal.network.message_type, self.body);
        wire::zero(out, end, size - end);
    }
}

impl Record for Message<'_> {
    ghost form = { λ m. a_signal m.signal (length m.body.now) };

    ghost body = { λ m. m.body.now };

    // 2, 52, 10, 131 to 138, 50, 14, 15.
    #[tactic(auto, using(crate::proofs::Checks::signal_then))]
    fn check(&self) -> Result<(), Refusal> {
        self.signal.header.check()?;
        if pdu::ENCODING_KEPT <= self.signal.encoding {
            return Err(Refusal::Encoding);
        }
        self.check_inner()
    }

    #[tactic(auto, using(pdu::proofs::Taken::signal_bounds))]
    fn size(&self) -> usize {
        pdu::rules::signal_size(self.body_size())
    }

    // What stands before the body, the body, and the fill.
    #[tactic(auto, using(pdu::proofs::Taken::signal_bounds), unfolding(pdu::specs::Forms::bytes_of))]
    fn put(&self, out: &mut [u8]) {
        header::put(
            out,
            self.signal.header,
            pdu::SIGNAL_TYPE,
            self.size() as u16,
        );
        self.put_encoding(out);
        put_network(out, self.signal.network);
        self.put_body(out);
    }
}
