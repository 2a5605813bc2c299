// What is written, whatever its form: by its rules, its size and its bytes.
ghost use Rattle.std.specs.Prelude.{◌≡◌, ◌≤◌, ℕ, List, length};
ghost use Rattle.wire.specs.Bytes.{splice};
ghost use Rattle.wire.specs.First.{first};
ghost use Rattle.pdu.specs.Refusals.{refused};
ghost use Rattle.pdu.specs.Forms.{bytes_of, size_of};
ghost use Rattle.pdu.specs.Writing.{record_rules, written, written_says, writing_says, output_after};
ghost use Rattle.pdu.specs.declared.Reading.{Reading};

use pdu::Refusal;

// A record to be written, with its body if it has one. `size` and `put` ask that it breaks no rule, as `check` shows.
// A type that kept this would be generic, made in `write` and unwrapped in each impl: no plainer.
pub(crate) trait Record {
    // What reading would answer of its PDU, and the body that goes with it.
    ghost form: { Self → Reading };

    ghost body: { Self → List ℕ };

    // The rules of the record alone, in document 01's order.
    fn check(&self) -> Result<(), Refusal>
        ensures { refused result ≡ first (record_rules (form self.now)) };

    // The size of its PDU.
    fn size(&self) -> usize
        requires { first (record_rules (form self.now)) ≡ 0 }
        ensures { result ≡ size_of (form self.now) };

    // Writes the whole PDU.
    fn put(&self, out: &mut [u8])
        requires rules { first (record_rules (form self.now)) ≡ 0 }
        requires room { size_of (form self.now) ≤ length out.old }
        ensures { out.new ≡ splice 0 (bytes_of (form self.now) (body self.now)) out.old };
}

// Writes a record that breaks no rule from the start of the output, where this has room.
pub(crate) fn write<R: Record>(r: &R, out: &mut [u8]) -> Result<usize, Refusal>
    ensures answer { result ≡ written (R.form r.now) (length out.old) }
    ensures says { written_says result ≡ writing_says (R.form r.now) (length out.old) }
    ensures output { out.new ≡ output_after (R.form r.now) (R.body r.now) out.old }
{
    r.check()?;
    let size = r.size();
    if out.len() < size {
        return Err(Refusal::NoRoom);
    }
    r.put(out);
    Ok(size)
}
