// Writes Link 16 PDUs (DIS Transmitter and Signal) as document 01 lays them out, from the start of a lent output.
// Every public call takes every input and is promised down to each bit of its answer and of the output.
#![tactic(auto)]

ghost use Rattle.std.specs.Prelude.{◌≡◌, [], length};
ghost use Rattle.pdu.specs.Writing.{written, written_says, writing_says, output_after};
ghost use Rattle.pdu.specs.declared.Reading.TheVariants.{Transmitter as a_transmitter, Signal as a_signal};

use crate::signal::Message;
use pdu::{Refusal, Signal, Transmitter};

mod header;
mod signal;
mod transmitter;
mod writing;

// Writes a Transmitter.
pub fn write_transmitter(t: Transmitter, out: &mut [u8]) -> Result<usize, Refusal>
    ensures answer { result ≡ written (a_transmitter t) (length out.old) }
    ensures says { written_says result ≡ writing_says (a_transmitter t) (length out.old) }
    ensures output { out.new ≡ output_after (a_transmitter t) [] out.old }
{
    writing::write(&t, out)
}

// Writes a Signal, whose body is the whole slice.
pub fn write_signal(s: Signal, body: &[u8], out: &mut [u8]) -> Result<usize, Refusal>
    ensures answer { result ≡ written (a_signal s (length body.now)) (length out.old) }
    ensures says { written_says result ≡ writing_says (a_signal s (length body.now)) (length out.old) }
    ensures output { out.new ≡ output_after (a_signal s (length body.now)) body.now out.old }
{
    writing::write(&Message { signal: s, body }, out)
}
