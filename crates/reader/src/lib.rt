// Reads Link 16 PDUs (DIS Transmitter and Signal) as document 01 lays them out: the first of a slice that may hold more (request R-5).
// Every public call takes every input and is promised down to each bit of its answer.
#![tactic(auto)]

ghost use Rattle.std.specs.Prelude.{◌≡◌};
ghost use Rattle.pdu.specs.Refusals.{refused};
ghost use Rattle.pdu.specs.Forms.{size_of};
ghost use Rattle.pdu.specs.Reading.{Laid, refusal, content, answer_by, reading, number_of, reading_says, read_says};
ghost use Rattle.pdu.specs.Reading.{answer_of, archive_refusal, archive_reading, archive_says};
ghost use Rattle.pdu.specs.Writing.{in_written_form, carried, carried_says, carried_said};

use crate::signal::LaidSignal;
use crate::start::Start;
use crate::transmitter::LaidTransmitter;
use pdu::{Reading, Refusal};

mod signal;
mod start;
pub mod timing;
mod transmitter;
pub mod words;

// The rules of reading: the first that is broken, if any.
#[tactic(auto, using(crate::proofs::Checks::transmitter_then, crate::proofs::Checks::signal_then))]
pub fn reading_refusal(d: &[u8]) -> Result<(), Refusal>
    ensures { refused result ≡ refusal d.now }
{
    let start = Start::check(d)?;
    if start.says_transmitter() {
        LaidTransmitter::check(&start)?.check_inner()
    } else {
        LaidSignal::check(&start)?.check_inner()
    }
}

// The same without 50, which live reading alone gives: where it does, the rules behind it decide.
#[tactic(auto, using(pdu::proofs::ArchiveLaws::archive_same, crate::proofs::Checks::only_retired))]
pub fn archive_refusal(d: &[u8]) -> Result<(), Refusal>
    ensures { refused result ≡ archive_refusal d.now }
{
    match reading_refusal(d) {
        Err(Refusal::Retired) => {
            let retired = LaidSignal { bytes: d };
            retired.check_body()
        }
        live => live,
    }
}

// The size of a datagram's first PDU, its length field, by what its rules answered.
fn size_by(checked: Result<(), Refusal>, d: &[u8]) -> Result<u16, Refusal>
    requires { refused checked ≡ 0 → Laid d.now }
    ensures { result ≡ answer_of (answer_by (refused checked) d.now) }
{
    checked?;
    Ok(wire::number_at(d, 8))
}

// The size of the first PDU of a slice, or its refusal, as reading answers them.
#[tactic(auto, unfolding(pdu::specs::Reading::reading))]
pub fn answer(datagram: &[u8]) -> Result<u16, Refusal>
    ensures { result ≡ answer_of (reading datagram.now) }
{
    size_by(reading_refusal(datagram), datagram)
}

// The same as archive reading answers them.
#[tactic(auto, unfolding(pdu::specs::Reading::archive_reading))]
pub fn answer_archive(datagram: &[u8]) -> Result<u16, Refusal>
    ensures { result ≡ answer_of (archive_reading datagram.now) }
{
    size_by(archive_refusal(datagram), datagram)
}

// What a datagram holds that has its layout. It goes by byte 2 anew: `reading_refusal`, `archive_refusal` and `is_written`, from which the readers
// below come here, are public by these answers (docs/AUDIT.md, question 2), which keep nothing of the type that was checked.
fn content(d: &[u8]) -> Reading
    requires { Laid d.now }
    ensures { result ≡ content d.now }
{
    if wire::number_at::<u8>(d, 2) == pdu::TRANSMITTER_TYPE {
        let transmitter = LaidTransmitter { bytes: d };
        Reading::Transmitter(transmitter.fields())
    } else {
        let signal = LaidSignal { bytes: d };
        // The size first: where both arms began with the shared fields, the compiler would read these byte by byte before the test.
        let size = signal.body_size();
        Reading::Signal(signal.fields(), size)
    }
}

// Reads the first PDU of a datagram: takes it exactly when it meets its layout and every rule of document 01, else gives the first refusal
// that applies. What stands behind the PDU is not looked at. The two arms stand again in `read_archive`: a function for both, over what the rules
// answered, was tried, and takes 14 instructions more of some 350, since the record is copied once more.
pub fn read(datagram: &[u8]) -> Reading
    ensures answer { result ≡ reading datagram.now }
    ensures says { reading_says result ≡ read_says datagram.now }
{
    match reading_refusal(datagram) {
        Ok(()) => content(datagram),
        Err(e) => Reading::Refused(e),
    }
}

// Reads a datagram of an old capture: takes retired messages too, and is `read` on everything else (request R-4).
pub fn read_archive(datagram: &[u8]) -> Reading
    ensures answer { result ≡ archive_reading datagram.now }
    ensures says { reading_says result ≡ archive_says datagram.now }
{
    match archive_refusal(datagram) {
        Ok(()) => content(datagram),
        Err(e) => Reading::Refused(e),
    }
}

// Whether a datagram is one PDU, taken and already in written form. It goes by the checks, and not by `reading_refusal`, which the compiler inlines
// where one place alone calls it.
#[tactic(auto, using(crate::proofs::Checks::written_started, crate::proofs::Checks::written_transmitter, crate::proofs::Checks::written_signal))]
pub fn is_written(datagram: &[u8]) -> bool
    ensures { result ≡ in_written_form datagram.now }
{
    let Ok(start) = Start::check(datagram) else {
        return false;
    };
    if start.says_transmitter() {
        LaidTransmitter::check(&start).is_ok_and(|transmitter| transmitter.is_written())
    } else {
        LaidSignal::check(&start).is_ok_and(|signal| signal.is_written())
    }
}

// What bytes hold that should be in written form.
#[tactic(auto, unfolding(pdu::specs::Writing::carried))]
pub fn read_carried(datagram: &[u8]) -> Option<Reading>
    ensures answer { result ≡ carried datagram.now }
    ensures says { carried_says result ≡ carried_said datagram.now }
{
    if is_written(datagram) {
        Some(content(datagram))
    } else {
        None
    }
}

// Document 01's number of what reading answered: 0 where the datagram is taken.
// No `Option`: 0 is part of the answer (`number_of`), and docs/AUDIT.md names this function.
pub fn number(r: Reading) -> u8
    ensures { result ≡ number_of r }
{
    match r {
        Reading::Refused(e) => e.number(),
        Reading::Transmitter(_) | Reading::Signal(_, _) => 0,
    }
}

// The size of the PDU that reading took: 0 where the datagram is refused.
// No `Option`: 0 is part of the answer (`size_of`), and docs/AUDIT.md names this function.
pub fn size(r: Reading) -> u32
    ensures { result ≡ size_of r }
{
    match r {
        Reading::Refused(_) => 0,
        Reading::Transmitter(_) => pdu::TRANSMITTER_SIZE as u32,
        Reading::Signal(_, body) => pdu::rules::signal_size(body) as u32,
    }
}
