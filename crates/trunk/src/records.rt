// Records: their head, their rules, and the check of one.
ghost use Rattle.std.specs.Prelude.{◌≡◌, ◌+◌, ◌≤◌, length, IfOk};
ghost use Rattle.wire.specs.Bytes.{splice};
ghost use Rattle.wire.specs.First.{first};
ghost use Rattle.trunk.specs.Refusals.{refused};
ghost use Rattle.trunk.specs.Head.{head_size, head_at, head_bytes};
ghost use Rattle.trunk.specs.Record.{kind_in, number_in, carried_in, is_reply, wrong_carried, form_rules, pdu_rules, check_rules, taken};
ghost use Rattle.trunk.specs.Record.{checked, checked_says, check_says, number_of_checked, size_of_checked};
ghost use Rattle.trunk.specs.Kinds.{longest_record};
ghost use Rattle.trunk.specs.Near.{reply_rules};
ghost use Rattle.trunk.specs.Far.{arrival_rules};

use crate::{Checked, Head, Near, Refusal, kinds};

// Where the number stands in a head, and the head's width.
const NUMBER_AT: usize = 1;

pub const HEAD_SIZE: usize = 5;

// The number that no PDU takes.
pub(crate) const LAST_NUMBER: u32 = 4294967295;

// The kind in the head that starts at `at`.
pub(crate) fn kind_at(r: &[u8], at: usize) -> u8
    requires { at + 1 ≤ length r.now }
    ensures { result ≡ (head_at at r.now).kind }
{
    wire::number_at(r, at)
}

// Writes a head from the start of `out`.
pub(crate) fn put_head(out: &mut [u8], head: Head)
    requires { head_size ≤ length out.old }
    ensures { out.new ≡ splice 0 (head_bytes head) out.old }
{
    wire::put(out, 0, head.kind);
    wire::put(out, NUMBER_AT, head.number);
}

// A record of the right form: it has the length of its kind, so a head, and is no longer than the longest.
#[derive(Clone, Copy)]
pub(crate) struct Record<'a> {
    bytes: &'a [u8],
    ghost head: { head_size ≤ length bytes.now },
    ghost short: { length bytes.now ≤ longest_record },
}

impl<'a> Record<'a> {
    // The record that bytes are, or the first rule on its form that they break.
    #[tactic(auto, unfolding(crate::specs::Record::form_rules, crate::specs::Record::unknown_kind, crate::specs::Record::wrong_size))]
    fn of(bytes: &'a [u8]) -> Result<Record<'a>, Refusal>
        ensures first { refused result ≡ first (form_rules bytes.now) }
        ensures bytes { IfOk result (λ r. r.bytes.now ≡ bytes.now) }
    {
        if bytes.is_empty() {
            return Err(Refusal::RecordLength);
        }
        let kind = kind_at(bytes, 0);
        if kinds::load(kind).is_none() {
            return Err(Refusal::RecordKind);
        }
        // The kind is looked up again: 21 is `wrong_size` (specs/Record), by the `record_size` of the kind.
        if bytes.len() != kinds::record_size(kind) {
            return Err(Refusal::RecordLength);
        }
        Ok(Record { bytes })
    }

    fn kind(self) -> u8
        ensures { result ≡ kind_in self.entry.bytes.now }
    {
        kind_at(self.bytes, 0)
    }

    pub(crate) fn number(self) -> u32
        ensures { result ≡ number_in self.entry.bytes.now }
    {
        wire::number_at(self.bytes, NUMBER_AT)
    }

    // What it carries.
    pub(crate) fn pdu(self) -> &'a [u8]
        ensures { result.now ≡ carried_in self.entry.bytes.now }
    {
        &self.bytes[HEAD_SIZE..]
    }

    #[tactic(auto, unfolding(crate::specs::Record::is_reply))]
    fn is_reply(self) -> bool
        ensures { result ≡ is_reply self.entry.bytes.now }
    {
        kinds::is_reply_load(kinds::load(self.kind()))
    }

    // Whether refusal 22 applies.
    #[tactic(auto, unfolding(pdu::specs::Writing::carried, crate::specs::Record::wrong_carried))]
    fn wrong_carried(self) -> bool
        ensures { result ≡ wrong_carried self.entry.bytes.now }
    {
        let kind = u16::from(self.kind());
        !self.is_reply() && kinds::kind_of_carried(reader::read_carried(self.pdu())) != Some(kind)
    }

    // What checking it answers, where it breaks no rule.
    fn checked(self) -> Checked
        ensures { result ≡ taken self.entry.bytes.now }
    {
        let number = self.number();
        let size = self.bytes.len() as u16;
        if self.is_reply() {
            return Checked::Reply { number, size };
        }
        let kind = self.kind();
        Checked::Pdu { kind, number, size }
    }

    // The first rule on its PDU that a record breaks; a reply breaks none.
    #[tactic(auto, unfolding(crate::specs::Record::last_of_all, crate::specs::Record::pdu_rules, crate::specs::Record::wrong_carried))]
    fn check_pdu(self) -> Result<(), Refusal>
        ensures { refused result ≡ first (pdu_rules self.entry.bytes.now) }
    {
        if self.is_reply() {
            return Ok(());
        }
        if self.number() == LAST_NUMBER {
            return Err(Refusal::RecordNumber);
        }
        if self.wrong_carried() {
            return Err(Refusal::RecordPdu);
        }
        Ok(())
    }
}

// The number of a reply, or the first rule that taking it breaks.
#[tactic(auto, using(crate::proofs::EndLaws::reply_then, crate::proofs::RefusalLaws::number_apart))]
pub(crate) fn check_reply(near: Near, received: &[u8]) -> Result<u32, Refusal>
    ensures first { refused result ≡ first (reply_rules near received.now) }
    ensures number { IfOk result (λ n. n ≡ number_in received.now) }
{
    let record = Record::of(received)?;
    if !record.is_reply() {
        return Err(Refusal::WrongDirection);
    }
    let number = record.number();
    if near.accepted < number {
        return Err(Refusal::AboveAccepted);
    }
    Ok(number)
}

// The record that arrives, or the first rule that its arrival breaks.
#[tactic(auto, using(crate::proofs::EndLaws::arrival_then, crate::proofs::RefusalLaws::number_apart))]
pub(crate) fn check_arrival(
    received: &[u8],
    reply_room: usize,
    room: usize,
) -> Result<Record, Refusal>
    ensures first { refused result ≡ first (arrival_rules received.now reply_room room) }
    ensures bytes { IfOk result (λ r. r.bytes.now ≡ received.now) }
{
    let record = Record::of(received)?;
    if record.is_reply() {
        return Err(Refusal::WrongDirection);
    }
    record.check_pdu()?;
    if reply_room < HEAD_SIZE || room < kinds::LONGEST_PDU {
        return Err(pdu::Refusal::NoRoom.into());
    }
    Ok(record)
}

// The record that is checked, or the first rule that it breaks.
#[tactic(auto, using(crate::proofs::EndLaws::check_then, crate::proofs::RefusalLaws::number_apart))]
fn check_record(received: &[u8]) -> Result<Record, Refusal>
    ensures first { refused result ≡ first (check_rules received.now) }
    ensures bytes { IfOk result (λ r. r.bytes.now ≡ received.now) }
{
    let record = Record::of(received)?;
    record.check_pdu()?;
    Ok(record)
}

// Checks a record, as the lister and the host do.
#[tactic(auto, unfolding(crate::specs::Record::checked))]
pub fn check(received: &[u8]) -> Result<Checked, Refusal>
    ensures answer { result ≡ checked received.now }
    ensures says { checked_says result ≡ check_says received.now }
{
    let record = check_record(received)?;
    Ok(record.checked())
}

// Document 01's number of what a check answered: 0 where the record is taken. `number_of_checked` (specs/Record) has it so.
pub fn number(answer: Result<Checked, Refusal>) -> u8
    ensures { result ≡ number_of_checked answer }
{
    match answer {
        Err(refusal) => refusal.number(),
        Ok(_) => 0,
    }
}

// The size of the record that a check took: 0 where it is refused, since `size_of_checked` (specs/Record) has a size for each answer.
pub fn size(answer: Result<Checked, Refusal>) -> u16
    ensures { result ≡ size_of_checked answer }
{
    match answer {
        Err(_) => 0,
        Ok(Checked::Reply { size, .. } | Checked::Pdu { size, .. }) => size,
    }
}
