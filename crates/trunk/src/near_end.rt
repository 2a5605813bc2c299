// The near end: offering, sending and taking a reply. Ends are handed in and back by value: docs/AUDIT.md (question 4) names these calls, and
// the steps of `Line` (specs) are over such values.
ghost use Rattle.std.specs.Prelude.{◌≡◌, ◌+◌, ◌-◌, ◌≤◌, length, IfOk, Some};
ghost use Rattle.wire.specs.Bytes.{splice};
ghost use Rattle.wire.specs.First.{first};
ghost use Rattle.pdu.specs.Reading.{reading, used};
ghost use Rattle.pdu.specs.Writing.{written_form};
ghost use Rattle.trunk.specs.Refusals.{refused};
ghost use Rattle.trunk.specs.Kinds.{kind_of, longest_pdu, longest_record, record_size};
ghost use Rattle.trunk.specs.Record.{last_number};
ghost use Rattle.trunk.specs.Bundle.{stop_of, bundle_stop, bundle};
ghost use Rattle.trunk.specs.Near.{row_size, store_size, fresh_near, row_start, offer_rules, offer_record, stored, stored_all, row_kind, send_rules};
ghost use Rattle.trunk.specs.Near.{OfferGives, SendGives, ReplyGives};

use crate::{Head, Load, Near, Offered, Refusal, Replied, Sending, kinds, records};
use pdu::Reading;

const ROWS: u32 = 8;

// The most PDUs that one offer takes.
const MOST_PDUS: usize = 8;

// Rows in a slice, not an array of rows: the store is the caller's bytes (document 01).
const ROW_SIZE: usize = 192;

pub const STORE_SIZE: usize = ROWS as usize * ROW_SIZE;

// A near end before its first call.
pub fn new() -> Near
    ensures { result ≡ fresh_near }
{
    Near {
        accepted: 0,
        acknowledged: 0,
    }
}

// How many PDUs a near end has accepted.
pub fn accepted(near: Near) -> u32
    ensures { result ≡ near.accepted }
{
    near.accepted
}

// How many of them the far end has acknowledged.
pub fn acknowledged(near: Near) -> u32
    ensures { result ≡ near.acknowledged }
{
    near.acknowledged
}

// How many PDUs are accepted and not acknowledged.
fn unacknowledged(near: Near) -> u32
    ensures { result ≡ near.accepted - near.acknowledged }
{
    near.accepted.saturating_sub(near.acknowledged)
}

// Where the row of a number starts.
fn row_start(number: u32) -> usize
    ensures { (result ≡ row_start number) × (result + row_size ≤ store_size) }
{
    ROW_SIZE * (number % ROWS) as usize
}

// The first PDU of a slice, as it was read, and the kind under which the trunk carries it.
#[derive(Clone, Copy)]
struct Carried<'a> {
    kind: u8,
    answer: Reading,
    datagram: &'a [u8],
    ghost read: { answer ≡ reading datagram.now },
    ghost carried: { kind_of (reading datagram.now) ≡ Some kind },
}

impl<'a> Carried<'a> {
    // A slice's first PDU, or what stops it.
    #[tactic(auto, unfolding(crate::specs::Bundle::stop_of))]
    fn first(datagram: &'a [u8]) -> Result<Carried<'a>, Refusal>
        ensures stop { refused result ≡ stop_of (reading datagram.now) }
        ensures datagram { IfOk result (λ p. p.datagram.now ≡ datagram.now) }
    {
        let answer = reader::read(datagram);
        if let Reading::Refused(refusal) = answer {
            return Err(refusal.into());
        }
        let Some(kind) = kinds::kind_of(answer) else {
            return Err(Refusal::NotCarried);
        };
        let kind = kind as u8;
        Ok(Carried {
            kind,
            answer,
            datagram,
        })
    }

    // How many bytes of the slice it used.
    fn size(&self) -> usize
        ensures { result ≡ used self.now.datagram.now }
    {
        reader::size(self.answer) as usize
    }

    // Writes it from the start of `out`, as the writer gives it.
    fn put(&self, out: &mut [u8])
        requires { longest_pdu ≤ length out.old }
        ensures { out.new ≡ splice 0 (written_form self.now.datagram.now) out.old }
    {
        match self.answer {
            // None is here, since nothing carries a refusal.
            Reading::Refused(_) => unreachable!(),
            Reading::Transmitter(t) => {
                let _ = writer::write_transmitter(t, out);
            }
            Reading::Signal(s, n) => {
                let end = pdu::BODY_START + usize::from(n);
                let _ = writer::write_signal(s, &self.datagram[pdu::BODY_START..end], out);
            }
        }
    }

    // Writes its record under this number from the start of a row.
    fn put_record(&self, row: &mut [u8], number: u32)
        requires { longest_record ≤ length row.old }
        ensures { row.new ≡ splice 0 (offer_record number self.now.datagram.now) row.old }
    {
        let head = Head {
            kind: self.kind,
            number,
        };
        records::put_head(row, head);
        self.put(&mut row[records::HEAD_SIZE..]);
    }

    // Writes its record into the row of this number.
    fn store(&self, store: &mut [u8], number: u32)
        requires { length store.old ≡ store_size }
        ensures { store.new ≡ stored number store.old self.now.datagram.now }
    {
        let start = row_start(number);
        self.put_record(&mut store[start..start + ROW_SIZE], number);
    }
}

// How many PDUs a slice that is offered has, from the front to its end, or what stops one of them; an empty slice is too short. `put_bundle` walks
// the slice once more, since an offer is taken whole or not at all. Both count by hand: here the count is the answer, there it is a PDU's number.
fn count_pdus(datagram: &[u8]) -> Result<usize, Refusal>
    ensures stop { refused result ≡ bundle_stop datagram.now }
    ensures pdus { IfOk result (λ n. n ≡ length (bundle datagram.now)) }
{
    if datagram.is_empty() {
        return Err(pdu::Refusal::Short.into());
    }
    let mut rest = datagram;
    let mut pdus = 0;
    while !rest.is_empty() {
        let pdu = Carried::first(rest)?;
        rest = &rest[pdu.size()..];
        pdus += 1;
    }
    Ok(pdus)
}

// How many PDUs an offer takes, or the first rule that it breaks.
#[tactic(auto, unfolding(crate::specs::Near::offer_rules_of), using(crate::proofs::RefusalLaws::some_number))]
fn check_offer(near: Near, store: &[u8], datagram: &[u8]) -> Result<u32, Refusal>
    ensures first { refused result ≡ first (offer_rules near store.now datagram.now) }
    ensures pdus { IfOk result (λ n. n ≡ length (bundle datagram.now)) }
{
    if store.len() != STORE_SIZE {
        return Err(Refusal::StoreSize);
    }
    let pdus = count_pdus(datagram)?;
    if pdus > MOST_PDUS {
        return Err(Refusal::ManyPdus);
    }
    let more = pdus as u32;
    if records::LAST_NUMBER - near.accepted < more {
        return Err(Refusal::RecordNumber);
    }
    if unacknowledged(near) + more > ROWS {
        return Err(Refusal::WindowFull);
    }
    Ok(more)
}

// Writes the records of a bundle's PDUs, each into the row of its number, from this number on.
fn put_bundle(store: &mut [u8], number: u32, datagram: &[u8])
    requires { (length store.old ≡ store_size) × (bundle_stop datagram.now ≡ 0) × (number + length (bundle datagram.now) ≤ last_number) }
    ensures { store.new ≡ stored_all number store.old (bundle datagram.now) }
{
    let mut left = datagram;
    let mut next = number;
    while let Ok(pdu) = Carried::first(left) {
        pdu.store(store, next);
        left = &left[pdu.size()..];
        next += 1;
    }
}

// Offers a datagram: takes all its PDUs under the next numbers, and writes their records into the rows of these in the store, or takes none.
#[tactic(auto, unfolding(crate::specs::Near::offered, crate::specs::Near::store_after))]
pub fn offer(near: Near, store: &mut [u8], datagram: &[u8]) -> Offered
    ensures { OfferGives near store.old datagram.now result store.new }
{
    let number = near.accepted;
    match check_offer(near, store, datagram) {
        Err(refusal) => Offered {
            near,
            answer: Err(refusal),
        },
        Ok(pdus) => {
            put_bundle(store, number, datagram);
            Offered {
                near: Near {
                    accepted: number + pdus,
                    ..near
                },
                answer: Ok(number),
            }
        }
    }
}

// How long the record of number i is, or the first rule that sending it breaks.
#[tactic(auto, unfolding(crate::specs::Near::send_rules))]
fn check_send(near: Near, store: &[u8], i: u32, room: usize) -> Result<usize, Refusal>
    ensures first { refused result ≡ first (send_rules near store.now i room) }
    ensures size { IfOk result (λ n. n ≡ record_size (row_kind store.now i)) }
{
    if store.len() != STORE_SIZE {
        return Err(Refusal::StoreSize);
    }
    if !(near.acknowledged..near.accepted).contains(&i) {
        return Err(Refusal::NotHeld);
    }
    let kind = records::kind_at(store, row_start(i));
    let Some(load) = kinds::load(kind) else {
        return Err(Refusal::RecordKind);
    };
    if load == Load::Nothing {
        return Err(Refusal::WrongDirection);
    }
    // By the kind once more, as `record_size` (specs/Kinds) has it.
    let size = kinds::record_size(kind);
    if room < size {
        return Err(pdu::Refusal::NoRoom.into());
    }
    Ok(size)
}

// Sends number i: its record, as its row of the store has it, from the start of `out`. The near end stays as it was.
#[tactic(auto, unfolding(crate::specs::Near::sent, crate::specs::Near::sent_out))]
pub fn send(near: Near, store: &[u8], i: u32, out: &mut [u8]) -> Sending
    ensures { SendGives near store.now i out.old result out.new }
{
    let answer = check_send(near, store, i, out.len());
    if let Ok(size) = answer {
        let start = row_start(i);
        wire::copy(out, 0, &store[start..start + size]);
    }
    Sending { near, answer }
}

// Takes a reply: a number below the acknowledged count changes nothing, any other becomes that count.
#[tactic(auto, unfolding(crate::specs::Near::replied))]
pub fn take_reply(near: Near, received: &[u8]) -> Replied
    ensures { ReplyGives near received.now result }
{
    match records::check_reply(near, received) {
        Err(refusal) => Replied {
            near,
            answer: Err(refusal),
        },
        Ok(number) => {
            let count = near.acknowledged.max(number);
            Replied {
                near: Near {
                    acknowledged: count,
                    ..near
                },
                answer: Ok(count),
            }
        }
    }
}
