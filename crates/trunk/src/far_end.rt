// The far end: a record's arrival and the clock. Ends are handed in and back by value: docs/AUDIT.md (question 4) names these calls, and the steps of
// `Line` are over such values.
ghost use Rattle.std.specs.Prelude.{◌≡◌, ◌≤◌, ◌<◌, length};
ghost use Rattle.wire.specs.Bytes.{splice};
ghost use Rattle.station.specs.Units.{settings_of, usual_settings};
ghost use Rattle.trunk.specs.Head.{head_size};
ghost use Rattle.trunk.specs.Record.{last_number, reply_of};
ghost use Rattle.trunk.specs.Far.{made_far, is_next, count_after, delivered, ArrivalGives, ticked};

use crate::{Arrival, Arrived, Far, Head, MadeFar, Ticked, kinds, records};
use station::Station;

// A far end before its first call, with a station of this level and net, this number of exchanges and this absence limit; 37 where the station's
// maker gives it.
pub fn with_limit(level: u8, net: u8, exchanges: u8, limit: u16) -> MadeFar
    ensures { result ≡ made_far (settings_of level net exchanges limit) }
{
    let made = station::with_limit(level, net, exchanges, limit);
    MadeFar {
        far: Far {
            count: 0,
            station: made.station,
        },
        answer: made.answer,
    }
}

// The same with the usual limit of the station's maker without one, 96 seconds. It is public by this name beside `with_limit` (docs/AUDIT.md, question 4).
pub fn new(level: u8, net: u8, exchanges: u8) -> MadeFar
    ensures { result ≡ made_far (usual_settings level net exchanges) }
{
    with_limit(level, net, exchanges, station::USUAL_LIMIT)
}

// How many PDUs a far end has delivered.
pub fn count(far: Far) -> u32
    ensures { result ≡ far.count }
{
    far.count
}

// The station of a far end.
pub fn station(far: Far) -> Station
    ensures { result ≡ far.station }
{
    far.station
}

// Writes a reply with this count from the start of a reply buffer.
#[tactic(auto, unfolding(crate::specs::Record::record_of))]
fn put_reply(reply: &mut [u8], count: u32)
    requires { head_size ≤ length reply.old }
    ensures { reply.new ≡ splice 0 (reply_of count) reply.old }
{
    let head = Head {
        kind: kinds::REPLY_KIND,
        number: count,
    };
    records::put_head(reply, head);
}

// Whether a record with this number is the next. A function of its own, since `next_number` and `other-number` hold its definition to document 01.
#[tactic(auto, unfolding(crate::specs::Far::is_next))]
fn is_next(k: u32, number: u32) -> bool
    ensures { result ≡ is_next k number }
{
    number == k
}

// The count after a record with this number.
#[tactic(auto, unfolding(crate::specs::Far::count_after), using(crate::proofs::EndLaws::next_below))]
fn count_after(k: u32, number: u32) -> u32
    requires { number < last_number }
    ensures { result ≡ count_after k number }
{
    if is_next(k, number) { k + 1 } else { k }
}

// Puts out a PDU and has the station hear it; the count after it is given.
fn deliver(count: u32, station: Station, pdu: &[u8], out: &mut [u8]) -> Arrived
    requires { length pdu.now ≤ length out.old }
    ensures answer { result ≡ delivered count station pdu.now }
    ensures output { out.new ≡ splice 0 pdu.now out.old }
{
    wire::copy(out, 0, pdu);
    let heard = station::hear(station, pdu);
    Arrived {
        far: Far {
            count,
            station: heard.station,
        },
        answer: Ok(Arrival::Delivered {
            size: pdu.len(),
            answer: heard.answer,
        }),
    }
}

// A record arrives: the next number's PDU is put out and the station hears it; a repeat and an early record change nothing. Each gets a
// reply with the count after it.
#[tactic(auto, unfolding(crate::specs::Far::arrived, crate::specs::Far::output_after, crate::specs::Far::reply_after))]
pub fn arrive(far: Far, received: &[u8], reply: &mut [u8], out: &mut [u8]) -> Arrived
    ensures { ArrivalGives far received.now reply.old out.old result reply.new out.new }
{
    let record = match records::check_arrival(received, reply.len(), out.len()) {
        Ok(record) => record,
        Err(refusal) => {
            return Arrived {
                far,
                answer: Err(refusal),
            };
        }
    };
    let number = record.number();
    let count = far.count;
    let after = count_after(count, number);
    put_reply(reply, after);
    if is_next(count, number) {
        return deliver(after, far.station, record.pdu(), out);
    }
    // Two tests, not one `cmp`: `is_next` is a function that `next_number` and `other-number` hold to document 01.
    let answer = if number < count {
        Arrival::Repeat
    } else {
        Arrival::Early
    };
    Arrived {
        far,
        answer: Ok(answer),
    }
}

// The far end's clock: its station's.
#[tactic(auto, unfolding(crate::specs::Far::ticked))]
pub fn tick(far: Far, t: u64) -> Ticked
    ensures { result ≡ ticked far t }
{
    let heard = station::clock(far.station, t);
    Ticked {
        far: Far {
            station: heard.station,
            ..far
        },
        answer: heard.answer,
    }
}
