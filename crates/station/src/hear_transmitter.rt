// Hearing a Transmitter.
ghost use Rattle.std.specs.Prelude.{◌≡◌};
ghost use Rattle.station.specs.Hearing.{leaving, new_unit, renewed, enter, heard_transmitter};

use crate::{Answer, Station, Unit};
use pdu::Transmitter;

// The entry of a unit heard for the first time.
fn new_unit(now: u64, t: Transmitter) -> Unit
    ensures { result ≡ new_unit now t }
{
    Unit {
        key: crate::key_of(t.header),
        level: t.sync.level,
        state: t.sync.state,
        id: t.sync.id,
        inside: false,
        last: now,
    }
}

// The entry of a unit heard again.
fn renewed_unit(u: Unit, t: Transmitter) -> Unit
    ensures { result ≡ renewed u t }
{
    Unit {
        level: t.sync.level,
        state: t.sync.state,
        id: t.sync.id,
        inside: u.inside && t.sync.state == pdu::FINE && t.sync.id == u.id,
        ..u
    }
}

// A Transmitter whose key is unknown: 40 or 30.
#[tactic(auto, unfolding(crate::specs::Hearing::enter))]
fn enter_unit(station: &mut Station, t: Transmitter) -> Answer
    ensures { leaving result station.new ≡ enter station.old t }
{
    match occupancy::free_place(station.used) {
        None => Answer::NoRoom,
        Some(i) => {
            station.used = occupancy::with_place(station.used, i);
            station.units[i] = new_unit(station.own.clock, t);
            Answer::Entered
        }
    }
}

// A Transmitter: 40, 41 or 30.
#[tactic(auto, unfolding(crate::specs::Hearing::heard_transmitter, crate::specs::Hearing::renew))]
pub(crate) fn transmitter(station: &mut Station, t: Transmitter) -> Answer
    ensures { leaving result station.new ≡ heard_transmitter station.old t }
{
    match station.place_of(crate::key_of(t.header)) {
        None => enter_unit(station, t),
        Some(i) => {
            station.units[i] = renewed_unit(station.units[i], t);
            Answer::Renewed
        }
    }
}
