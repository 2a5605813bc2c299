// The datagrams of the jobs, as the writer gives them: a unit's Transmitter and its PPLI, with 0 in all fields that the jobs do not need.
// Each 0 is written out: `Default` would have to stand on the records of `pdu`, for this program alone.
use pdu::{Antenna, Emission, Entity, Header, Network, Signal, Sync, Transmitter};

// The longest type 0 body.
const BODY: usize = pdu::BODY_HEADER + pdu::MOST_WORDS * pdu::WORD_BYTES;

// A PPLI's label where it stands: in the last byte of the body's first word, above two bits of format.
const LABEL_PLACE: usize = pdu::BODY_HEADER + pdu::WORD_BYTES - 1;

const PPLI_LABEL: u8 = 8;

// A unit's number is its entity's.
fn header(unit: u16) -> Header {
    Header {
        version: pdu::NEWER_VERSION,
        exercise: 1,
        timestamp: 0,
        status: 0,
        site: 1,
        application: 1,
        entity: unit,
        radio: 1,
    }
}

// A Transmitter of level 0 that is fine.
fn transmitter_of(unit: u16) -> Transmitter {
    let header = header(unit);
    let entity = Entity {
        kind: 0,
        domain: 0,
        country: 0,
        version: 0,
        nomenclature: 0,
        state: 0,
    };
    let antenna = Antenna {
        x: 0,
        y: 0,
        z: 0,
        dx: 0,
        dy: 0,
        dz: 0,
        pattern: 0,
    };
    let emission = Emission {
        frequency: 0,
        bandwidth: 0,
        power: 0,
        spread: 0,
        crypto: 0,
        key: 0,
    };
    let sync = Sync {
        level: 0,
        primary: pdu::FIRST_PRIMARY_MODE,
        secondary: 0,
        state: pdu::FINE,
        id: 0,
    };
    Transmitter {
        header,
        entity,
        antenna,
        emission,
        sync,
    }
}

// A Signal on net 0.
fn signal_of(unit: u16) -> Signal {
    let header = header(unit);
    let network = Network {
        npg: 0,
        net: 0,
        tsec: 0,
        msec: 0,
        message_type: 0,
        slot: 0,
        epoch: 0,
        time: 0,
    };
    Signal {
        header,
        encoding: 0,
        rate: 0,
        samples: 0,
        network,
    }
}

// A unit's Transmitter, written at the start of `out`.
pub fn transmitter(unit: u16, out: &mut [u8]) -> Option<&[u8]> {
    let n = writer::write_transmitter(transmitter_of(unit), out).ok()?;
    let written = &*out;
    written.get(..n)
}

// A Signal of so many words, the first of them a PPLI's, written at the start of `out`.
pub fn ppli(unit: u16, words: u16, out: &mut [u8]) -> Option<&[u8]> {
    let mut body = [0u8; BODY];
    body[LABEL_PLACE] = PPLI_LABEL;
    let body = body.get(..pdu::BODY_HEADER + pdu::WORD_BYTES * usize::from(words))?;
    let n = writer::write_signal(signal_of(unit), body, out).ok()?;
    let written = &*out;
    written.get(..n)
}
