// The fields of a record in a line, in the order of their bytes in the PDU.
use pdu::{Antenna, Emission, Entity, Header, Network, Signal, Sync, Transmitter};
use text::words::Words;

fn read_header(words: &mut Words) -> Option<Header> {
    Some(Header {
        version: words.number()?,
        exercise: words.number()?,
        timestamp: words.number()?,
        status: words.number()?,
        site: words.number()?,
        application: words.number()?,
        entity: words.number()?,
        radio: words.number()?,
    })
}

fn read_entity(words: &mut Words) -> Option<Entity> {
    Some(Entity {
        kind: words.number()?,
        domain: words.number()?,
        country: words.number()?,
        version: words.number()?,
        nomenclature: words.number()?,
        state: words.number()?,
    })
}

fn read_antenna(words: &mut Words) -> Option<Antenna> {
    Some(Antenna {
        x: words.number()?,
        y: words.number()?,
        z: words.number()?,
        dx: words.number()?,
        dy: words.number()?,
        dz: words.number()?,
        pattern: words.number()?,
    })
}

fn read_emission(words: &mut Words) -> Option<Emission> {
    Some(Emission {
        frequency: words.number()?,
        bandwidth: words.number()?,
        power: words.number()?,
        spread: words.number()?,
        crypto: words.number()?,
        key: words.number()?,
    })
}

fn read_sync(words: &mut Words) -> Option<Sync> {
    Some(Sync {
        level: words.number()?,
        primary: words.number()?,
        secondary: words.number()?,
        state: words.number()?,
        id: words.number()?,
    })
}

// The epoch stands before the slot, as in the bytes.
fn read_network(words: &mut Words) -> Option<Network> {
    Some(Network {
        npg: words.number()?,
        net: words.number()?,
        tsec: words.number()?,
        msec: words.number()?,
        message_type: words.number()?,
        epoch: words.number()?,
        slot: words.number()?,
        time: words.number()?,
    })
}

pub fn read_transmitter(words: &mut Words) -> Option<Transmitter> {
    Some(Transmitter {
        header: read_header(words)?,
        entity: read_entity(words)?,
        antenna: read_antenna(words)?,
        emission: read_emission(words)?,
        sync: read_sync(words)?,
    })
}

pub fn read_signal(words: &mut Words) -> Option<Signal> {
    Some(Signal {
        header: read_header(words)?,
        encoding: words.number()?,
        rate: words.number()?,
        samples: words.number()?,
        network: read_network(words)?,
    })
}
