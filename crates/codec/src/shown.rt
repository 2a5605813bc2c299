// The parts of a record as they are printed: each field behind a space, in the order of their bytes in the PDU.
use pdu::{Antenna, Emission, Entity, Header, Network, Signal, Sync, Transmitter};
use std::fmt;
use text::hex::Hex;

// A part to be printed.
#[derive(Clone, Copy)]
pub struct Shown<T>(pub T);

impl fmt::Display for Shown<Header> {
    fn fmt<W: fmt::Write>(&self, f: &mut fmt::Formatter<W>) -> fmt::Result {
        let h = self.0;
        write!(
            f,
            " {} {} {} {}",
            h.version, h.exercise, h.timestamp, h.status
        )?;
        write!(f, " {} {} {} {}", h.site, h.application, h.entity, h.radio)
    }
}

impl fmt::Display for Shown<Entity> {
    fn fmt<W: fmt::Write>(&self, f: &mut fmt::Formatter<W>) -> fmt::Result {
        let e = self.0;
        write!(f, " {} {} {}", e.kind, e.domain, e.country)?;
        write!(f, " {} {} {}", e.version, e.nomenclature, e.state)
    }
}

impl fmt::Display for Shown<Antenna> {
    fn fmt<W: fmt::Write>(&self, f: &mut fmt::Formatter<W>) -> fmt::Result {
        let a = self.0;
        write!(f, " {} {} {}", a.x, a.y, a.z)?;
        write!(f, " {} {} {} {}", a.dx, a.dy, a.dz, a.pattern)
    }
}

impl fmt::Display for Shown<Emission> {
    fn fmt<W: fmt::Write>(&self, f: &mut fmt::Formatter<W>) -> fmt::Result {
        let e = self.0;
        write!(f, " {} {} {}", e.frequency, e.bandwidth, e.power)?;
        write!(f, " {} {} {}", e.spread, e.crypto, e.key)
    }
}

impl fmt::Display for Shown<Sync> {
    fn fmt<W: fmt::Write>(&self, f: &mut fmt::Formatter<W>) -> fmt::Result {
        let s = self.0;
        write!(
            f,
            " {} {} {} {} {}",
            s.level, s.primary, s.secondary, s.state, s.id
        )
    }
}

// The epoch stands before the slot, as in the bytes.
impl fmt::Display for Shown<Network> {
    fn fmt<W: fmt::Write>(&self, f: &mut fmt::Formatter<W>) -> fmt::Result {
        let n = self.0;
        write!(f, " {} {} {} {}", n.npg, n.net, n.tsec, n.msec)?;
        write!(f, " {} {} {} {}", n.message_type, n.epoch, n.slot, n.time)
    }
}

// `transmitter FIELDS`
impl fmt::Display for Shown<Transmitter> {
    fn fmt<W: fmt::Write>(&self, f: &mut fmt::Formatter<W>) -> fmt::Result {
        let t = self.0;
        write!(f, "transmitter{}{}", Shown(t.header), Shown(t.entity))?;
        write!(
            f,
            "{}{}{}",
            Shown(t.antenna),
            Shown(t.emission),
            Shown(t.sync)
        )
    }
}

// `signal FIELDS BODYHEX`
impl fmt::Display for Shown<(Signal, &[u8])> {
    fn fmt<W: fmt::Write>(&self, f: &mut fmt::Formatter<W>) -> fmt::Result {
        let (s, body) = self.0;
        write!(
            f,
            "signal{} {} {} {}",
            Shown(s.header),
            s.encoding,
            s.rate,
            s.samples
        )?;
        write!(f, "{} {}", Shown(s.network), Hex(body))
    }
}
