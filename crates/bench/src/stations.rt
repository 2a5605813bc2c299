// The station's calls, with units held.
use crate::{datagrams, lines};
use station::Station;

// A station that holds units 1 to `units`, each by its Transmitter.
fn with_units(units: u16) -> Option<Station> {
    let mut station = station::new(0, 0, 1).station;
    for unit in 1..=units {
        let mut out = [0u8; pdu::TRANSMITTER_SIZE];
        let datagram = datagrams::transmitter(unit, &mut out)?;
        station = station::hear(station, datagram).station;
    }
    Some(station)
}

// `heard UNITS TIMES HELD SUM`: the sender is the unit heard last, so that it stands in the last place; with no units it is unknown. The sum is
// of what the calls answered.
pub fn run(rt: &HostRuntime, units: u16, times: u64) -> Option<()> {
    if station::PLACES < usize::from(units) {
        return None;
    }
    let mut out = [0u8; pdu::TRANSMITTER_SIZE];
    let datagram = datagrams::ppli(units, 1, &mut out)?;
    let mut station = with_units(units)?;
    let mut sum = 0u64;
    for _ in 0..times {
        let heard = station::hear(station, datagram);
        station = heard.station;
        sum = sum.wrapping_add(u64::from(heard.answer.number()));
    }
    let held = station::units_held(station);
    lines::show(rt, format_args!("heard {units} {times} {held} {sum}"));
    Some(())
}
