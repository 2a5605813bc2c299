// The calls, and what they answered as a line.
use crate::shown::Shown;
use pdu::{Reading, Refusal, Signal, Transmitter};
use text::hex::Hex;
use text::{ROOM, show};

// The body of a Signal, which the reader leaves in the datagram; it is there, since the datagram was taken.
fn body(datagram: &[u8], size: u16) -> &[u8] {
    let end = pdu::BODY_START + usize::from(size);
    datagram.get(pdu::BODY_START..end).unwrap_or(b"")
}

// The call's word, and `refused N` or what the datagram's first PDU holds.
fn show_reading(rt: &HostRuntime, call: &str, answer: Reading, datagram: &[u8]) {
    match answer {
        Reading::Refused(refusal) => show::refused(rt, call, refusal.number()),
        Reading::Transmitter(transmitter) => {
            show::line(rt, format_args!("{call} {}", Shown(transmitter)))
        }
        Reading::Signal(signal, size) => {
            let body = body(datagram, size);
            show::line(rt, format_args!("{call} {}", Shown((signal, body))))
        }
    }
}

// Reads the first PDU of a datagram; what stands behind it is not shown (02, R-5).
pub fn read(rt: &HostRuntime, datagram: &[u8]) {
    show_reading(rt, "read", reader::read(datagram), datagram);
}

// The same of a datagram of an old capture, voice included (02, R-4).
pub fn archive(rt: &HostRuntime, datagram: &[u8]) {
    show_reading(rt, "archive", reader::read_archive(datagram), datagram);
}

// `write refused N` or `write SIZE HEX`
fn show_written(rt: &HostRuntime, answer: Result<usize, Refusal>, out: &[u8]) {
    match answer {
        Err(refusal) => show::refused(rt, "write", refusal.number()),
        Ok(n) => {
            let written = Hex(&out[..n.min(out.len())]);
            show::line(rt, format_args!("write {n} {written}"));
        }
    }
}

// Writes a Transmitter into so many zeros. The buffer is cut anew: no type keeps that a length read is at most ROOM (`text::words`, `room`).
pub fn write_transmitter(rt: &HostRuntime, transmitter: Transmitter, room: usize) {
    let mut out = [0u8; ROOM];
    let answer = writer::write_transmitter(transmitter, &mut out[..room.min(ROOM)]);
    show_written(rt, answer, &out);
}

// The same of a Signal.
pub fn write_signal(rt: &HostRuntime, signal: Signal, body: &[u8], room: usize) {
    let mut out = [0u8; ROOM];
    let answer = writer::write_signal(signal, body, &mut out[..room.min(ROOM)]);
    show_written(rt, answer, &out);
}
