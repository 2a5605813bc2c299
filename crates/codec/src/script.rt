// A line, as the call that it asks for.
use crate::fields;
use pdu::{Signal, Transmitter};
use text::ROOM;
use text::words::Words;

// A call.
#[derive(Clone, Copy, Debug, PartialEq, Eq)]
pub enum Call<'a> {
    // `read HEX`
    Read(&'a [u8]),
    // `archive HEX`
    Archive(&'a [u8]),
    // `write transmitter FIELDS ROOM`
    WriteTransmitter {
        transmitter: Transmitter,
        room: usize,
    },
    // `write signal FIELDS BODYHEX ROOM`
    WriteSignal {
        signal: Signal,
        body: &'a [u8],
        room: usize,
    },
}

// A record to be written, by its form's word.
fn read_record<'a>(words: &mut Words, given: &'a mut [u8; ROOM]) -> Option<Call<'a>> {
    match words.word()? {
        b"transmitter" => Some(Call::WriteTransmitter {
            transmitter: fields::read_transmitter(words)?,
            room: words.room()?,
        }),
        b"signal" => Some(Call::WriteSignal {
            signal: fields::read_signal(words)?,
            body: words.bytes(given)?,
            room: words.room()?,
        }),
        _ => None,
    }
}

// Reads a line; its bytes, if it has any, into `given`.
pub fn read<'a>(line: &[u8], given: &'a mut [u8; ROOM]) -> Option<Call<'a>> {
    let mut words = Words::of(line);
    let call = match words.word()? {
        b"read" => Call::Read(words.bytes(given)?),
        b"archive" => Call::Archive(words.bytes(given)?),
        b"write" => read_record(&mut words, given)?,
        _ => return None,
    };
    words.is_empty().then_some(call)
}
