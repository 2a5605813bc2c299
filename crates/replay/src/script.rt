// A line of a script, as the call that it asks for.
use text::ROOM;
use text::words::Words;

// A call.
#[derive(Clone, Copy, Debug, PartialEq, Eq)]
pub enum Call<'a> {
    // `station LEVEL NET`, `station LEVEL NET EXCHANGES` or `station LEVEL NET EXCHANGES LIMIT`: makes the far end's station, with one exchange
    // and the usual absence limit where they are not given.
    Station {
        level: u8,
        net: u8,
        exchanges: u8,
        limit: Option<u16>,
    },
    // `store BYTES`: the lent store's length.
    Store(usize),
    // `poke OFFSET HEX`: somebody else writes the store.
    Poke {
        offset: usize,
        bytes: &'a [u8],
    },
    // `offer HEX`
    Offer(&'a [u8]),
    // `send NUMBER ROOM`
    Send {
        number: u32,
        room: usize,
    },
    // `near HEX`: a record arrives at the near end.
    Near(&'a [u8]),
    // `far HEX ROOM REPLYROOM`: a record arrives at the far end.
    Far {
        received: &'a [u8],
        room: usize,
        reply_room: usize,
    },
    // `clock T`: the far end's clock.
    Clock(u64),
}

fn read_station<'a>(words: &mut Words) -> Option<Call<'a>> {
    Some(Call::Station {
        level: words.number()?,
        net: words.number()?,
        exchanges: if words.is_empty() { 1 } else { words.number()? },
        limit: if words.is_empty() {
            None
        } else {
            Some(words.number()?)
        },
    })
}

// Reads a line; its bytes, if it has any, into `given`.
pub fn read<'a>(line: &[u8], given: &'a mut [u8; ROOM]) -> Option<Call<'a>> {
    let mut words = Words::of(line);
    let call = match words.word()? {
        b"station" => read_station(&mut words)?,
        b"store" => Call::Store(words.room()?),
        b"poke" => Call::Poke {
            offset: words.room()?,
            bytes: words.bytes(given)?,
        },
        b"offer" => Call::Offer(words.bytes(given)?),
        b"send" => Call::Send {
            number: words.number()?,
            room: words.room()?,
        },
        b"near" => Call::Near(words.bytes(given)?),
        b"far" => Call::Far {
            received: words.bytes(given)?,
            room: words.room()?,
            reply_room: words.room()?,
        },
        b"clock" => Call::Clock(words.number()?),
        _ => return None,
    };
    words.is_empty().then_some(call)
}

// What stands before a line.
#[derive(Clone, Copy, Debug, PartialEq, Eq)]
pub enum Before {
    Nothing,
    // The line that makes the station.
    Station,
    // That one, and others.
    More,
}

// Whether a call may stand there: `station` first, `store` perhaps second, then the others.
pub fn in_place(call: Call, before: Before) -> bool {
    match call {
        Call::Station { .. } => before == Before::Nothing,
        Call::Store(_) => before == Before::Station,
        _ => before != Before::Nothing,
    }
}

// What stands before the line behind a call.
pub fn behind(call: Call) -> Before {
    match call {
        Call::Station { .. } => Before::Station,
        _ => Before::More,
    }
}
