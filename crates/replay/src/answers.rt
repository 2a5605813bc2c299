// What a call answered, as a line.
use text::hex::Hex;
use text::{ROOM, show};
use trunk::{Arrival, Refusal, records};

// The first bytes of a buffer, to be printed.
fn hex(buf: &[u8; ROOM], n: usize) -> Hex<'_> {
    Hex(&buf[..n.min(ROOM)])
}

// `offer NUMBER`, the first one taken
pub fn offered(rt: &HostRuntime, answer: Result<u32, Refusal>) {
    match answer {
        Err(refusal) => show::refused(rt, "offer", refusal.number()),
        Ok(number) => show::line(rt, format_args!("offer {number}")),
    }
}

// `send SIZE HEX`
pub fn sent(rt: &HostRuntime, answer: Result<usize, Refusal>, out: &[u8; ROOM]) {
    match answer {
        Err(refusal) => show::refused(rt, "send", refusal.number()),
        Ok(n) => show::line(rt, format_args!("send {n} {}", hex(out, n))),
    }
}

// `near ACKNOWLEDGED`
pub fn replied(rt: &HostRuntime, answer: Result<u32, Refusal>) {
    match answer {
        Err(refusal) => show::refused(rt, "near", refusal.number()),
        Ok(count) => show::line(rt, format_args!("near {count}")),
    }
}

// `far delivered SIZE ANSWER HEX REPLYHEX`, `far repeat REPLYHEX` or `far early REPLYHEX`
pub fn arrived(
    rt: &HostRuntime,
    answer: Result<Arrival, Refusal>,
    out: &[u8; ROOM],
    reply: &[u8; ROOM],
) {
    let reply = hex(reply, records::HEAD_SIZE);
    match answer {
        Err(refusal) => show::refused(rt, "far", refusal.number()),
        Ok(Arrival::Delivered { size, answer }) => {
            let answer = answer.number();
            let pdu = hex(out, size);
            show::line(
                rt,
                format_args!("far delivered {size} {answer} {pdu} {reply}"),
            )
        }
        Ok(Arrival::Repeat) => show::line(rt, format_args!("far repeat {reply}")),
        Ok(Arrival::Early) => show::line(rt, format_args!("far early {reply}")),
    }
}
