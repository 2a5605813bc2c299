// Reads the first PDUs of datagrams and writes PDUs, one a line from standard input, and prints what each call answered.
#![tactic(auto)]

mod calls;
mod fields;
mod script;
mod shown;

use script::Call;
use text::{ROOM, lines};

// Makes the call of a line; none where the line cannot be read.
fn run(rt: &HostRuntime, line: &[u8]) -> Option<()> {
    let mut given = [0u8; ROOM];
    match script::read(line, &mut given)? {
        Call::Read(datagram) => calls::read(rt, datagram),
        Call::Archive(datagram) => calls::archive(rt, datagram),
        Call::WriteTransmitter { transmitter, room } => {
            calls::write_transmitter(rt, transmitter, room)
        }
        Call::WriteSignal { signal, body, room } => calls::write_signal(rt, signal, body, room),
    }
    Some(())
}

fn main(rt: HostRuntime) {
    lines::run(&rt, |line| run(&rt, line));
}
