// Lists trunk records, end to end from standard input: one line each, up to the first refusal (document 01, "Sizes and edges").
// One record is held at a time, so the input may be of any length. A failed read or write is told on standard error, and ends the listing.
#![tactic(auto)]

use kinds::LONGEST_RECORD;
use std::io;
use std::ops::ControlFlow;
use text::{lines, show};
use trunk::{Checked, Load, Refusal, kinds, records};

// What ends the listing before its time.
#[derive(Drop)]
enum Failure {
    Input(io::Error),
    Output(io::Error),
}

// The word of a record with this load.
fn word(load: Load) -> &'static str {
    match load {
        Load::Words(_) | Load::Interrogation | Load::TimingReply => "signal",
        Load::Transmitter => "transmitter",
        Load::Nothing => "ack",
    }
}

// Prints the line of a record, and answers whether the next one is to be read.
fn show_record(
    rt: &HostRuntime,
    index: u64,
    answer: Result<Checked, Refusal>,
) -> io::Result<ControlFlow<()>> {
    let (load, number, size) = match answer {
        Ok(Checked::Reply { number, size }) => (Some(Load::Nothing), number, size),
        Ok(Checked::Pdu { kind, number, size }) => (kinds::load(kind), number, size),
        Err(refusal) => {
            println!(rt; "{index} refused {}", refusal.number())?;
            return Ok(ControlFlow::Break(()));
        }
    };
    // The check has refused a record of an unknown kind before.
    if let Some(load) = load {
        println!(rt; "{index} {} {number} {size}", word(load))?;
    }
    Ok(ControlFlow::Continue(()))
}

// Reads and lists one record, and answers whether the next one is to be read.
fn list_one(
    rt: &HostRuntime,
    buf: &mut [u8; LONGEST_RECORD],
    index: u64,
) -> Result<ControlFlow<()>, Failure> {
    if lines::read_up_to(rt, &mut buf[..1]).map_err(Failure::Input)? == 0 {
        return Ok(ControlFlow::Break(()));
    }
    let end = kinds::record_size(buf[0]);
    let rest = lines::read_up_to(rt, &mut buf[1..end]).map_err(Failure::Input)?;
    show_record(rt, index, records::check(&buf[..1 + rest])).map_err(Failure::Output)
}

// A proved loop has to end: it counts the records, up to more than any input has.
fn list_all(rt: &HostRuntime) -> Result<(), Failure> {
    println!(rt; "record kind number bytes").map_err(Failure::Output)?;
    let mut buf = [0u8; LONGEST_RECORD];
    for index in 0..u64::MAX {
        if list_one(rt, &mut buf, index)?.is_break() {
            break;
        }
    }
    Ok(())
}

fn main(rt: HostRuntime) {
    match list_all(&rt) {
        Ok(()) => {}
        Err(Failure::Input(error)) => show::failed(&rt, "standard input", error),
        Err(Failure::Output(error)) => show::failed(&rt, "standard output", error),
    }
}
