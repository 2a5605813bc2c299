// Runs jobs on the proved calls, one a line from standard input, and prints a line for each: the work that `make bench` times.
//   cycle KIND TIMES    an offer, a send, an arrival and a reply, of a PDU of this record kind
//   heard UNITS TIMES   a PPLI from the last of so many units that a station holds
#![tactic(auto)]

mod cycles;
mod datagrams;
mod lines;
mod stations;

use lines::Job;
use text::lines::INPUT;

// Runs the job of a line, which ends in a line end. None where it cannot be run.
fn run(rt: &HostRuntime, line: &[u8]) -> Option<()> {
    match lines::read(line.strip_suffix(b"\n")?)? {
        Job::Cycle { kind, times } => cycles::run(rt, kind, times),
        Job::Heard { units, times } => stations::run(rt, units, times),
    }
}

// Runs every line, up to the first that cannot be run. `text::lines::run` takes a last line without its end too, and tells a read that fails in the
// system's words, as `text::show::line` does.
fn run_all(rt: &HostRuntime, input: &[u8]) {
    for (before, line) in input.split_inclusive(|c| *c == b'\n').enumerate() {
        if run(rt, line).is_none() {
            return lines::show(rt, format_args!("bad line {}", before + 1));
        }
    }
}

// Behind 65,536 bytes the input is not read.
fn main(rt: HostRuntime) {
    let mut input = [0u8; INPUT];
    let n = text::lines::read_full(&rt, &mut input);
    run_all(&rt, &input[..n]);
}
