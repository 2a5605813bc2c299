// The lines that are read and printed.
use std::fmt::Display;
use text::words::Words;

// A line: the kind or the units, and how many times.
#[derive(Clone, Copy, Debug, PartialEq, Eq)]
pub enum Job {
    // `cycle KIND TIMES`
    Cycle { kind: u8, times: u64 },
    // `heard UNITS TIMES`
    Heard { units: u16, times: u64 },
}

const MOST_TIMES: u64 = 999999999;

fn read_times(words: &mut Words) -> Option<u64> {
    let times = words.number()?;
    (times <= MOST_TIMES).then_some(times)
}

// Reads a line without its end.
pub fn read(line: &[u8]) -> Option<Job> {
    let mut words = Words::of(line);
    let job = match words.word()? {
        b"cycle" => Job::Cycle {
            kind: words.number()?,
            times: read_times(&mut words)?,
        },
        b"heard" => Job::Heard {
            units: words.number()?,
            times: read_times(&mut words)?,
        },
        _ => return None,
    };
    words.is_empty().then_some(job)
}

// A line. A write of its end that fails is told on standard error, in fixed words: the system's, as `text::show::line` tells them, take memory, and
// `bench` would rest on four assumed contracts more (docs/AUDIT.md).
pub fn show<D: Display + Drop>(rt: &HostRuntime, line: D) {
    let _ = rt.print(line);
    if rt.write_all(b"\n").is_err() {
        let _ = eprintln!(rt; "standard output: a write failed");
    }
}
