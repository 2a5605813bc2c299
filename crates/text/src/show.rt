// What the programs print. After a write that fails a program goes on: its line's end tells of it.
use std::fmt::Display;
use std::io;

// The system's words for a failure, without its number.
fn reason(words: &str) -> &str {
    match words.split_once(" (os error ") {
        Some((reason, _)) => reason,
        None => words,
    }
}

// Writes what failed, and why, as a line on standard error.
fn tell(rt: &HostRuntime, what: &str, error: io::Error) -> io::Result<()> {
    let words = format!(in rt.alloc(); "{error}")?;
    eprintln!(rt; "{what}: {}", reason(words.as_str()))
}

// Tells on standard error what failed. Where that fails too, nobody can be told.
pub fn failed(rt: &HostRuntime, what: &str, error: io::Error) {
    let _ = tell(rt, what, error);
}

// A line. A write of its end that fails is told on standard error.
pub fn line<D: Display + Drop>(rt: &HostRuntime, line: D) {
    let _ = rt.print(line);
    if let Err(error) = rt.write_all(b"\n") {
        failed(rt, "standard output", error);
    }
}

// A call's word and its refusal.
pub fn refused(rt: &HostRuntime, call: &str, n: u8) {
    line(rt, format_args!("{call} refused {n}"));
}

// `bad line N`, where so many lines came before.
pub fn bad_line(rt: &HostRuntime, before: u64) {
    if let Some(number) = before.checked_add(1) {
        line(rt, format_args!("bad line {number}"));
    }
}
