// Standard input: its lines, one at a time, or all of it at once.
ghost use Rattle.std.specs.Prelude.{◌≡◌, ◌+◌, ◌≤◌, [], IfOk, IfSome, length, position};
ghost use Rattle.text.specs.Lines.{is_line_end};

use crate::show;
use std::io;
use std::io::Read;
use std::marker::Model;

// A line of this length or more cannot be read.
pub const INPUT: usize = 65536;

// Why there is no line.
#[derive(Drop)]
enum Trouble {
    TooLong,
    Failed(io::Error),
}

impl From<io::Error> for Trouble {
    fn from(error: io::Error) -> Trouble {
        Trouble::Failed(error)
    }
}

// The bytes that were read and not yet handed out: from `start` up to `end`. Std's `BufReader` allocates, and no program does so for what it
// reads (docs/DECISIONS.md).
#[derive(Drop)]
struct Lines {
    buf: [u8; INPUT],
    start: usize,
    end: usize,
}

impl Model for Lines {
    ghost use Rattle.std.specs.Prelude.{ℕ, List, ◌≤◌, ◌-◌, take, drop};
    ghost use Rattle.text.specs.declared.lines.TheConstants.{INPUT};

    ghost Value = { List ℕ };

    ghost view = { λ l. take (l.end - l.start) (drop l.start l.buf) };

    ghost invariant = { λ l. (l.start ≤ l.end) × (l.end ≤ INPUT) };
}

impl Lines {
    // Before the first read.
    fn new() -> Lines
        ensures { result ≡ [] }
    {
        Lines {
            buf: [0u8; INPUT],
            start: 0,
            end: 0,
        }
    }

    // The length of the first whole line held.
    fn line_length(&self) -> Option<usize>
        ensures { result ≡ position is_line_end self.now }
    {
        self.buf[self.start..self.end]
            .iter()
            .position(|c| *c == b'\n')
    }

    // Moves the bytes held to the buffer's start.
    fn move_down(&mut self)
        ensures { self.new ≡ self.old }
    {
        self.buf.copy_within(self.start..self.end, 0);
        self.end -= self.start;
        self.start = 0;
    }

    // One read behind the bytes held: how many bytes it brought.
    fn read_more(&mut self, rt: &HostRuntime) -> Result<usize, Trouble>
        ensures { IfOk result (λ n. (length self.new ≡ length self.old + n) × (length self.new ≤ INPUT)) }
    {
        self.move_down();
        if self.end == INPUT {
            return Err(Trouble::TooLong);
        }
        let n = rt.stdin().read(&mut self.buf[self.end..])?;
        self.end += n;
        Ok(n)
    }

    // Reads until a whole line is held, or the last, which may lack its end: the line's length.
    fn hold_line(&mut self, rt: &HostRuntime) -> Result<Option<usize>, Trouble>
        ensures { IfOk result (λ found. IfSome found (λ n. n ≤ length self.new)) }
    {
        let mut length = self.line_length();
        while length.is_none() && 0 < self.read_more(rt)? {
            length = self.line_length();
        }
        if length.is_none() && self.start < self.end {
            return Ok(Some(self.end - self.start));
        }
        Ok(length)
    }

    // The next line, without its end.
    fn line(&mut self, rt: &HostRuntime) -> Result<Option<&[u8]>, Trouble> {
        let Some(n) = self.hold_line(rt)? else {
            return Ok(None);
        };
        let line = self.start..self.start + n;
        self.start = self.end.min(line.end + 1);
        let lines = &*self;
        Ok(Some(&lines.buf[line]))
    }
}

// Reads until `buf` is full, the input ends or a read fails: how many bytes are at the start of `buf`, and the failure.
fn fill(rt: &HostRuntime, buf: &mut [u8]) -> (usize, io::Result<()>)
    ensures { result.0 ≤ length buf.new }
{
    // Std's readings say of a failure not how far they came.
    let mut done = 0;
    while done < buf.len() {
        match rt.stdin().read(&mut buf[done..]) {
            Ok(0) => break,
            Ok(n) => done += n,
            Err(error) => return (done, Err(error)),
        }
    }
    (done, Ok(()))
}

// Reads until `buf` is full or the input ends: how many bytes are at the start of `buf`.
pub fn read_up_to(rt: &HostRuntime, buf: &mut [u8]) -> io::Result<usize>
    ensures { IfOk result (λ n. n ≤ length buf.new) }
{
    let (done, ended) = fill(rt, buf);
    ended?;
    Ok(done)
}

// The same, or until a read fails, of which nothing is told: the planner's programs and `bench` go on with what was read, where the lister tells
// of the failure.
pub fn read_full(rt: &HostRuntime, buf: &mut [u8]) -> usize
    ensures { result ≤ length buf.new }
{
    let (done, _) = fill(rt, buf);
    done
}

// Runs every line in turn, and answers whether the input's end was reached. A line that is too long, or for which `run` gives none, cannot be
// read: it is shown as `bad line N`, and ends the run, as a read that fails does. That is told on standard error. `run` gives an `Option`, as
// `word()?` does: a line that cannot be read has no reason to tell.
pub fn run<F: FnMut(&[u8]) -> Option<()>>(rt: &HostRuntime, mut run: F) -> bool
    requires { F.IsAlwaysCallable run }
{
    let mut lines = Lines::new();
    // A proved loop has to end: it counts the lines, up to more than any input has.
    for before in 0..u64::MAX {
        let ran = match lines.line(rt) {
            Ok(Some(line)) => run(line),
            Ok(None) => return true,
            Err(Trouble::TooLong) => None,
            Err(Trouble::Failed(error)) => {
                show::failed(rt, "standard input", error);
                return false;
            }
        };
        if ran.is_none() {
            show::bad_line(rt, before);
            return false;
        }
    }
    false
}
