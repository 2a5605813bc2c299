// The text that the programs `planner` and `plancheck` read: rates one a line, a line `-`, and blocks as `SET FIRST RATE` one a line.
#![tactic(auto)]

mod line;
mod list;

ghost use Rattle.std.specs.Prelude.{◌≡◌, true, false, MatchResult, OnOk};
ghost use Rattle.plantext.specs.Inputs.{may_come, phase_after, rates_after, with_block, plan_after};
ghost use Rattle.plantext.specs.Lists.{items};

use line::Line;
pub use list::ByteList;
use std::io;
use std::io::Read;
use text::lines;

// Which lines may come: rates alone; rates and then a dash; blocks behind the dash.
#[derive(Clone, Copy, Debug, PartialEq, Eq)]
pub enum Phase {
    Rates,
    RatesThenDash,
    Blocks,
}

// A line that cannot be read, or may not come where it stands.
#[derive(Clone, Copy, Debug, PartialEq, Eq)]
struct BadLine;

// Why a text brings nothing: it cannot be read, or one of its lines, before which so many came.
#[derive(Debug, Drop)]
pub enum Failure {
    Read(io::Error),
    BadLine(u64),
}

impl From<io::Error> for Failure {
    ghost use Rattle.plantext.specs.declared.Failure.TheVariants.{Read};

    ghost from_gives = { λ error failure. failure ≡ Read error };

    fn from(error: io::Error) -> Self {
        Failure::Read(error)
    }
}

impl Failure {
    // Tells of a text that cannot be read on standard error, and of a line on standard output. A write that fails is not told, where
    // `text::show::bad_line` tells of it.
    pub fn tell(self, rt: &HostRuntime) {
        match self {
            Failure::Read(error) => text::show::failed(rt, "standard input", error),
            Failure::BadLine(before) => {
                let _ = println!(rt; "bad line {}", before.saturating_add(1));
            }
        }
    }
}

// Puts a block's four bytes behind a plan, the set as slots' number: in R-14's form, which this crate has without `slots` (its definition is `with_block`).
fn push_block(plan: &mut ByteList, set: u8, first: u16, rate: u8)
    ensures { items plan.new ≡ with_block (items plan.old) set first rate }
{
    let [high, low] = first.to_be_bytes();
    plan.push(set);
    plan.push(rate);
    plan.push(high);
    plan.push(low);
}

// What was read so far: how many lines, which may come, the rates, and the bytes of a plan.
#[derive(Clone, Copy)]
pub struct Input {
    pub lines: u64,
    pub phase: Phase,
    pub rates: ByteList,
    pub plan: ByteList,
}

impl Input {
    fn new(phase: Phase) -> Self {
        Input {
            lines: 0,
            phase,
            rates: ByteList::new(),
            plan: ByteList::new(),
        }
    }

    // Takes what a line says, where such a line may come.
    fn take(&mut self, line: Line) -> Result<(), BadLine>
        ensures may { MatchResult result (λ _. may_come self.old.phase line ≡ true) (λ _. may_come self.old.phase line ≡ false) }
        ensures phase { OnOk result (self.new.phase ≡ phase_after self.old.phase line) }
        ensures rates { OnOk result (items self.new.rates ≡ rates_after (items self.old.rates) line) }
        ensures plan { OnOk result (items self.new.plan ≡ plan_after (items self.old.plan) line) }
    {
        match line {
            Line::Rate(rate) if self.phase != Phase::Blocks => self.rates.push(rate),
            Line::Dash if self.phase == Phase::RatesThenDash => self.phase = Phase::Blocks,
            Line::Block { set, first, rate } if self.phase == Phase::Blocks => {
                push_block(&mut self.plan, set, first, rate);
            }
            _ => return Err(BadLine),
        }
        Ok(())
    }

    // Takes the lines of a text. They are counted in a field: behind the last one, too, `read` tells how many came, which `enumerate` would not.
    fn take_lines(&mut self, text: &[u8]) -> Result<(), BadLine> {
        for line in text.split_inclusive(|byte| *byte == b'\n') {
            self.take(Line::read(line).ok_or(BadLine)?)?;
            self.lines = self.lines.saturating_add(1);
        }
        Ok(())
    }
}

// Reads the lines of standard input, where rates alone may come, or rates, a dash and blocks. Of a text that does not fit only the start is
// read, and then the next line is the bad one; so is the one that should have a dash, where none came.
pub fn read(rt: &HostRuntime, phase: Phase) -> Result<Input, Failure> {
    let mut text = [0u8; lines::INPUT];
    let n = lines::read_full(rt, &mut text);
    let mut more = [0u8; 1];
    let whole = rt.stdin().read(&mut more)? == 0;
    let mut input = Input::new(phase);
    let taken = input.take_lines(&text[..n]);
    if taken.is_ok() && whole && input.phase != Phase::RatesThenDash {
        return Ok(input);
    }
    Err(Failure::BadLine(input.lines))
}
