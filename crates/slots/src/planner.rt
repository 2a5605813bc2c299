// The planner: names a block for each rate, in the rates' order (document 02, R-14). Blocks stand by falling rate one behind the other on
// a line of the three sets; a block's start there gives its set, and read with its bits reversed its first index.
ghost use Rattle.std.specs.Prelude.{◌≡◌, ◌+◌, ◌*◌, ◌%◌, ◌^◌, ◌≤◌, ◌<◌, length, cond, IfOk};
ghost use Rattle.wire.specs.Bytes.{splice};
ghost use Rattle.slots.specs.Blocks.{slot_count};
ghost use Rattle.slots.specs.Planning.{wanted, rank, size_at, size_before, start_at, block_from, block_for, overfull};
ghost use Rattle.slots.specs.Planning.{plan_of, plan_rules, planned, plan_left};
ghost use Rattle.slots.specs.Refusals.{refused};

use super::rates::Rates;
use super::{Block, Refusal, power};

// The slots of all three sets.
const ALL_SLOTS: u32 = 98304;

// The block of a rate that starts at a place of the line. Sixteen bits are reversed: the fifteen of a place in its set stand one bit up.
fn block_from(rate: u8, start: u32) -> Block
    requires { (rate ≤ 15) × (start < slot_count) }
    ensures { result ≡ block_from rate start }
{
    let set = (start / 32768) as u8;
    let place = (start % 32768 * 2) as u16;
    let first = (u32::from(place.reverse_bits()) % power(15 - rate)) as u16;
    Block { set, rate, first }
}

// That i is a place of the list stands in each `requires`: it is of the call and not of the rates, so that a type for it would be no plainer.
impl<'a> Rates<'a> {
    // How many slots block i has.
    fn size_at(self, i: usize) -> u32
        requires { i < length self.list.now }
        ensures { (result ≡ size_at self.entry.list.now i) × (result ≤ 32768) }
    {
        power(self.list[i])
    }

    // A block's place in the order on the line: one number, as `rank` (specs/Planning) has it.
    fn rank_of(self, i: usize) -> usize
        requires { i < length self.list.now }
        ensures { result ≡ rank self.entry.list.now i }
    {
        usize::from(15 - self.list[i]) * 64 + i
    }

    // What block j takes of the line before block i.
    fn size_before(self, i: usize, j: usize) -> u32
        requires { (i < length self.list.now) × (j < length self.list.now) }
        ensures { (result ≡ size_before self.entry.list.now i j) × (result ≤ 32768) }
    {
        if self.rank_of(j) < self.rank_of(i) {
            return self.size_at(j);
        }
        0
    }

    // Where block i starts on the line.
    fn start_at(self, i: usize) -> u32
        requires { i < length self.list.now }
        ensures { result ≡ start_at self.entry.list.now i }
    {
        (0..self.list.len()).map(|j| self.size_before(i, j)).sum()
    }

    // How many slots the rates want.
    fn wanted(self) -> u32
        ensures { result ≡ wanted self.entry.list.now }
    {
        (0..self.list.len()).map(|i| self.size_at(i)).sum()
    }

    // The rates as a line for which there is room, or 63.
    fn line(self) -> Result<Line<'a>, Refusal>
        ensures refused { refused result ≡ cond (overfull self.entry.list.now) 63 0 }
        ensures rates { IfOk result (λ line. line.rates.list.now ≡ self.entry.list.now) }
    {
        if ALL_SLOTS < self.wanted() {
            return Err(Refusal::NoPlan);
        }
        Ok(Line { rates: self })
    }
}

// The blocks of rates for which there is room on the line.
#[derive(Clone, Copy)]
struct Line<'a> {
    rates: Rates<'a>,
    ghost room: { wanted rates.list.now ≤ slot_count },
}

impl Line<'_> {
    // Our block for rate i.
    fn block_for(self, i: usize) -> Block
        requires { i < length self.rates.list.now }
        ensures { result ≡ block_for self.entry.rates.list.now i }
    {
        block_from(self.rates.list[i], self.rates.start_at(i))
    }

    // Writes the whole plan at the output's start.
    fn put(self, out: &mut [u8])
        requires { 4 * length self.rates.list.now ≤ length out.old }
        ensures { out.new ≡ splice 0 (plan_of self.entry.rates.list.now) out.old }
    {
        // Over the places' numbers: block i is of rate i, and stands at place i of the output.
        for i in 0..self.rates.list.len() {
            self.block_for(i).put(out, i);
        }
    }
}

// Writes a plan for the rates from the start of `out`, four bytes for each block (set, rate, first index), and answers its size; or answers
// 61, 62, 63 or 16 and writes nothing.
pub fn plan(rates: &[u8], out: &mut [u8]) -> Result<usize, Refusal>
    ensures answer { result ≡ planned rates.now (length out.old) }
    ensures output { out.new ≡ plan_left rates.now out.old }
{
    let line = Rates::new(rates)?.line()?;
    let size = 4 * rates.len();
    if out.len() < size {
        return Err(Refusal::NoRoom);
    }
    line.put(out);
    Ok(size)
}
