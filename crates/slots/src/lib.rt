// Handing out slots (document 02, R-14): the check of a plan from any source. The planner is in a module of its own, and the check uses
// nothing of it.
#![tactic(auto)]

pub mod planner;
mod rates;
mod refusals;

ghost use Rattle.std.specs.Prelude.{◌≡◌, ◌+◌, ◌-◌, ◌*◌, ◌%◌, ◌^◌, ◌≤◌, ◌<◌, length};
ghost use Rattle.slots.specs.Blocks.{modulus, block_at, block_bytes};
ghost use Rattle.slots.specs.Checking.{every, fits, share, apart_before, good_at, is_plan, verdict};
ghost use Rattle.wire.specs.Bytes.{splice};

use rates::Rates;
pub use refusals::Refusal;

// A block of slots: its set 0, 1 or 2 for A, B or C, its rate, and its first index.
// The set is a number: a plan from any source may have a byte above 2 there, and `share` and `verdict` speak of such a block too.
#[derive(Clone, Copy, Debug, PartialEq, Eq)]
pub struct Block {
    pub set: u8,
    pub rate: u8,
    pub first: u16,
}

// What the check says of a plan for rates that pass. `NotAPlan` is no `Refusal`: each of those has a number, and document 02 gives it none.
#[derive(Clone, Copy, Debug, PartialEq, Eq)]
pub enum Verdict {
    Accepted,
    NotAPlan,
}

// 2 to the exponent.
fn power(exponent: u8) -> u32
    requires { exponent < 32 }
    ensures { (result ≡ 2 ^ exponent) × (0 < result) }
{
    1 << exponent
}

// 2 to the 15 − r; 1 for a rate above 15.
fn modulus_of(rate: u8) -> u32
    ensures { (result ≡ modulus rate) × (0 < result) }
{
    power(15u8.saturating_sub(rate))
}

// That block i lies in the plan stands in each `requires`: it is of the call and not of the plan, which may be of any length.
impl Block {
    // Block i of a plan.
    fn read(plan: &[u8], i: usize) -> Self
        requires { 4 * i + 4 ≤ length plan.now }
        ensures { result ≡ block_at plan.now i }
    {
        let at = 4 * i;
        let set = wire::number_at::<u8>(plan, at);
        let rate = wire::number_at::<u8>(plan, at + 1);
        let first = wire::number_at::<u16>(plan, at + 2);
        Block { set, rate, first }
    }

    // Writes the block at place i of a plan.
    fn put(self, out: &mut [u8], i: usize)
        requires { 4 * i + 4 ≤ length out.old }
        ensures { out.new ≡ splice (4 * i) (block_bytes self) out.old }
    {
        let at = 4 * i;
        wire::put(out, at, self.set);
        wire::put(out, at + 1, self.rate);
        wire::put(out, at + 2, self.first);
    }

    // Whether the block is of a set, has this rate, and a first index below the modulus.
    fn fits(self, rate: u8) -> bool
        ensures { result ≡ fits rate self }
    {
        self.set < 3 && self.rate == rate && u32::from(self.first) < modulus_of(self.rate)
    }

    // Whether two blocks share a slot: one set, and one remainder by the smaller modulus.
    fn shares_slot(self, other: Self) -> bool
        ensures { result ≡ share self other }
    {
        let modulus = modulus_of(self.rate.max(other.rate));
        self.set == other.set && u32::from(self.first) % modulus == u32::from(other.first) % modulus
    }
}

// Whether block i of a plan shares no slot with a block before it. Blocks are read anew for each pair, as the promise, over the plan's bytes,
// has it (`block_at`): a list of them would be scratch of up to 64 blocks, and no plainer.
fn apart_before(plan: &[u8], i: usize) -> bool
    requires { 4 * i + 4 ≤ length plan.now }
    ensures { result ≡ apart_before plan.now i }
{
    let block = Block::read(plan, i);
    (0..i).all(|j| !Block::read(plan, j).shares_slot(block))
}

impl Rates<'_> {
    // Whether block i of a plan fits its rate and stands apart from those before it.
    fn good_at(self, plan: &[u8], i: usize) -> bool
        requires { (i < length self.list.now) × (4 * i + 4 ≤ length plan.now) }
        ensures { result ≡ good_at self.entry.list.now plan.now i }
    {
        Block::read(plan, i).fits(self.list[i]) && apart_before(plan, i)
    }

    // Whether the bytes are a plan for the rates.
    fn has_plan(self, plan: &[u8]) -> bool
        ensures { result ≡ is_plan self.entry.list.now plan.now }
    {
        let n = self.list.len();
        plan.len() == 4 * n && (0..n).all(|i| self.good_at(plan, i))
    }
}

// Accepts a plan from any source, of four bytes for each block (set, rate, first index), exactly if it is one for these rates.
pub fn check(rates: &[u8], plan: &[u8]) -> Result<Verdict, Refusal>
    ensures { result ≡ verdict rates.now plan.now }
{
    if Rates::new(rates)?.has_plan(plan) {
        return Ok(Verdict::Accepted);
    }
    Ok(Verdict::NotAPlan)
}
