// Rates that pass 61 and 62: the check and the planner go on with these alone.
ghost use Rattle.std.specs.Prelude.{◌≡◌, IfOk};
ghost use Rattle.wire.specs.First.{first};
ghost use Rattle.slots.specs.Checking.{all_low, rate_rules};
ghost use Rattle.slots.specs.Plain.{Pass};
ghost use Rattle.slots.specs.Refusals.{refused};

use super::Refusal;

// The most rates of a plan.
const MOST_RATES: usize = 64;

#[derive(Clone, Copy)]
pub(crate) struct Rates<'a> {
    pub(crate) list: &'a [u8],
    ghost pass: { Pass list.now },
}

// Whether no rate is above 15.
fn all_low(rates: &[u8]) -> bool
    ensures { result ≡ all_low rates.now }
{
    rates.iter().all(|rate| *rate <= 15)
}

impl<'a> Rates<'a> {
    // The rates, or the first of 61 and 62 that refuses them.
    pub(crate) fn new(list: &'a [u8]) -> Result<Self, Refusal>
        ensures refused { refused result ≡ first (rate_rules list.now) }
        ensures list { IfOk result (λ rates. rates.list.now ≡ list.now) }
    {
        if MOST_RATES < list.len() {
            return Err(Refusal::ManyRates);
        }
        if !all_low(list) {
            return Err(Refusal::HighRate);
        }
        Ok(Rates { list })
    }
}
