// The refusals of the check and the planner (document 02, R-14; 16 is document 01's).
ghost use Rattle.std.specs.Prelude.{◌≡◌};

// Each with its number there.
#[derive(Clone, Copy, Debug, PartialEq, Eq)]
pub enum Refusal {
    // More than 64 rates.
    ManyRates = 61,
    // A rate above 15.
    HighRate = 62,
    // No plan exists.
    NoPlan = 63,
    // The lent output is shorter than the plan.
    NoRoom = 16,
}

impl Refusal {
    ghost use Rattle.slots.specs.Refusals.{number};

    // The number that the documents give it.
    pub fn number(self) -> u8
        ensures { result ≡ number self }
    {
        self as u8
    }
}
