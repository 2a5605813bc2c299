// Reads rates from standard input, one a line, then a line `-`, then blocks, a line `SET FIRST RATE` each, and prints whether the blocks are a
// plan for the rates: `accepted`, `not a plan`, or `refused N` for rates that no plan can be for. A line that cannot be read is `bad line N`.
#![tactic(auto)]

use plantext::Phase;
use slots::Verdict;

// Checks the plan for the rates, and prints what came of it. A write that fails is not told.
fn answer(rt: &HostRuntime, rates: &[u8], plan: &[u8]) {
    let _ = match slots::check(rates, plan) {
        Ok(Verdict::Accepted) => println!(rt; "accepted"),
        Ok(Verdict::NotAPlan) => println!(rt; "not a plan"),
        Err(refusal) => println!(rt; "refused {}", refusal.number()),
    };
}

fn main(rt: HostRuntime) {
    match plantext::read(&rt, Phase::RatesThenDash) {
        Ok(input) => answer(&rt, input.rates.as_slice(), input.plan.as_slice()),
        Err(failure) => failure.tell(&rt),
    }
}
