// Reads rates from standard input, one a line, and prints a plan for them: a line `SET FIRST RATE` for each block, in the rates' order; or
// `refused N`. A line that cannot be read is `bad line N`.
#![tactic(auto)]

use plantext::Phase;

// The line of a block, whose four bytes are set, rate and first index: R-14's form, which `slots::planner::plan` promises. A public function
// of `slots` that read them would be no plainer than the pattern here.
fn print_block(rt: &HostRuntime, block: &[u8]) {
    if let [set, rate, high, low] = *block {
        let letter = match set {
            0 => 'A',
            1 => 'B',
            _ => 'C',
        };
        let _ = println!(rt; "{letter} {} {rate}", u16::from_be_bytes([high, low]));
    }
}

// Plans for the rates, and prints what came of it. A write that fails is not told.
fn answer(rt: &HostRuntime, rates: &[u8]) {
    let mut plan = [0u8; text::ROOM];
    match slots::planner::plan(rates, &mut plan) {
        Ok(size) => plan
            .chunks_exact(4)
            .take(size / 4)
            .for_each(|block| print_block(rt, block)),
        Err(refusal) => {
            let _ = println!(rt; "refused {}", refusal.number());
        }
    }
}

fn main(rt: HostRuntime) {
    match plantext::read(&rt, Phase::Rates) {
        Ok(input) => answer(&rt, input.rates.as_slice()),
        Err(failure) => failure.tell(&rt),
    }
}
