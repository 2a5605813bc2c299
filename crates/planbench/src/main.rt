// Plans for 64 rates, or checks a plan for them, so many times: the work that `make bench` times. Standard input is `plan TIMES` or `check TIMES`;
// what is printed sums up what came of it, so that two programs can be compared.
#![tactic(auto)]

use slots::Verdict;

const RATES: usize = 64;

const PLAN: usize = 4 * RATES;

// The sum of what the turns gave is kept below this.
const MODULUS: u64 = 1000003;

// The digits' number in a text, at most some billions; other bytes are passed over, and the first one alone tells the job (`main`).
// `text::words` would refuse some of these texts: what is printed for each may not change.
fn times_in(text: &[u8]) -> u64 {
    text.iter()
        .filter(|byte| byte.is_ascii_digit())
        .fold(0, |number: u64, byte| with_digit(number, byte - b'0'))
}

fn with_digit(number: u64, digit: u8) -> u64 {
    if 1000000000 < number {
        return number;
    }
    number * 10 + u64::from(digit)
}

// The rates of the job: 0 to 10 over and over, which fit in every order.
fn job_rates() -> [u8; RATES] {
    let mut rates = [0u8; RATES];
    for (i, rate) in rates.iter_mut().enumerate() {
        *rate = (i % 11) as u8;
    }
    rates
}

// One rate changes, and the plan is made anew: its first index's lower byte, and 0 in the sum where there is no plan.
fn plan_turn(turn: u64, rates: &mut [u8; RATES], plan: &mut [u8; PLAN]) -> u64 {
    let at = (turn % 64) as usize;
    rates[at] = (rates[at] % 11 + 1) % 11;
    match slots::planner::plan(rates, plan) {
        Ok(_) => u64::from(plan[4 * at + 3]),
        Err(_) => 0,
    }
}

// The last block's first index changes by one, and the plan is checked.
fn check_turn(rates: &[u8], plan: &mut [u8; PLAN]) -> u64 {
    plan[PLAN - 1] ^= 1;
    u64::from(matches!(slots::check(rates, plan), Ok(Verdict::Accepted)))
}

// The sum of what the turns gave.
fn run<F: FnMut(u64) -> u64>(times: u64, mut turn: F) -> u64
    requires { (f : _) (n : _) → F.pre f n }
{
    let mut sum: u64 = 0;
    for n in 0..times {
        sum = (sum + turn(n) % MODULUS) % MODULUS;
    }
    sum
}

fn main(rt: HostRuntime) {
    let mut input = [0u8; text::ROOM];
    let n = text::lines::read_full(&rt, &mut input);
    let times = times_in(&input[..n]);
    let mut rates = job_rates();
    let mut plan = [0u8; PLAN];
    let _ = slots::planner::plan(&rates, &mut plan);
    let sum = if input[0] == b'p' {
        run(times, |turn| plan_turn(turn, &mut rates, &mut plan))
    } else {
        run(times, |_| check_turn(&rates, &mut plan))
    };
    let _ = println!(rt; "{sum}");
}
