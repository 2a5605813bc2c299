// Replays a list of calls on both ends of the trunk, one a line from standard input, and prints what each call gave and how both ends stand.
#![tactic(auto)]

mod answers;
mod calls;
mod script;
mod units;

use calls::State;
use script::Before;
use text::lines;

fn main(rt: HostRuntime) {
    let mut state = State::new();
    if lines::run(&rt, |line| state.run(&rt, line)) && state.before != Before::Nothing {
        units::show_ends(&rt, state.near, state.far);
    }
}
