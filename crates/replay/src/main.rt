// Replays the lines of standard input: an answer a line on standard output.
// The other three programs that are this one have an input and an output each, which the gate compares.
#![tactic(auto)]

fn main(rt: HostRuntime) {
    replay_driver::run(&rt);
}
