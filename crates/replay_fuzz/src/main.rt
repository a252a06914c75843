// The replay again, on the fixed lines of tests/fuzz; what it must write are the twin's answers.
// A program of its own beside `replay`, for an input and an output of its own.
#![tactic(auto)]

fn main(rt: HostRuntime) {
    replay_driver::run(&rt);
}
