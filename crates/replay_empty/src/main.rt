// The replay again, on another file: no input at all.
// A program of its own beside `replay`, for an input and an output of its own.
#![tactic(auto)]

fn main(rt: HostRuntime) {
    replay_driver::run(&rt);
}
