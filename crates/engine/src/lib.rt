// The five calls of a port, each for any state and any arguments. The state goes in and comes back by value, after a refusal as
// it was.
#![tactic(auto)]

ghost use Rattle.std.specs.Prelude.{[]};
ghost use Rattle.basis.specs.declared.Call.TheVariants as Calls;
ghost use Rattle.basis_engine.specs.Machine.{Promised};

use basis::{Call, Called, Interface, Ipv4Address, Setup, Time};
use engine_admission::Judged;

// A call on any state.
fn perform(state: Interface, call: Call, bytes: &[u8], out: &mut [u8]) -> Called
    ensures { Promised state call bytes.now out.old result.answer result.state out.new }
{
    engine_calls::perform(&Judged::new(state), call, bytes, out).called
}

// A call to which nothing is lent.
fn perform_alone(state: Interface, call: Call) -> Called
    ensures { Promised state call [] [] result.answer result.state [] }
{
    perform(state, call, &[], &mut [])
}

// Makes a new interface, in place of the one handed in.
pub fn fresh(state: Interface, setup: Setup) -> Called
    ensures { Promised state (Calls.Fresh setup) [] [] result.answer result.state [] }
{
    engine_port::fresh(state, setup)
}

// Asks for an address: its claim takes the lowest free slot.
pub fn ask(state: Interface, time: Time, address: Ipv4Address, policy: u64, draw: u32) -> Called
    ensures { Promised state (Calls.Ask time address policy draw) [] [] result.answer result.state [] }
{
    let call = Call::Ask {
        time,
        address,
        policy,
        draw,
    };
    perform_alone(state, call)
}

// Sends the one frame that is due first, if any.
pub fn tick(state: Interface, time: Time, draw: u32, out: &mut [u8]) -> Called
    ensures { Promised state (Calls.Tick time draw) [] out.old result.answer result.state out.new }
{
    perform(state, Call::Tick { time, draw }, &[], out)
}

// An ARP packet came in.
pub fn packet(state: Interface, time: Time, bytes: &[u8], out: &mut [u8]) -> Called
    ensures { Promised state (Calls.Packet time) bytes.now out.old result.answer result.state out.new }
{
    perform(state, Call::Packet { time }, bytes, out)
}

// Frees a slot.
pub fn drop(state: Interface, time: Time, slot: u64) -> Called
    ensures { Promised state (Calls.Drop time slot) [] [] result.answer result.state [] }
{
    perform_alone(state, Call::Drop { time, slot })
}
