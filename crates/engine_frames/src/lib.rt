// The frames that we send: requests with our hardware address, where the target's is unknown.
#![tactic(auto)]

ghost use Rattle.std.specs.Prelude.{◌≡◌};
ghost use Rattle.basis.specs.Frame as Spec;
ghost use Rattle.basis_engine.specs.Interface.{sender_of};
ghost use Rattle.engine_frames.specs.OurFrames.{request_of};

use basis::{Frame, HardwareAddress, Host, Ipv4Address, Setup};

// A request about an address.
fn request(setup: Setup, ip: Ipv4Address, address: Ipv4Address) -> Frame
    ensures { result ≡ request_of (sender_of setup) ip address }
{
    Frame {
        operation: 1,
        sender: Host {
            hardware: setup.hardware,
            ip,
        },
        target: Host {
            hardware: HardwareAddress(0),
            ip: address,
        },
    }
}

// Asks whether an address is used, without saying that it is ours.
#[tactic(auto, unfolding(basis::specs::Frame::probe))]
pub fn probe(setup: Setup, address: Ipv4Address) -> Frame
    ensures { result ≡ Spec.probe (sender_of setup) address }
{
    request(setup, Ipv4Address(0), address)
}

// Says that an address is ours. A defence is the same.
#[tactic(auto, unfolding(basis::specs::Frame::announcement))]
pub fn announcement(setup: Setup, address: Ipv4Address) -> Frame
    ensures { result ≡ Spec.announcement (sender_of setup) address }
{
    request(setup, address, address)
}
