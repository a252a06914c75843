// The fields of an ARP frame of RFC 826, for Ethernet and IPv4: of 28 bytes, most significant first.
#![tactic(auto)]

ghost use Rattle.std.specs.Prelude.{◌≡◌, ◌≤◌, length};
ghost use Rattle.basis.specs.Bytes.{number_at};
ghost use Rattle.basis.specs.Frame.{frame_length, frame_of};

use basis::{Frame, HardwareAddress, Host, Ipv4Address};
use frame::number;

// The two addresses in a host's ten bytes.
fn host(bytes: &[u8]) -> Host
    requires { length bytes.now ≡ 10 }
    ensures hardware { result.hardware.0 ≡ number_at 0 6 bytes.now }
    ensures ip { result.ip.0 ≡ number_at 6 4 bytes.now }
{
    Host {
        hardware: HardwareAddress(number(&bytes[..6])),
        ip: Ipv4Address(number(&bytes[6..]) as u32),
    }
}

// The fields of 28 or more bytes.
#[tactic(auto, unfolding(basis::specs::Frame::frame_of))]
pub fn fields(bytes: &[u8]) -> Frame
    requires { frame_length ≤ length bytes.now }
    ensures { result ≡ frame_of bytes.now }
{
    Frame {
        operation: number(&bytes[6..8]) as u16,
        sender: host(&bytes[8..18]),
        target: host(&bytes[18..28]),
    }
}
