// The bytes of an ARP frame of RFC 826, for Ethernet and IPv4: 28, most significant first.
#![tactic(auto)]

ghost use Rattle.std.specs.Prelude.{◌≡◌, ◌++◌, drop};
ghost use Rattle.basis.specs.Bytes.{bytes_of};
ghost use Rattle.basis.specs.Frame.{request_header, frame_bytes};

use basis::{FRAME_LENGTH, Frame, Host};
use frame::REQUEST;

// The bytes of a host's two addresses.
fn addresses(host: Host) -> [u8; 10]
    ensures { result ≡ bytes_of 6 host.hardware.0 ++ bytes_of 4 host.ip.0 }
{
    let mut bytes = [0; 10];
    bytes[..6].copy_from_slice(&host.hardware.0.to_be_bytes()[2..]);
    bytes[6..].copy_from_slice(&host.ip.0.to_be_bytes());
    bytes
}

// A request's bytes, with the frame's addresses.
#[tactic(auto, unfolding(basis::specs::Frame::frame_bytes))]
fn request(frame: Frame) -> [u8; FRAME_LENGTH]
    ensures { result ≡ request_header ++ drop 8 (frame_bytes frame) }
{
    let mut bytes = [0; FRAME_LENGTH];
    bytes[..8].copy_from_slice(&REQUEST);
    bytes[8..18].copy_from_slice(&addresses(frame.sender));
    bytes[18..].copy_from_slice(&addresses(frame.target));
    bytes
}

// A frame's bytes: those of a request, but for another operation.
#[tactic(auto, unfolding(basis::specs::Frame::frame_bytes))]
pub fn image(frame: Frame) -> [u8; FRAME_LENGTH]
    ensures { result ≡ frame_bytes frame }
{
    let mut bytes = request(frame);
    if frame.operation != 1 {
        bytes[6..8].copy_from_slice(&frame.operation.to_be_bytes());
    }
    bytes
}
