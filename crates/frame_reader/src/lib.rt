// Reading an ARP frame: its fields, or a refusal.
#![tactic(auto)]

ghost use Rattle.std.specs.Prelude.{◌≡◌, ◌≤◌, length, take};
ghost use Rattle.basis.specs.Bytes.{same_bytes};
ghost use Rattle.basis.specs.Frame.{frame_length, request_header, is_known_frame, read_of, read_report};

use basis::{FRAME_LENGTH, Frame, Refusal};
use frame::REQUEST;

// Whether bytes begin with the six of every frame.
fn begins_as_ours(bytes: &[u8]) -> bool
    ensures { result ≡ same_bytes (take 6 bytes.now) (take 6 request_header) }
{
    bytes.starts_with(&REQUEST[..6])
}

// Whether 28 or more bytes begin as ours do, with operation 1 or 2.
#[tactic(auto, unfolding(basis::specs::Frame::is_known_frame))]
fn is_known_frame(bytes: &[u8]) -> bool
    requires { frame_length ≤ length bytes.now }
    ensures { result ≡ is_known_frame bytes.now }
{
    begins_as_ours(bytes) && frame::is_known_operation(frame::number(&bytes[6..8]) as u16)
}

// Reads the first 28 bytes.
#[tactic(auto, unfolding(basis::specs::Frame::read_of, basis::specs::Frame::read_refusal))]
pub fn read(bytes: &[u8]) -> Result<Frame, Refusal>
    ensures { read_report result ≡ read_of bytes.now }
{
    if bytes.len() < FRAME_LENGTH {
        return Err(Refusal::PacketTooShort);
    }
    if !is_known_frame(bytes) {
        return Err(Refusal::FrameUnknown);
    }
    Ok(frame_fields::fields(bytes))
}
