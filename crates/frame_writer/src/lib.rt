// Writing an ARP frame: its 28 bytes to the start of the out buffer, or a refusal.
#![tactic(auto)]

ghost use Rattle.std.specs.Prelude.{◌≡◌, length};
ghost use Rattle.basis.specs.Frame.{is_writable, write_of, write_out, write_report};

use basis::{FRAME_LENGTH, Frame, HARDWARE_END, Refusal};

// Whether a frame has operation 1 or 2 and hardware addresses of 48 bits.
#[tactic(auto, unfolding(basis::specs::Frame::is_writable))]
fn is_writable(frame: Frame) -> bool
    ensures { result ≡ is_writable frame }
{
    frame::is_known_operation(frame.operation)
        && frame.sender.hardware < HARDWARE_END
        && frame.target.hardware < HARDWARE_END
}

// Writes a frame to the first 28 bytes, or nothing.
#[tactic(auto, using(crate::proofs::WriterLaws::unwritable), unfolding(basis::specs::Frame::write_of, basis::specs::Frame::write_refusal, basis::specs::Frame::write_out, basis::specs::Frame::frame_put))]
pub fn write(frame: Frame, out: &mut [u8]) -> Result<(), Refusal>
    ensures { (write_report result ≡ write_of frame (length out.old)) × (out.new ≡ write_out frame out.old) }
{
    let Some(start) = out.first_chunk_mut::<FRAME_LENGTH>() else {
        return Err(Refusal::BufferTooShort);
    };
    if !is_writable(frame) {
        return Err(Refusal::FrameUnknown);
    }
    *start = frame_image::image(frame);
    Ok(())
}
