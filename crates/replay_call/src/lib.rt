// A call made, and the text of its answer, for which there is to be room (crate print_answer).
#![tactic(auto)]

ghost use Rattle.std.specs.Prelude.{◌≤◌, ◌≡◌, length, Some};
ghost use Rattle.basis.specs.Answers.{refusal_number};
ghost use Rattle.basis.specs.declared.Refusal.TheVariants.{LineMalformed};
ghost use Rattle.basis_lines.specs.Forms.{made};
ghost use Rattle.basis_lines.specs.Answers.{longest_answer, written, refused_text, answer_to};
ghost use Rattle.print_answer.specs.AcceptedText.{bytes_of};
ghost use Rattle.replay_call.specs.AnswerText.{answer_text, Gives};

use basis::{Answer, Call, FRAME_LENGTH, Refusal};
use basis_lines::AnsweredLine;
use engine_admission::Judged;
use engine_calls::Performed;

// The answer to a line that is not in the form. Answers how many bytes were written.
pub fn malformed(out: &mut [u8]) -> usize
    requires { longest_answer ≤ length out.old }
    ensures value { result ≡ length (refused_text (refusal_number LineMalformed)) }
    ensures out_after { out.new ≡ written (refused_text (refusal_number LineMalformed)) out.old }
{
    print_answer::refused(Refusal::LineMalformed, out)
}

// The text of an answer, with the frame that was sent, if one was.
#[tactic(auto, unfolding(crate::specs::AnswerText::answer_text))]
fn put_answer(answer: Answer, frame: Option<&[u8; FRAME_LENGTH]>, out: &mut [u8]) -> usize
    requires { longest_answer ≤ length out.old }
    ensures value { result ≡ length (answer_text answer (bytes_of frame.entry)) }
    ensures out_after { out.new ≡ written (answer_text answer (bytes_of frame.entry)) out.old }
{
    match answer {
        Ok(success) => print_answer::accepted(success, frame, out),
        Err(refusal) => print_answer::refused(refusal, out),
    }
}

// Any call, with the bytes of a packet, and its answer's text.
pub fn perform(judged: &Judged, call: Call, bytes: &[u8], out: &mut [u8]) -> AnsweredLine
    requires { longest_answer ≤ length out.old }
    ensures { Gives (answer_to judged.now.state (Some (made call bytes.now))) result.state result.written out.old out.new }
{
    let mut frame = [0; FRAME_LENGTH];
    let Performed { called, sent } = engine_calls::perform(judged, call, bytes, &mut frame);
    let written = put_answer(called.answer, sent.then_some(&frame), out);
    AnsweredLine {
        state: called.state,
        written,
    }
}
