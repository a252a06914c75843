// A line's command carried out, on a state of which it is known whether it is sound. For the answer there is to be room (crate
// print_answer).
#![tactic(auto)]

ghost use Rattle.std.specs.Prelude.{◌≤◌, ◌≡◌, length};
ghost use Rattle.basis_lines.specs.Answers.{malformed, longest_answer};
ghost use Rattle.basis_lines.specs.Stream.{ended_answer};
ghost use Rattle.replay_call.specs.AnswerText.{Gives};

use basis::FRAME_LENGTH;
use basis_lines::AnsweredLine;
use engine_admission::Judged;
use parse_forms::Parsed;

// The answer to a line that is not in the form: the state stays.
fn refuse(judged: &Judged, out: &mut [u8]) -> AnsweredLine
    requires { longest_answer ≤ length out.old }
    ensures { Gives (malformed judged.now.state) result.state result.written out.old out.new }
{
    AnsweredLine {
        state: judged.state,
        written: replay_call::malformed(out),
    }
}

// What a line comes to. Where `skipping`, it is the end of one that is too long: "A line that is too long is one record up to its
// byte 10 and gives one refusal."
#[tactic(auto, using(crate::proofs::CommandLaws::line_ends))]
pub fn answer_line(judged: &Judged, skipping: bool, line: &[u8], out: &mut [u8]) -> AnsweredLine
    requires { longest_answer ≤ length out.old }
    ensures { Gives (ended_answer (record { state = judged.now.state; skipping = skipping }) line.now) result.state result.written out.old out.new }
{
    if skipping {
        return refuse(judged, out);
    }
    let mut head = [0; FRAME_LENGTH];
    let Some(Parsed { call, count }) = parse_command::parse(line, &mut head) else {
        return refuse(judged, out);
    };
    replay_call::perform(judged, call, parse_fields::start(&head, count), out)
}
