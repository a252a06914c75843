// A line answered: its call made, and the answer written.
#![tactic(auto)]

ghost use Rattle.std.specs.Prelude.{◌≡◌, cond, length};
ghost use Rattle.basis_lines.specs.Answers.{has_room, written, line_answer};

use basis::Interface;
use basis_lines::{AnsweredLine, LONGEST_ANSWER};
use engine_admission::Judged;

// Answers a line: its call is made on the state, and the answer's text goes to the start of the out buffer. Where the longest
// answer would have no room, nothing is done and `written` is 0, which it is at no other time: no answer is empty. No `Option`,
// since the state comes back either way.
pub fn answer(state: Interface, line: &[u8], out: &mut [u8]) -> AnsweredLine
    ensures state_value { result.state ≡ cond (has_room out.old) (line_answer state line.now).state state }
    ensures written_value { result.written ≡ cond (has_room out.old) (length (line_answer state line.now).text) 0 }
    ensures out_after { out.new ≡ cond (has_room out.old) (written (line_answer state line.now).text out.old) out.old }
{
    if out.len() < LONGEST_ANSWER {
        return AnsweredLine { state, written: 0 };
    }
    replay_command::answer_line(&Judged::new(state), false, line, out)
}
