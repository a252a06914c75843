// A replay whose input arrives in pieces: the lines at hand are answered, and what is left of the input is to come again with the
// next piece.
#![tactic(auto)]

ghost use Rattle.std.specs.Prelude.{◌≡◌, true, cond, length};
ghost use Rattle.basis_engine.specs.Interface.{is_sound, zeros};
ghost use Rattle.basis_lines.specs.Answers.{has_room, written};
ghost use Rattle.basis_lines.specs.Stream.{at_line_start, kept_length, kept};
ghost use Rattle.basis_lines.specs.Stream as Streams;

use basis::{HardwareAddress, Interface, Setup};
use basis_lines::{LONGEST_ANSWER, LONGEST_LINE, Stream};
use engine_admission::Judged;

// What a call of work did: the stream afterwards, how many bytes of the input are used up, how many were written, and whether it
// waits for more input (else the out buffer was too short to go on). Those written stand in the caller's buffer: there is no heap.
#[derive(Clone, Copy)]
pub struct Worked {
    pub stream: Stream,
    pub used: usize,
    pub written: usize,
    pub waiting: bool,
}

// A new replay: at a line's start, the state all zeros.
pub fn begin() -> Stream
    ensures { result ≡ at_line_start zeros }
{
    let setup = Setup {
        hardware: HardwareAddress(0),
    };
    Stream {
        state: engine_state::new_interface(setup),
        skipping: false,
    }
}

// A state judged, where it may be known already that it is sound. No call makes a sound state unsound, so the lines of an input
// ask once.
fn judge(state: Interface, known: bool) -> Judged
    requires { known ≡ true → is_sound state ≡ true }
    ensures { result.state ≡ state }
{
    if known {
        Judged { state, sound: true }
    } else {
        Judged::new(state)
    }
}

// Answers the lines of the input at hand, as far as there is room. What is not used up is to come again, before the bytes that
// arrive next.
pub fn work(stream: Stream, input: &[u8], out: &mut [u8]) -> Worked
    ensures stream_value { result.stream ≡ (Streams.work stream input.now (length out.old)).stream }
    ensures used_value { result.used ≡ (Streams.work stream input.now (length out.old)).used }
    ensures written_value { result.written ≡ length (Streams.work stream input.now (length out.old)).text }
    ensures waiting_value { result.waiting ≡ (Streams.work stream input.now (length out.old)).waiting }
    ensures out_after { out.new ≡ written (Streams.work stream input.now (length out.old)).text out.old }
{
    let Stream {
        mut state,
        mut skipping,
    } = stream;
    let mut rest = input;
    let mut written = 0;
    // By hand: a loop that carries a `Judged` in place of `state` and `sound` takes 23 in 100 more instructions a line.
    let mut sound = false;
    // No `for` over `input.split_inclusive(b'\n')`: a turn may stop before its line is used, and what no byte 10 ends is not a line.
    let waiting = 'lines: loop {
        let line = parse_fields::part(rest, b'\n');
        // No byte 10 is left.
        if line.len() == rest.len() {
            skipping = skipping || LONGEST_LINE < line.len();
            if skipping {
                rest = &[];
            }
            break true;
        }
        if out.len() - written < LONGEST_ANSWER {
            break false;
        }
        let judged = judge(state, sound);
        let answered = replay_command::answer_line(&judged, skipping, line, &mut out[written..]);
        sound = judged.sound;
        state = engine_state::copy(answered.state);
        skipping = false;
        rest = &rest[line.len() + 1..];
        written += answered.written;
    };
    Worked {
        stream: Stream { state, skipping },
        used: input.len() - rest.len(),
        written,
        waiting,
    }
}

// The end of the input, with the bytes that are left once `work` waits: an unended last line is answered. Answers how many bytes
// were written, or none, and nothing is done, where the out buffer is too short.
pub fn finish(stream: Stream, left: &[u8], out: &mut [u8]) -> Option<usize>
    ensures value { result ≡ cond (has_room out.old) (Some (length (Streams.finish stream left.now))) None }
    ensures out_after { out.new ≡ cond (has_room out.old) (written (Streams.finish stream left.now) out.old) out.old }
{
    if out.len() < LONGEST_ANSWER {
        None
    } else if stream.skipping || !left.is_empty() {
        Some(replay_call::malformed(out))
    } else {
        Some(0)
    }
}

// Moves what is not used up to the start of the buffer, and answers how many bytes that is. Where they are no places of the
// buffer, nothing is moved and the answer is 0: of those bytes it is the number too.
pub fn keep(buffer: &mut [u8], from: usize, to: usize) -> usize
    ensures value { result ≡ kept_length from to buffer.old }
    ensures buffer_after { buffer.new ≡ kept from to buffer.old }
{
    if from <= to && to <= buffer.len() {
        buffer.copy_within(from..to, 0);
        to - from
    } else {
        0
    }
}
