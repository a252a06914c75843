// An answer's text, written into an out buffer: document 01, "Output per line". By hand, as all texts are (crate print_digits). Each
// answer asks for room for the longest, here and in the crates above: an array of that length would ask for no more and no less.
#![tactic(auto)]

ghost use Rattle.std.specs.Prelude.{◌≤◌, ◌≡◌, [], ◌∷◌, length};
ghost use Rattle.basis.specs.Answers.{time_of, accepted_of, refusal_number};
ghost use Rattle.basis_lines.specs.Fields.{tab, newline};
ghost use Rattle.basis_lines.specs.Answers.{number_text, refused_text, longest_answer, written};
ghost use Rattle.print_answer.specs.AcceptedText.{bytes_of, shown, frame_field, accepted_with};

use basis::{FRAME_LENGTH, Refusal, Success, Time};

// Puts a tab and a number, or `-` for none, and answers how many bytes that is. So do the others named `put`.
fn put_number(number: Option<u64>, out: &mut [u8]) -> usize
    requires { 21 ≤ length out.old }
    ensures value { result ≡ length (tab ∷ number_text number) }
    ensures most { result ≤ 21 }
    ensures out_after { out.new ≡ written (tab ∷ number_text number) out.old }
{
    match number {
        None => print_digits::put(b"\t-", out),
        Some(n) => {
            out[0] = b'\t';
            1 + print_digits::put_decimal(n, &mut out[1..])
        }
    }
}

// A tab and the frame in hex, if one was sent. Beside `put_number` by hand: a trait for both, with a text and a length for each type,
// is longer than the second function.
fn put_frame(frame: Option<&[u8; FRAME_LENGTH]>, out: &mut [u8]) -> usize
    requires { frame_field ≤ length out.old }
    ensures value { result ≡ length (tab ∷ shown (bytes_of frame.entry)) }
    ensures most { result ≤ frame_field }
    ensures out_after { out.new ≡ written (tab ∷ shown (bytes_of frame.entry)) out.old }
{
    let Some(bytes) = frame else {
        return print_digits::put(b"\t-", out);
    };
    out[0] = b'\t';
    1 + print_digits::put_hex(bytes, &mut out[1..])
}

// The byte 10 that ends every answer.
fn put_newline(out: &mut [u8]) -> usize
    requires { 1 ≤ length out.old }
    ensures value { result ≡ 1 }
    ensures out_after { out.new ≡ written (newline ∷ []) out.old }
{
    print_digits::put(b"\n", out)
}

fn deadline(next: Option<Time>) -> Option<u64>
    ensures { result ≡ time_of next }
{
    next.map(|time| time.0)
}

// Writes `ok`, kind, slot, next deadline, and the frame if one was sent. Answers how many bytes.
pub fn accepted(success: Success, frame: Option<&[u8; FRAME_LENGTH]>, out: &mut [u8]) -> usize
    requires { longest_answer ≤ length out.old }
    ensures value { result ≡ length (accepted_with (accepted_of success) (shown (bytes_of frame.entry))) }
    ensures out_after { out.new ≡ written (accepted_with (accepted_of success) (shown (bytes_of frame.entry))) out.old }
{
    let Success { kind, slot, next } = success;
    let mut len = print_kind::put_kind(kind, out);
    len += put_number(slot, &mut out[len..]);
    len += put_number(deadline(next), &mut out[len..]);
    len += put_frame(frame, &mut out[len..]);
    len + put_newline(&mut out[len..])
}

fn number(refusal: Refusal) -> u64
    ensures { result ≡ refusal_number refusal }
{
    refusal as u64
}

// Writes `refused` and the number. Answers how many bytes.
pub fn refused(refusal: Refusal, out: &mut [u8]) -> usize
    requires { longest_answer ≤ length out.old }
    ensures value { result ≡ length (refused_text (refusal_number refusal)) }
    ensures out_after { out.new ≡ written (refused_text (refusal_number refusal)) out.old }
{
    let mut len = print_digits::put(b"refused\t", out);
    len += print_digits::put_decimal(number(refusal), &mut out[len..]);
    len + put_newline(&mut out[len..])
}
