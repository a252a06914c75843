// Texts put at the start of an out buffer: bytes as they are, a number in decimal, and bytes in hex. By hand: `write!` tells which bytes
// it wrote in a `String` alone, which takes a heap.
#![tactic(auto)]

ghost use Rattle.std.specs.Prelude.{◌*◌, ◌≤◌, ◌<◌, ◌≡◌, [], ◌∷◌, length};
ghost use Rattle.std.specs.Fmt as Fmt;
ghost use Rattle.basis_lines.specs.Numbers.{decimal, hex_glyph, hex_text};
ghost use Rattle.basis_lines.specs.Answers.{written};

// Puts a text, and answers how many bytes it has. So do the others named `put`: each promises the count and the buffer by an equality
// of its own, which is read without a word for both.
pub fn put(text: &[u8], out: &mut [u8]) -> usize
    requires { length text.now ≤ length out.old }
    ensures value { result ≡ length text.now }
    ensures out_after { out.new ≡ written text.now out.old }
{
    out[..text.len()].copy_from_slice(text);
    text.len()
}

// How many digits a number has. A slot's and a refusal's has one or two, for which `ilog10` would take longer.
fn digit_count(n: u64) -> usize
    ensures { result ≡ length (Fmt.decimal n) }
{
    match n {
        0..=9 => 1,
        10..=99 => 2,
        _ => n.ilog10() as usize + 1,
    }
}

pub fn put_decimal(n: u64, out: &mut [u8]) -> usize
    requires { 20 ≤ length out.old }
    ensures value { result ≡ length (decimal n) }
    ensures most { result ≤ 20 }
    ensures out_after { out.new ≡ written (decimal n) out.old }
{
    let end = digit_count(n);
    itoa::write_digits(n, out, end);
    end
}

fn hex_glyph(digit: u8) -> u8
    requires { digit < 16 }
    ensures { result ≡ hex_glyph digit }
{
    if digit < 10 {
        b'0' + digit
    } else {
        b'a' - 10 + digit
    }
}

// A byte's two digits.
#[tactic(auto, unfolding(basis_lines::specs::Numbers::hex_text))]
fn put_byte(byte: u8, out: &mut [u8]) -> usize
    requires { 2 ≤ length out.old }
    ensures value { result ≡ 2 }
    ensures out_after { out.new ≡ written (hex_text (byte ∷ [])) out.old }
{
    out[0] = hex_glyph(byte / 16);
    out[1] = hex_glyph(byte % 16);
    2
}

// Bytes, two digits each. The library's `encode_to_slice` takes twice the instructions: it looks each digit up. The length so far is
// carried, since it is the answer.
#[tactic(auto, using(crate::proofs::Digits::hex_ends), unfolding(basis_lines::specs::Numbers::hex_text))]
pub fn put_hex(bytes: &[u8], out: &mut [u8]) -> usize
    requires { 2 * length bytes.now ≤ length out.old }
    ensures value { result ≡ length (hex_text bytes.now) }
    ensures twice { result ≡ 2 * length bytes.now }
    ensures out_after { out.new ≡ written (hex_text bytes.now) out.old }
{
    let mut len = 0;
    for &byte in bytes {
        len += put_byte(byte, &mut out[len..]);
    }
    len
}
