// Hardware addresses and packet bytes, read from lower-case hex. The crate parse_hex_digits checks a text whole before any of it is read.
// Loops that do not end early and have a constant count compile to vector code.
#![tactic(auto)]

ghost use Rattle.std.specs.Prelude.{◌+◌, ◌*◌, ◌/◌, ◌≤◌, ◌<◌, ◌≡◌, length, get_or, take, option_map};
ghost use Rattle.basis.specs.Bytes.{number_of};
ghost use Rattle.basis.specs.Frame.{frame_length};
ghost use Rattle.basis_lines.specs.Numbers as Numbers;
ghost use Rattle.parse_hex.specs.HexValues.{letter_more, value_of, pairs, head_of};

use basis::{FRAME_LENGTH, HardwareAddress};

// The most digits of a packet's bytes.
const MOST_DIGITS: usize = 3_000;

// The digits of a frame.
const FRAME_DIGITS: usize = 2 * FRAME_LENGTH;

// What a letter's value has above the last four bits of the letter.
fn letter_more(b: u8) -> u8
    ensures { (result ≡ letter_more b) × (result ≤ 9) }
{
    if b <= b'9' { 0 } else { 9 }
}

// A digit's value. Any other byte has some value below 16 too: a text is checked before it is read.
#[tactic(auto, unfolding(crate::specs::HexValues::value_of))]
fn value(b: u8) -> u8
    ensures { (result ≡ value_of b) × (result < 16) }
{
    (b % 16 + letter_more(b)) % 16
}

// The byte of two digits, the high one first.
#[tactic(auto, using(crate::proofs::HexScan::one_pair))]
fn byte_of(pair: &[u8; 2]) -> u8
    ensures { result ≡ get_or (pairs pair.now) 0 0 }
{
    let [high, low] = *pair;
    value(high) * 16 + value(low)
}

// Writes the bytes of a text to the first places of `bytes`, and says how many there are. By the index of a pair: nothing is proved of
// what a `zip` with `iter_mut` writes.
#[tactic(auto, using(crate::proofs::HexLaws::reads, std::proofs::lemmas::Grind::common_steps))]
fn read(text: &[u8], bytes: &mut [u8]) -> usize
    requires { length text.now / 2 ≤ length bytes.old }
    ensures count { result ≡ length text.now / 2 }
    ensures value { take result bytes.new ≡ pairs text.now }
{
    let (pairs, _) = text.as_chunks::<2>();
    for (i, pair) in pairs.iter().enumerate() {
        bytes[i] = byte_of(pair);
    }
    pairs.len()
}

// The number that the six bytes of 12 digits stand for.
#[tactic(auto, using(crate::proofs::HexScan::length_pairs, std::proofs::lemmas::Grind::common_steps))]
fn number(text: &[u8]) -> u64
    requires { length text.now ≡ 12 }
    ensures { result ≡ number_of (pairs text.now) }
{
    let mut bytes = [0; 6];
    read(text, &mut bytes);
    frame::number(&bytes)
}

// Writes 16 bytes of a text to the same place of the head, behind those that are there. They stand in an array of their own first, which
// the text cannot overlap, so that the loop compiles to vector code.
fn read_sixteen(text: &[u8], head: &mut [u8], start: usize)
    requires start_in_bounds { (start + 16) * 2 ≤ length text.now }
    requires head_len { (length head.old ≡ frame_length) × (start ≤ 12) }
    requires head_value { take start head.old ≡ take start (pairs text.now) }
    ensures { take (start + 16) head.new ≡ take (start + 16) (pairs text.now) }
{
    let mut bytes = [0; 16];
    read(&text[2 * start..2 * (start + 16)], &mut bytes);
    head[start..start + 16].copy_from_slice(&bytes);
}

// Writes the first 28 bytes of a text to the head, and says how many there are. 28 bytes are 16, and 16 more of which the first four
// are there already.
#[tactic(auto, using(crate::proofs::HexLaws::short_done))]
fn read_head(text: &[u8], head: &mut [u8]) -> usize
    requires { length head.old ≡ frame_length }
    ensures { take result head.new ≡ take frame_length (pairs text.now) }
{
    if text.len() < FRAME_DIGITS {
        read(text, head)
    } else {
        read_sixteen(text, head, 0);
        read_sixteen(text, head, 12);
        FRAME_LENGTH
    }
}

// Reads a hardware address: "exactly 12 digits".
#[tactic(auto, using(crate::proofs::HexLaws::hardware_ends))]
pub fn hardware(text: &[u8]) -> Option<HardwareAddress>
    ensures { result ≡ Numbers.hardware text.now }
{
    if text.len() != 12 {
        return None;
    }
    if !parse_hex_digits::are_hex(text) {
        return None;
    }
    Some(HardwareAddress(number(text)))
}

// Reads bytes: "an even count of digits from 0 to 3,000". All digits are checked; the first 28 bytes are kept, so that no large
// buffer is needed, and how many of them there are is the answer.
#[tactic(auto, using(crate::proofs::HexLaws::bytes_ends))]
pub fn bytes(text: &[u8], head: &mut [u8; FRAME_LENGTH]) -> Option<usize>
    ensures { head_of result head.new ≡ option_map (take frame_length) (Numbers.bytes text.now) }
{
    if MOST_DIGITS < text.len() {
        return None;
    }
    if text.len() % 2 == 1 {
        return None;
    }
    if !parse_hex_digits::are_hex(text) {
        return None;
    }
    Some(read_head(text, head))
}
