// The digits that a text begins with, for the readings of numbers: as many as stand for less than 2^64, in one pass.
#![tactic(auto)]

ghost use Rattle.std.specs.Prelude.{◌≡◌};
ghost use Rattle.basis_lines.specs.Fields.{only};
ghost use Rattle.parse_digits.specs.LeadingDigits.{appended, is_next_digit, Read};

// The digits that a text begins with: what they stand for, and how many they are.
#[derive(Clone, Copy)]
pub struct Digits {
    pub value: u64,
    pub count: usize,
}

// A value with one more digit behind it: none where the byte is no digit, or the value leaves 64 bits.
fn with_next(value: u64, byte: u8) -> Option<u64>
    ensures { result ≡ only (is_next_digit value byte) (appended value byte) }
{
    if byte.is_ascii_digit() {
        value.checked_mul(10)?.checked_add(u64::from(byte - b'0'))
    } else {
        None
    }
}

// The digits that a text begins with, 19 at most: whatever they are, they stand for less than 2^64, so that none is tested for it,
// which takes time.
#[tactic(auto, using(crate::proofs::Scan::scanned))]
fn first_19(text: &[u8]) -> Digits
    ensures { Read 19 text.now result.value result.count }
{
    let most = text.len().min(19);
    let mut value: u64 = 0;
    for (count, byte) in text[..most].iter().enumerate() {
        if !byte.is_ascii_digit() {
            return Digits { value, count };
        }
        value = 10 * value + u64::from(*byte - b'0');
    }
    Digits { value, count: most }
}

// With a twentieth digit too, if they then stand for less than 2^64.
pub fn first_20(text: &[u8]) -> Digits
    ensures { Read 20 text.now result.value result.count }
{
    let found = first_19(text);
    if found.count < 19 {
        return found;
    }
    let Some(byte) = text.get(19) else {
        return found;
    };
    match with_next(found.value, *byte) {
        Some(value) => Digits { value, count: 20 },
        None => found,
    }
}
