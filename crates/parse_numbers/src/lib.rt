// Reading numbers: "digits 0 to 9 only, no leading zero except for 0 itself". "Each read whole or refused whole."
#![tactic(auto)]

ghost use Rattle.std.specs.Prelude.{◌≤◌, ◌≡◌, false, length, take, drop, option_map, IfSome};
ghost use Rattle.basis_lines.specs.Fields.{first_part};
ghost use Rattle.basis_lines.specs.Numbers as Numbers;
ghost use Rattle.parse_numbers.specs.Numerals.{has_numeral_start, is_number, is_first_number};

pub use parse_digits::Digits;

// Whether a text's first part, if it goes on up to a place, ends there.
#[tactic(auto, using(crate::proofs::NumbersLaws::end_ends))]
fn is_end(text: &[u8], place: usize, separator: u8) -> bool
    ensures { result ≡ Numbers.is_empty (first_part separator (drop place text.now)) }
{
    text.get(place).is_none_or(|byte| *byte == separator)
}

// Whether the first bytes of a text are some, and begin with a 0 only if that is all of them.
#[tactic(auto, using(crate::proofs::NumbersLaws::start_ends))]
fn has_numeral_start(text: &[u8], count: usize) -> bool
    requires { count ≤ length text.now }
    ensures { result ≡ has_numeral_start (take count text.now) }
{
    if count < 2 {
        count == 1
    } else {
        text[0] != b'0'
    }
}

// Whether the digits that a text begins with are a number up to the largest allowed. That they are some of the text is asked, here and
// below: a type that keeps a text with its digits would be made and taken apart on this page alone.
#[tactic(auto, using(crate::proofs::NumbersLaws::number_ends))]
fn is_number(text: &[u8], found: Digits, most: u64) -> bool
    requires { found.count ≤ length text.now }
    ensures { result ≡ is_number text.now found.value found.count most }
{
    found.value <= most && has_numeral_start(text, found.count)
}

// Whether they are also all of its first part.
#[tactic(auto, using(crate::proofs::NumbersLaws::first_ends))]
fn is_first_number(text: &[u8], found: Digits, most: u64, separator: u8) -> bool
    requires { found.count ≤ length text.now }
    ensures { result ≡ is_first_number text.now found.value found.count most separator }
{
    is_number(text, found, most) && is_end(text, found.count, separator)
}

// The first part as a number up to the largest allowed, in one pass: it ends where its digits end, so their count is its length. What
// stands behind the separator the callers ask `parse_fields::after`, by two calls and a `?` each.
#[tactic(auto, using(crate::proofs::NumbersLaws::first_number_ends))]
pub fn first_number(text: &[u8], separator: u8, most: u64) -> Option<Digits>
    requires { Numbers.is_digit separator ≡ false }
    ensures number { option_map (λ digits. digits.value) result ≡ Numbers.number most (first_part separator text.now) }
    ensures ends { IfSome result (λ digits. digits.count ≡ length (first_part separator text.now)) }
{
    let found = parse_digits::first_20(text);
    if !is_first_number(text, found, most, separator) {
        return None;
    }
    Some(found)
}

// A number up to the largest allowed.
#[tactic(auto, using(crate::proofs::NumbersLaws::whole_ends))]
pub fn number(text: &[u8], most: u64) -> Option<u64>
    ensures { result ≡ Numbers.number most text.now }
{
    let found = parse_digits::first_20(text);
    if found.count < text.len() {
        return None;
    }
    if !is_number(text, found, most) {
        return None;
    }
    Some(found.value)
}
