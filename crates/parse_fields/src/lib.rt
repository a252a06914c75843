// The splitter of a line's fields, and what stands before and behind a place of a text: a reader of fields or of an address's parts goes
// on behind a separator.
#![tactic(auto)]

ghost use Rattle.std.specs.Prelude.{suc, ◌<◌, ◌≤◌, ◌≡◌, length, take, drop, MatchOption};
ghost use Rattle.basis_lines.specs.Fields.{first_part};

use memchr::memchr;

// The part of a text up to its first separator, or all of it: "a field is handed on as a part of the caller's line".
#[tactic(auto, using(crate::proofs::FieldsLaws::found_part))]
pub fn part(text: &[u8], separator: u8) -> &[u8]
    ensures { result.now ≡ first_part separator text.now }
{
    &text[..memchr(separator, text).unwrap_or(text.len())]
}

// What stands behind the byte at a place of a text, if it has one there.
pub fn after(text: &[u8], place: usize) -> Option<&[u8]>
    ensures { MatchOption result (length text.now ≤ place)
        (λ rest. (place < length text.now) × (rest.now ≡ drop (suc place) text.now)) }
{
    text.get(place.saturating_add(1)..)
}

// The same where an empty text is as good as none: nothing stands behind a text's last byte.
pub fn behind(text: &[u8], place: usize) -> &[u8]
    ensures { result.now ≡ drop (suc place) text.now }
{
    after(text, place).unwrap_or(&[])
}

// The first bytes of a text: all of it where it has no more.
pub fn start(text: &[u8], count: usize) -> &[u8]
    ensures { result.now ≡ take count text.now }
{
    text.get(..count).unwrap_or(text)
}
