// Whether all of a text is lower-case hex: checked before the crate parse_hex reads any of it. Folds do not end early, so that runs
// of a constant count compile to vector code.
#![tactic(auto)]

ghost use Rattle.std.specs.Prelude.{◌≡◌, ◌≤◌, ◌&&◌, ◌==◌, nat_le};
ghost use Rattle.parse_hex_digits.specs.HexText.{is_hex, are_hex};

// How far a byte lies beyond a range: 0 if it is in it. A byte below its start lies beyond it too, since the distance wraps.
fn beyond(b: u8, first: u8, last: u8) -> u8
    requires { first ≤ last }
    ensures { (result == 0) ≡ (nat_le first b && nat_le b last) }
{
    b.wrapping_sub(first).saturating_sub(last - first)
}

// Whether a byte is a digit of hex: 0 to 9, or a to f. One of the distances is 0: fewer vector operations than a test of each range.
fn is_hex(b: u8) -> bool
    ensures { result ≡ is_hex b }
{
    beyond(b, b'0', b'9').min(beyond(b, b'a', b'f')) == 0
}

// Whether all digits of a run are hex.
fn run_is_hex(run: &[u8]) -> bool
    ensures { result ≡ are_hex run.now }
{
    run.iter().fold(true, |all, b| all & is_hex(*b))
}

// Whether all of a text is hex: runs of 32, and the last 32 digits, over the run before if need be, so that none is shorter.
pub fn are_hex(text: &[u8]) -> bool
    ensures { result ≡ are_hex text.now }
{
    match text.last_chunk::<32>() {
        Some(last) => {
            let (runs, _) = text.as_chunks::<32>();
            runs.iter().fold(true, |all, run| all & run_is_hex(run)) & run_is_hex(last)
        }
        None => run_is_hex(text),
    }
}
