// How an accepted answer begins: `ok` and the kind's word. By hand, as all texts are (crate print_digits).
#![tactic(auto)]

ghost use Rattle.std.specs.Prelude.{◌≤◌, ◌≡◌, ◌∷◌, ◌++◌, length};
ghost use Rattle.basis.specs.Answers.{kind_word};
ghost use Rattle.basis_lines.specs.Fields.{tab};
ghost use Rattle.basis_lines.specs.Answers.{ok_word, written};

use basis::Kind;

#[tactic(auto, unfolding(basis::specs::Answers::kind_word))]
fn beginning(kind: Kind) -> &'static [u8]
    ensures value { result.now ≡ ok_word ++ (tab ∷ kind_word kind) }
    ensures most { length result.now ≤ 11 }
{
    match kind {
        Kind::Fresh => b"ok\tfresh",
        Kind::Taken => b"ok\ttaken",
        Kind::Nothing => b"ok\tnone",
        Kind::Probe => b"ok\tprobe",
        Kind::Announce => b"ok\tannounce",
        Kind::Defend => b"ok\tdefend",
        Kind::Lost => b"ok\tlost",
        Kind::Kept => b"ok\tkept",
        Kind::Dropped => b"ok\tdropped",
    }
}

// Puts them at the start of a buffer, and answers how many bytes that is.
pub fn put_kind(kind: Kind, out: &mut [u8]) -> usize
    requires { 11 ≤ length out.old }
    ensures value { result ≡ length (ok_word ++ (tab ∷ kind_word kind)) }
    ensures most { result ≤ 11 }
    ensures out_after { out.new ≡ written (ok_word ++ (tab ∷ kind_word kind)) out.old }
{
    print_digits::put(beginning(kind), out)
}
