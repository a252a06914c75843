// The command that a line stands for: "Forms: `fresh` hardware; `ask` time address policy draw; `tick` time draw; `packet` time
// bytes; `drop` time slot", fields parted by one tab. To add a form is to add its word here and its reader to the crate parse_forms.
#![tactic(auto)]

ghost use Rattle.std.specs.Prelude.{◌≡◌, [], ◌∷◌, MatchOption};
ghost use Rattle.basis_lines.specs.Fields.{tab, parts};
ghost use Rattle.basis_lines.specs.Forms.{call_in, call_of};
ghost use Rattle.parse_forms.specs.Commands.{Makes, if_count};
ghost use Rattle.parse_command.specs.Words.{row_of, untimed_call, behind_word};

use basis::{FRAME_LENGTH, Time};
use basis_lines::LONGEST_LINE;
use parse_forms::{LARGEST, Parsed, TAB};
use parse_numbers::Digits;

// The forms whose word a time follows.
#[derive(Clone, Copy)]
enum Form {
    Tick,
    Packet,
    Ask,
    Drop,
}

// The form of a line whose word a time follows, and what stands behind the word and its tab. The most frequent word first. A table
// would have the same four rows, and a loop with its law beside.
fn timed_form(line: &[u8]) -> Option<(Form, &[u8])>
    ensures { MatchOption result (call_in (parts tab line.now) ≡ untimed_call (parts tab line.now))
        (λ found. call_in (parts tab line.now) ≡ behind_word found.0 found.1.now) }
{
    if let Some(rest) = line.strip_prefix(b"tick\t") {
        return Some((Form::Tick, rest));
    }
    if let Some(rest) = line.strip_prefix(b"packet\t") {
        return Some((Form::Packet, rest));
    }
    if let Some(rest) = line.strip_prefix(b"ask\t") {
        return Some((Form::Ask, rest));
    }
    let rest = line.strip_prefix(b"drop\t")?;
    Some((Form::Drop, rest))
}

// The fields behind the time, by the form's reader: a `match`, since one of them is lent a buffer too.
fn read_fields(form: Form, time: Time, rest: &[u8], head: &mut [u8; FRAME_LENGTH]) -> Option<Parsed>
    ensures { Makes result head.new (if_count (row_of form).count ((row_of form).call time) ([] ∷ [] ∷ parts tab rest.now)) }
{
    match form {
        Form::Tick => parse_forms::tick(time, rest).map(Parsed::from),
        Form::Packet => parse_forms::packet(time, rest, head),
        Form::Ask => parse_forms::ask(time, rest).map(Parsed::from),
        Form::Drop => parse_forms::drop(time, rest).map(Parsed::from),
    }
}

// The fields behind the word: the time first.
#[tactic(auto, using(crate::proofs::CommandLaws::time_ends))]
fn read_timed(form: Form, rest: &[u8], head: &mut [u8; FRAME_LENGTH]) -> Option<Parsed>
    ensures { Makes result head.new (behind_word form rest.now) }
{
    let Digits {
        value: time,
        count: length,
    } = parse_numbers::first_number(rest, TAB, LARGEST)?;
    let fields = parse_fields::after(rest, length)?;
    read_fields(form, Time(time), fields, head)
}

// The command of a line: what stands behind its first word is read by the word's form. The first bytes of a packet go to the
// start of `head`.
#[tactic(auto, using(crate::proofs::CommandLaws::line_ends))]
pub fn parse(line: &[u8], head: &mut [u8; FRAME_LENGTH]) -> Option<Parsed>
    ensures { Makes result head.new (call_of line.now) }
{
    if LONGEST_LINE < line.len() {
        return None;
    }
    if let Some((form, rest)) = timed_form(line) {
        return read_timed(form, rest, head);
    }
    let rest = line.strip_prefix(b"fresh\t")?;
    parse_forms::fresh(rest).map(Parsed::from)
}
