// The readers of the forms, behind the time of those that have one: "`fresh` hardware; `ask` time address policy draw; `tick` time
// draw; `packet` time bytes; `drop` time slot", fields parted by one tab. The last field of a form is all that is left of the line:
// a tab is no digit, so one field too many is refused by the last one's reader. In the contracts an empty text stands for each
// field that is read already.
#![tactic(auto)]

ghost use Rattle.std.specs.Prelude.{◌≡◌, [], ◌∷◌};
ghost use Rattle.basis_lines.specs.Fields.{tab, parts};
ghost use Rattle.basis_lines.specs.Numbers.{number, largest_draw};
ghost use Rattle.basis_lines.specs.Forms.{fresh_call, ask_at, tick_at, packet_at, drop_at};
ghost use Rattle.parse_forms.specs.Commands.{asked, Makes, if_count};

use basis::{Call, FRAME_LENGTH, Setup, Time};
use parse_numbers::Digits;

pub const TAB: u8 = b'\t';

// The largest number, and the largest draw.
pub const LARGEST: u64 = u64::MAX;

const LARGEST_DRAW: u64 = u32::MAX as u64;

// What a line asks for, with how many bytes of a packet stand at the start of a buffer that the caller lends: the first 28 at most. A
// length beside a buffer: there is no heap.
#[derive(Clone, Copy)]
pub struct Parsed {
    pub call: Call,
    pub count: usize,
}

// A call that has no bytes.
impl From<Call> for Parsed {
    ghost from_gives = { λ call parsed. (parsed.call ≡ call) × (parsed.count ≡ 0) };

    fn from(call: Call) -> Parsed {
        Parsed { call, count: 0 }
    }
}

// `fresh` hardware.
#[tactic(auto, using(crate::proofs::FormsLaws::fresh_ends))]
pub fn fresh(rest: &[u8]) -> Option<Call>
    ensures { asked result ≡ if_count 2 fresh_call ([] ∷ parts tab rest.now) }
{
    let hardware = parse_hex::hardware(rest)?;
    Some(Call::Fresh(Setup { hardware }))
}

// A draw, the last field. By `as`: the reader is told the limit, and `try_from` would test it again.
#[tactic(auto, using(crate::proofs::FormsLaws::draw_fits))]
fn draw(last: &[u8]) -> Option<u32>
    ensures { result ≡ number largest_draw last.now }
{
    let draw = parse_numbers::number(last, LARGEST_DRAW)?;
    Some(draw as u32)
}

// `tick` time draw.
#[tactic(auto, using(crate::proofs::FormsLaws::tick_ends))]
pub fn tick(time: Time, last: &[u8]) -> Option<Call>
    ensures { asked result ≡ if_count 3 (tick_at time) ([] ∷ [] ∷ parts tab last.now) }
{
    let draw = draw(last)?;
    Some(Call::Tick { time, draw })
}

// `packet` time bytes.
#[tactic(auto, using(crate::proofs::FormsLaws::packet_ends))]
pub fn packet(time: Time, last: &[u8], head: &mut [u8; FRAME_LENGTH]) -> Option<Parsed>
    ensures { Makes result head.new (if_count 3 (packet_at time) ([] ∷ [] ∷ parts tab last.now)) }
{
    let count = parse_hex::bytes(last, head)?;
    Some(Parsed {
        call: Call::Packet { time },
        count,
    })
}

// `drop` time slot.
#[tactic(auto, using(crate::proofs::FormsLaws::drop_ends))]
pub fn drop(time: Time, last: &[u8]) -> Option<Call>
    ensures { asked result ≡ if_count 3 (drop_at time) ([] ∷ [] ∷ parts tab last.now) }
{
    let slot = parse_numbers::number(last, LARGEST)?;
    Some(Call::Drop { time, slot })
}

// `ask` time address policy draw: one field read off the line after the other.
#[tactic(auto, using(crate::proofs::FormsLaws::ask_ends))]
pub fn ask(time: Time, rest: &[u8]) -> Option<Call>
    ensures { asked result ≡ if_count 5 (ask_at time) ([] ∷ [] ∷ parts tab rest.now) }
{
    let second = parse_fields::part(rest, TAB);
    let address = parse_addresses::address(second)?;
    let rest = parse_fields::after(rest, second.len())?;
    let Digits {
        value: policy,
        count: length,
    } = parse_numbers::first_number(rest, TAB, LARGEST)?;
    let last = parse_fields::after(rest, length)?;
    let draw = draw(last)?;
    Some(Call::Ask {
        time,
        address,
        policy,
        draw,
    })
}
