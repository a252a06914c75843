// Asking for an address: the refusals in the table's order, then the lowest free slot.
#![tactic(auto)]

ghost use Rattle.std.specs.Prelude.{◌≡◌, ◌≤◌};
ghost use Rattle.basis_engine.specs.Timing.{rfc5227};
ghost use Rattle.basis_engine.specs.Refusals.{is_too_soon, ask_refusal};
ghost use Rattle.basis_engine.specs.Calls.{ask_outcome};
ghost use Rattle.basis_engine.specs.Calls as Call;
ghost use Rattle.engine_decisions.specs.Decisions.{Decided};

use basis::{
    Interface, Ipv4Address, Kind, MAX_CONFLICTS, RATE_LIMIT_INTERVAL, Record, Refusal, Stage, Time,
};
use engine_admission::{Admitted, Judged};
use engine_decisions::Decision;
use engine_state::Change;

// Whether there were ten conflicts and less than 60,000 ms ago an ask.
fn is_too_soon(state: &Interface, time: Time) -> bool
    ensures { result ≡ is_too_soon state.now time }
{
    state.conflicts == MAX_CONFLICTS
        && engine_timing::is_within(RATE_LIMIT_INTERVAL, time, state.asked)
}

// The record of a new claim, with no probe sent.
#[tactic(auto, using(engine_admission::proofs::AdmissionLaws::admitted_time))]
fn new_claim(admitted: Admitted<'_>, address: Ipv4Address, policy: u64, draw: u32) -> Record
    requires { policy ≤ 3 }
    ensures { result ≡ Call.new_claim rfc5227 admitted.entry.time address policy draw }
{
    let deadline = Time(admitted.time.0 + engine_timing::wait(draw));
    Record {
        address,
        policy: policy as u8,
        stage: Stage::Probing { sent: 0, deadline },
    }
}

// Asks for an address: its claim takes the lowest free slot.
#[tactic(auto, using(crate::proofs::AskLaws::ask_ends))]
pub fn ask(
    judged: &Judged,
    time: Time,
    address: Ipv4Address,
    policy: u64,
    draw: u32,
) -> Result<Decision, Refusal>
    ensures { Decided judged.now.state (ask_refusal judged.now.state time address policy draw) (ask_outcome judged.now.state time address policy draw) result }
{
    let state = &judged.state;
    let admitted = judged.admit(time)?;
    if !engine_sound_records::is_allowed(address) {
        return Err(Refusal::AddressNotAllowed);
    }
    if !engine_sound_records::is_policy(policy) {
        return Err(Refusal::PolicyUnknown);
    }
    if engine_slots::is_held(&state.records, address) {
        return Err(Refusal::AddressHeld);
    }
    let Some(slot) = engine_slots::free_slot(&state.records) else {
        return Err(Refusal::NoSlotFree);
    };
    if is_too_soon(state, time) {
        return Err(Refusal::AskedTooSoon);
    }
    let claim = new_claim(admitted, address, policy, draw);
    Ok(Decision {
        kind: Kind::Taken,
        change: Change::at(state, time, Some((slot, claim))).asking(),
        frame: None,
    })
}
