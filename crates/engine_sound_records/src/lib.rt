// What a sound state asks of an address, a policy, a time and a record.
#![tactic(auto)]

ghost use Rattle.std.specs.Prelude.{◌≡◌};
ghost use Rattle.basis_engine.specs.Timing.{rfc5227};
ghost use Rattle.basis_engine.specs.Slots.{all};
ghost use Rattle.basis_engine.specs.Interface.{is_allowed, is_policy, is_past, is_near, is_sound_stage, is_sound_record};

use basis::{Ipv4Address, LONGEST_DELAY, PROBE_NUM, Record, Stage, Time};

// Whether an address has a first byte from 1 to 223, 127 excepted. That byte by a division, as the definition has it.
#[tactic(auto, unfolding(basis_engine::specs::Interface::is_allowed))]
pub fn is_allowed(address: Ipv4Address) -> bool
    ensures { result ≡ is_allowed address }
{
    let first = address.0 / 16777216;
    1 <= first && first <= 223 && first != 127
}

// Whether a policy is 1, 2 or 3.
pub fn is_policy(policy: u64) -> bool
    ensures { result ≡ is_policy policy }
{
    matches!(policy, 1..=3)
}

// Whether an ask or a conflict is no later than the latest time.
pub fn is_past(latest: Time, moment: Option<Time>) -> bool
    ensures { result ≡ is_past latest moment }
{
    moment.is_none_or(|time| time <= latest)
}

// Whether a deadline is at most the latest time plus 2,000. Of a state that isn't sound that sum may not fit. By `.0`: the difference
// is a number of ms.
fn is_near(latest: Time, deadline: Time) -> bool
    ensures { result ≡ is_near latest deadline }
{
    deadline.0.saturating_sub(latest.0) <= LONGEST_DELAY
}

// What a sound state asks of one stage, and of one record.
#[tactic(auto, unfolding(basis_engine::specs::Interface::is_sound_stage))]
fn is_sound_stage(latest: Time, stage: Stage) -> bool
    ensures { result ≡ is_sound_stage rfc5227 latest stage }
{
    match stage {
        Stage::Free => true,
        Stage::Probing { sent, deadline } => sent <= PROBE_NUM && is_near(latest, deadline),
        Stage::Announced { deadline, conflict } => is_near(latest, deadline)
            && is_past(latest, conflict),
        Stage::Settled { conflict } => is_past(latest, conflict),
    }
}

#[tactic(auto, unfolding(basis_engine::specs::Interface::is_sound_record))]
fn is_sound_record(latest: Time, held: &Record) -> bool
    ensures { result ≡ is_sound_record rfc5227 latest held.now }
{
    engine_slots::is_free(held.stage)
        || is_sound_stage(latest, held.stage)
            && is_allowed(held.address)
            && is_policy(u64::from(held.policy))
}

// Whether every record is sound.
pub fn are_sound(latest: Time, records: &[Record; 4]) -> bool
    ensures { result ≡ all (is_sound_record rfc5227 latest) records.now }
{
    records.iter().all(|held| is_sound_record(latest, held))
}
