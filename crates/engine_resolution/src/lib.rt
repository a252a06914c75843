// Document 01, "Packet": what a conflict does to a record.
#![tactic(auto)]

ghost use Rattle.std.specs.Prelude.{◌≡◌};
ghost use Rattle.basis.specs.declared.Resolution.TheVariants.{Keep};
ghost use Rattle.basis_engine.specs.Timing.{rfc5227};
ghost use Rattle.basis_engine.specs.Conflicts.{by_policy, seen_at, record_after, resolution_kind};
ghost use Rattle.basis_engine.specs.Conflicts as Conflicts;

use basis::{DEFEND_INTERVAL, Kind, Record, Resolution, Stage, Time};

// What a conflict with a usable record calls for.
fn by_policy(policy: u8, now: Time, last: Option<Time>) -> Resolution
    ensures { result ≡ by_policy rfc5227 policy now last }
{
    match policy {
        1 => Resolution::Lose,
        _ if !engine_timing::is_within(DEFEND_INTERVAL, now, last) => Resolution::Defend,
        2 => Resolution::Lose,
        _ => Resolution::Keep,
    }
}

// What a conflict with a record calls for.
#[tactic(auto, unfolding(basis_engine::specs::Conflicts::resolution))]
pub fn resolution(held: Record, now: Time) -> Resolution
    ensures { result ≡ Conflicts.resolution rfc5227 now held }
{
    match held.stage {
        Stage::Free => Resolution::Keep,
        Stage::Probing { .. } => Resolution::Lose,
        Stage::Announced { conflict, .. } | Stage::Settled { conflict } => by_policy(
            held.policy,
            now,
            conflict,
        ),
    }
}

// A stage in which a conflict was seen now.
fn seen_at(now: Time, stage: Stage) -> Stage
    ensures { result ≡ seen_at now stage }
{
    let conflict = Some(now);
    match stage {
        Stage::Free | Stage::Probing { .. } => stage,
        Stage::Announced { deadline, .. } => Stage::Announced { deadline, conflict },
        Stage::Settled { .. } => Stage::Settled { conflict },
    }
}

// What a resolution leaves of a record.
pub fn record_after(resolution: Resolution, now: Time, held: Record) -> Record
    ensures { result ≡ record_after resolution now held }
{
    match resolution {
        Resolution::Lose => engine_slots::free_record(),
        Resolution::Defend | Resolution::Keep => Record {
            stage: seen_at(now, held.stage),
            ..held
        },
    }
}

// The kind that a resolution is reported as. Not a `From`: that would have to stand in basis with the two types, which holds no rule.
pub fn resolution_kind(resolution: Resolution) -> Kind
    ensures { result ≡ resolution_kind resolution }
{
    match resolution {
        Resolution::Lose => Kind::Lost,
        Resolution::Defend => Kind::Defend,
        Resolution::Keep => Kind::Kept,
    }
}
