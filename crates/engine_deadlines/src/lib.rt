// The smallest deadline of the four records, and the slot that is due.
#![tactic(auto)]

ghost use Rattle.std.specs.Prelude.{◌≡◌};
ghost use Rattle.basis.specs.Answers.{time_of};
ghost use Rattle.basis_engine.specs.Deadlines.{deadline_of, smaller, smallest_deadline, due_slot};

use basis::{Record, Stage, Time};

// A stage's deadline.
fn deadline(stage: Stage) -> Option<Time>
    ensures { time_of result ≡ deadline_of stage }
{
    match stage {
        Stage::Probing { deadline, .. } | Stage::Announced { deadline, .. } => Some(deadline),
        Stage::Free | Stage::Settled { .. } => None,
    }
}

// The earlier of two deadlines.
fn earlier(one: Option<Time>, other: Option<Time>) -> Option<Time>
    ensures { time_of result ≡ smaller (time_of one) (time_of other) }
{
    match (one, other) {
        (Some(a), Some(b)) => Some(a.min(b)),
        (None, only) | (only, None) => only,
    }
}

// The smallest deadline left. `filter_map` and `min` say the same and prove, but a line takes 13 in 100 more instructions.
pub fn smallest_deadline(records: &[Record; 4]) -> Option<Time>
    ensures { time_of result ≡ smallest_deadline records.now }
{
    records
        .iter()
        .fold(None, |best, held| earlier(best, deadline(held.stage)))
}

// The slot that is due: the earliest deadline if it isn't later than the time, the lowest slot on a tie.
#[tactic(auto, unfolding(basis_engine::specs::Deadlines::due_slot))]
pub fn due_slot(records: &[Record; 4], time: Time) -> Option<u64>
    ensures { result ≡ due_slot time records.now }
{
    let due = smallest_deadline(records).filter(|smallest| *smallest <= time)?;
    engine_slots::lowest_slot(records, |held| deadline(held.stage) == Some(due))
}
