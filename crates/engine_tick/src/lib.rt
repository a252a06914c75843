// Ticks: the slot that is due is served, with one frame.
#![tactic(auto)]

ghost use Rattle.std.specs.Prelude.{◌≡◌, Some};
ghost use Rattle.basis_engine.specs.Refusals.{tick_refusal};
ghost use Rattle.basis_engine.specs.Calls.{tick_outcome};
ghost use Rattle.basis_engine.specs.Calls as Call;
ghost use Rattle.engine_decisions.specs.Decisions.{Decides, Decided};

use basis::{Interface, Record, Refusal, Time};
use engine_admission::{Admitted, Judged};
use engine_decisions::Decision;
use engine_state::Change;

// A slot served: its claim goes on to the stage that follows.
#[tactic(auto, using(crate::proofs::TickLaws::slot_served, engine_admission::proofs::AdmissionLaws::admitted_time))]
fn serve(admitted: Admitted<'_>, draw: u32, slot: u64) -> Decision
    ensures { Decides admitted.entry.state.now (Call.serve admitted.entry.state.now admitted.entry.time draw (Some slot)) result }
{
    let Admitted { state, time } = admitted;
    let claim = engine_slots::record_at(&state.records, slot);
    let due = engine_due::due_frame(state.setup, claim);
    let held = Record {
        stage: engine_due::stage_after(time, draw, claim.stage),
        ..claim
    };
    Decision {
        kind: due.kind,
        change: Change::at(state, time, Some((slot, held))),
        frame: due.frame,
    }
}

// Serves the earliest deadline that isn't later than the time. `room` is the length of the out buffer.
#[tactic(auto, using(crate::proofs::TickLaws::tick_ends))]
pub fn tick(judged: &Judged, time: Time, draw: u32, room: usize) -> Result<Decision, Refusal>
    ensures { Decided judged.now.state (tick_refusal judged.now.state time draw room) (tick_outcome judged.now.state time draw) result }
{
    let state = &judged.state;
    let admitted = judged.admit_with_room(time, room)?;
    let decision = match engine_deadlines::due_slot(&state.records, time) {
        None => engine_decisions::nothing(state, time),
        Some(slot) => serve(admitted, draw, slot),
    };
    Ok(decision)
}
