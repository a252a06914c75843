// The call packet: an ARP packet came in, and is a conflict with the record in a slot or with none.
#![tactic(auto)]

ghost use Rattle.std.specs.Prelude.{◌≤◌, ◌≡◌};
ghost use Rattle.basis_engine.specs.Timing.{rfc5227};
ghost use Rattle.basis_engine.specs.Slots.{lowest};
ghost use Rattle.basis_engine.specs.Conflicts.{is_conflict, count_up};
ghost use Rattle.basis_engine.specs.Conflicts as Conflicts;
ghost use Rattle.basis_engine.specs.Refusals.{packet_refusal};
ghost use Rattle.basis_engine.specs.Calls.{packet_outcome};
ghost use Rattle.basis_engine.specs.Calls as Call;
ghost use Rattle.engine_decisions.specs.Decisions.{Decides, Decided};

use basis::{Frame, Interface, MAX_CONFLICTS, Record, Refusal, Resolution, Setup, Time};
use engine_admission::{Admitted, Judged};
use engine_decisions::Decision;
use engine_state::Change;

// Adds one to the conflict count unless it is 10.
fn count_up(count: u8) -> u8
    requires { count ≤ rfc5227.max_conflicts }
    ensures { result ≡ count_up rfc5227 count }
{
    (count + 1).min(MAX_CONFLICTS)
}

// The frame that a resolution sends.
fn defence(setup: Setup, held: Record, chosen: Resolution) -> Option<Frame>
    ensures { result ≡ Conflicts.defence setup held chosen }
{
    match chosen {
        Resolution::Defend => Some(engine_frames::announcement(setup, held.address)),
        Resolution::Lose | Resolution::Keep => None,
    }
}

// The resolution to a conflict with the record in a slot.
#[tactic(auto, using(crate::proofs::PacketLaws::is_resolution, engine_admission::proofs::AdmissionLaws::admitted_count))]
fn resolve(admitted: Admitted<'_>, slot: u64, held: Record, chosen: Resolution) -> Decision
    ensures { Decides admitted.entry.state.now (Call.resolve admitted.entry.state.now admitted.entry.time slot held chosen) result }
{
    let Admitted { state, time } = admitted;
    let after = engine_resolution::record_after(chosen, time, held);
    Decision {
        kind: engine_resolution::resolution_kind(chosen),
        change: Change::at(state, time, Some((slot, after))).counting(count_up(state.conflicts)),
        frame: defence(state.setup, held, chosen),
    }
}

// Meets a frame that was read.
#[tactic(auto, using(crate::proofs::PacketLaws::meet_ends))]
fn meet(admitted: Admitted<'_>, frame: Frame) -> Decision
    ensures { Decides admitted.entry.state.now (Call.meet admitted.entry.state.now admitted.entry.time frame (lowest (is_conflict admitted.entry.state.now.setup frame) admitted.entry.state.now.records)) result }
{
    let Admitted { state, time } = admitted;
    match engine_conflicts::conflict_slot(state.setup, &frame, &state.records) {
        None => engine_decisions::nothing(state, time),
        Some(slot) => {
            let held = engine_slots::record_at(&state.records, slot);
            let chosen = engine_resolution::resolution(held, time);
            resolve(admitted, slot, held, chosen)
        }
    }
}

// A packet came in: the refusals in the table's order, then what it says. `room` is the length of the out buffer.
#[tactic(auto, using(crate::proofs::PacketLaws::packet_ends))]
pub fn packet(judged: &Judged, time: Time, bytes: &[u8], room: usize) -> Result<Decision, Refusal>
    ensures { Decided judged.now.state (packet_refusal judged.now.state time bytes.now room) (packet_outcome judged.now.state time bytes.now) result }
{
    let admitted = judged.admit_with_room(time, room)?;
    let frame = frame_reader::read(bytes)?;
    Ok(meet(admitted, frame))
}
