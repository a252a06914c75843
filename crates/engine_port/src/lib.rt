// A port's state, made anew, and a slot of it freed.
#![tactic(auto)]

ghost use Rattle.std.specs.Prelude.{◌≡◌, ◌||◌, [], ltb};
ghost use Rattle.basis_engine.specs.Slots.{record_at};
ghost use Rattle.basis_engine.specs.Interface.{is_free};
ghost use Rattle.basis_engine.specs.Refusals.{drop_refusal};
ghost use Rattle.basis.specs.declared.Call.TheVariants as Call;
ghost use Rattle.basis_engine.specs.Calls.{drop_outcome};
ghost use Rattle.basis_engine.specs.Machine.{Promised};
ghost use Rattle.engine_decisions.specs.Decisions.{Decided};

use basis::{Called, Interface, Kind, Record, Refusal, Setup, Success, Time};
use engine_admission::Judged;
use engine_decisions::Decision;
use engine_state::Change;

// Makes a new interface, in place of the state handed in. No slot of it has a deadline.
#[tactic(auto, using(crate::proofs::PortLaws::fresh_ends))]
pub fn fresh(state: Interface, setup: Setup) -> Called
    ensures { Promised state (Call.Fresh setup) [] [] result.answer result.state [] }
{
    if !engine_soundness::is_sound_setup(setup) {
        return Called {
            answer: Err(Refusal::HardwareNotAllowed),
            state,
        };
    }
    let success = Success {
        kind: Kind::Fresh,
        slot: None,
        next: None,
    };
    Called {
        answer: Ok(success),
        state: engine_state::new_interface(setup),
    }
}

// Whether a slot is above 3, or free.
#[tactic(auto, using(crate::proofs::PortLaws::vacant))]
fn is_vacant(records: &[Record; 4], slot: u64) -> bool
    ensures { result ≡ (ltb 3 slot || is_free (record_at records.now slot)) }
{
    engine_slots::is_free(engine_slots::record_at(records, slot).stage)
}

// Frees a slot.
#[tactic(auto, using(crate::proofs::PortLaws::drop_ends))]
pub fn drop(judged: &Judged, time: Time, slot: u64) -> Result<Decision, Refusal>
    ensures { Decided judged.now.state (drop_refusal judged.now.state time slot) (drop_outcome judged.now.state time slot) result }
{
    let state = &judged.state;
    judged.admit(time)?;
    if is_vacant(&state.records, slot) {
        return Err(Refusal::SlotNotHeld);
    }
    let free = engine_slots::free_record();
    Ok(Decision {
        kind: Kind::Dropped,
        change: Change::at(state, time, Some((slot, free))),
        frame: None,
    })
}
