// What a call decides, and the decision carried out. A call decides first and changes the state once, so that the state is not
// copied at each turn of its way.
#![tactic(auto)]

ghost use Rattle.std.specs.Prelude.{◌≡◌};
ghost use Rattle.basis_engine.specs.Calls as Calls;
ghost use Rattle.engine_decisions.specs.Decisions.{sent_out, Decides, CarriedOut};

use basis::{Called, Frame, Interface, Kind, Refusal, Success, Time};
use engine_state::Change;

// What an accepted call comes to, before anything is changed. The slot that it reports is the one that changes.
#[derive(Clone, Copy)]
pub struct Decision {
    pub kind: Kind,
    pub change: Change,
    pub frame: Option<Frame>,
}

// Nothing but the latest time changes.
pub fn nothing(state: &Interface, time: Time) -> Decision
    ensures { Decides state.now (Calls.nothing state.now time) result }
{
    Decision {
        kind: Kind::Nothing,
        change: Change::at(state, time, None),
        frame: None,
    }
}

// Writes the frame that goes out, if there is one.
fn hand_out(frame: Option<Frame>, out: &mut [u8])
    ensures { out.new ≡ sent_out frame out.old }
{
    if let Some(frame) = frame {
        let _ = frame_writer::write(frame, out);
    }
}

// Carries a decision out: the frame is written, the state changed, and the answer made. After a refusal nothing is.
#[tactic(auto, using(crate::proofs::DecisionsLaws::carried_out))]
pub fn carry_out(state: Interface, decided: Result<Decision, Refusal>, out: &mut [u8]) -> Called
    ensures { CarriedOut state decided out.old result out.new }
{
    match decided {
        Err(refusal) => Called {
            answer: Err(refusal),
            state,
        },
        Ok(decision) => {
            hand_out(decision.frame, out);
            let changed = decision.change.applied_to(state);
            let success = Success {
                kind: decision.kind,
                slot: decision.change.slot(),
                next: engine_deadlines::smallest_deadline(&changed.records),
            };
            Called {
                answer: Ok(success),
                state: changed,
            }
        }
    }
}
