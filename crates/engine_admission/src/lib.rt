// The refusals of a call on a state, row by row: the first three, how a further one is added, and what passes them.
#![tactic(auto)]

ghost use Rattle.std.specs.Prelude.{◌≡◌, None, IfOk, ltb};
ghost use Rattle.std.specs.Option.{option_or};
ghost use Rattle.basis.specs.Answers.{refusal_number, ◌if◌else◌};
ghost use Rattle.basis.specs.Frame.{frame_length};
ghost use Rattle.basis_engine.specs.Interface.{is_sound};
ghost use Rattle.basis_engine.specs.Refusals.{state_and_time, state_time_and_room};
ghost use Rattle.engine_admission.specs.Rows.{refusal_in, first_rows};

use basis::{FRAME_LENGTH, Interface, LAST_TIME, Refusal, Time};

// The rows 1, 3 and 4, of a state that is sound or not and has this latest time.
#[tactic(auto, using(crate::proofs::AdmissionLaws::admit_ends))]
pub fn admit(sound: bool, latest: Time, time: Time) -> Result<(), Refusal>
    ensures { refusal_in result ≡ first_rows sound latest time }
{
    if !sound {
        Err(Refusal::StateNotSound)
    } else if LAST_TIME < time {
        Err(Refusal::TimeAboveRange)
    } else if time < latest {
        Err(Refusal::TimeBelowLatest)
    } else {
        Ok(())
    }
}

// A row of the refusals, after those that a check stands for: the first that applies counts.
pub fn row(check: Result<(), Refusal>, refusal: Refusal, applies: bool) -> Result<(), Refusal>
    ensures { refusal_in result ≡ option_or (refusal_in check) (refusal_number refusal if applies else None) }
{
    match check {
        Err(_) => check,
        Ok(()) => { if applies { Err(refusal) } else { Ok(()) } }
    }
}

// The row 5, of a call that is lent an out buffer with so much room, after those that a check stands for.
pub fn row_of_room(check: Result<(), Refusal>, room: usize) -> Result<(), Refusal>
    ensures { refusal_in result ≡ option_or (refusal_in check) (5 if ltb room frame_length else None) }
{
    row(check, Refusal::BufferTooShort, room < FRAME_LENGTH)
}

// A state, and whether it is sound. To find out takes some time, so it is done once.
#[derive(Clone, Copy)]
pub struct Judged {
    pub state: Interface,
    pub sound: bool,
    ghost known: { sound ≡ is_sound state },
}

// A call that the rows 1, 3 and 4 let through: a sound state, and the call's time, in range and not below the latest.
#[derive(Clone, Copy)]
pub struct Admitted<'a> {
    pub state: &'a Interface,
    pub time: Time,
    ghost passes: { state_and_time state.now time None ≡ None },
}

impl Judged {
    // Any state.
    pub fn new(state: Interface) -> Self
        ensures { result.state ≡ state }
    {
        let sound = engine_soundness::is_sound(&state);
        Judged { state, sound }
    }

    // The rows 1, 3 and 4.
    #[tactic(auto, using(crate::proofs::Rows::first_rows_lem))]
    pub fn admit(&self, time: Time) -> Result<Admitted<'_>, Refusal>
        ensures refusal { refusal_in result ≡ state_and_time self.now.state time None }
        ensures admitted { IfOk result (λ admitted. (admitted.state.now ≡ self.now.state) × (admitted.time ≡ time)) }
    {
        admit(self.sound, self.state.latest, time)?;
        Ok(Admitted {
            state: &self.state,
            time,
        })
    }

    // The rows 1, 3, 4 and 5, of a call that is lent an out buffer with so much room.
    #[tactic(auto, using(crate::proofs::Rows::room_ends))]
    pub fn admit_with_room(&self, time: Time, room: usize) -> Result<Admitted<'_>, Refusal>
        ensures refusal { refusal_in result ≡ state_time_and_room self.now.state time room None }
        ensures admitted { IfOk result (λ admitted. (admitted.state.now ≡ self.now.state) × (admitted.time ≡ time)) }
    {
        row_of_room(admit(self.sound, self.state.latest, time), room)?;
        Ok(Admitted {
            state: &self.state,
            time,
        })
    }
}
