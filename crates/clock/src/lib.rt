// The board's clock: a 32-bit count of milliseconds that rolls over, widened to the time it stands for.
#![tactic(auto)]

ghost use Rattle.std.specs.Prelude.{◌≡◌};
ghost use Rattle.basis.specs.Clock.{clock_of, clock_report};

use basis::{ClockAnswer, LAST_TIME, Refusal, Time};

// The time of a reading taken after `latest`.
#[tactic(auto, unfolding(basis::specs::Clock::clock_of, basis::specs::Clock::clock_step, basis::specs::Clock::clock_refusal))]
pub fn widen(latest: Time, reading: u32) -> ClockAnswer
    ensures { clock_report result ≡ clock_of latest.0 reading }
{
    if LAST_TIME < latest {
        return ClockAnswer {
            step: 0,
            time: Err(Refusal::TimeAboveRange),
        };
    }
    let low = (latest.0 % (1 << 32)) as u32;
    let difference = reading.wrapping_sub(low);
    let step = difference.cast_signed();
    let later = Time(latest.0 + u64::from(difference));
    let time = if step < 0 {
        Err(Refusal::TimeBelowLatest)
    } else if LAST_TIME < later {
        Err(Refusal::TimeAboveRange)
    } else {
        Ok(later)
    };
    ClockAnswer { step, time }
}
