// Document 01, "Times and counts that are fixed": what a lent draw makes of them, and what lies less than an interval back.
#![tactic(auto)]

ghost use Rattle.std.specs.Prelude.{◌≡◌};
ghost use Rattle.basis_engine.specs.Timing.{rfc5227, is_within};
ghost use Rattle.basis_engine.specs.Timing as Timing;

use basis::{PROBE_MAX, PROBE_MIN, PROBE_WAIT, Time};

// The first wait, in ms.
pub fn wait(draw: u32) -> u64
    ensures { result ≡ Timing.wait rfc5227 draw }
{
    u64::from(draw) % (PROBE_WAIT + 1)
}

// A gap between two probes, in ms.
pub fn gap(draw: u32) -> u64
    ensures { result ≡ Timing.gap rfc5227 draw }
{
    PROBE_MIN + u64::from(draw) % (PROBE_MAX - PROBE_MIN + 1)
}

// Whether something happened less than so many ms ago. A time still ahead counts as less than any interval ago. By `.0`: the
// difference of two times is a number of ms and no time.
pub fn is_within(ms: u64, now: Time, last: Option<Time>) -> bool
    ensures { result ≡ is_within ms now last }
{
    last.is_some_and(|time| now < time || now.0 - time.0 < ms)
}
