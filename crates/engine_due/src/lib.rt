// A due record: the frame that goes out, and the stage that its sending leaves.
#![tactic(auto)]

ghost use Rattle.std.specs.Prelude.{◌≡◌, ◌≤◌, None, Some};
ghost use Rattle.basis.specs.Times.{last_time};
ghost use Rattle.basis.specs.Frame as Frame;
ghost use Rattle.basis.specs.declared.Kind.TheVariants as Kinds;
ghost use Rattle.basis_engine.specs.Timing.{rfc5227};
ghost use Rattle.basis_engine.specs.Interface.{longest_delay, sender_of};
ghost use Rattle.basis_engine.specs.Calls.{due_frame, stage_after};
ghost use Rattle.basis_engine.specs.Calls as Call;
ghost use Rattle.engine_due.specs.Due.{due_of};

use basis::{ANNOUNCE_INTERVAL, ANNOUNCE_WAIT, Frame, Kind, PROBE_NUM, Record, Setup, Stage, Time};

// The frame that is due: the kind that is reported of it, and the frame. As in the definition `due_frame`, nothing due is a kind too.
#[derive(Clone, Copy)]
pub struct Due {
    pub kind: Kind,
    pub frame: Option<Frame>,
}

// The frame that is due of a record.
#[tactic(auto, using(crate::proofs::DueLaws::due_ends))]
pub fn due_frame(setup: Setup, claim: Record) -> Due
    ensures { due_of result ≡ due_frame rfc5227 setup claim }
{
    match claim.stage {
        Stage::Probing { sent, .. } if sent < PROBE_NUM => Due {
            kind: Kind::Probe,
            frame: Some(engine_frames::probe(setup, claim.address)),
        },
        Stage::Probing { .. } | Stage::Announced { .. } => Due {
            kind: Kind::Announce,
            frame: Some(engine_frames::announcement(setup, claim.address)),
        },
        Stage::Free | Stage::Settled { .. } => Due {
            kind: Kind::Nothing,
            frame: None,
        },
    }
}

// The time from a probe to the next frame, with so many probes sent.
fn delay(probes: u8, draw: u32) -> u64
    ensures { (result ≡ Call.delay rfc5227 probes draw) × (result ≤ longest_delay) }
{
    if probes < PROBE_NUM {
        engine_timing::gap(draw)
    } else {
        ANNOUNCE_WAIT
    }
}

// The stage that the sending of its due frame leaves. Each deadline is counted from the time of the call, so a late tick shortens
// no gap.
#[tactic(auto, using(crate::proofs::DueLaws::after_ends))]
pub fn stage_after(time: Time, draw: u32, stage: Stage) -> Stage
    requires { time.0 ≤ last_time }
    ensures { result ≡ stage_after rfc5227 time draw stage }
{
    match stage {
        Stage::Probing { sent, .. } if sent < PROBE_NUM => {
            let sent = sent + 1;
            Stage::Probing {
                sent,
                deadline: Time(time.0 + delay(sent, draw)),
            }
        }
        Stage::Probing { .. } => Stage::Announced {
            deadline: Time(time.0 + ANNOUNCE_INTERVAL),
            conflict: None,
        },
        Stage::Announced { conflict, .. } => Stage::Settled { conflict },
        Stage::Free | Stage::Settled { .. } => stage,
    }
}
