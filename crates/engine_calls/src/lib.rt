// Any call: a new interface, or what the call decides, carried out.
#![tactic(auto)]

ghost use Rattle.std.specs.Prelude.{◌≡◌, false, is_some, length};
ghost use Rattle.basis.specs.Answers.{leaves};
ghost use Rattle.basis_engine.specs.Machine.{refusal_of, outcome_of, Promised};
ghost use Rattle.engine_calls.specs.Performed.{is_sent};

use basis::{Call, Called, Refusal};
use engine_admission::Judged;
use engine_decisions::Decision;

// What a call came to: its answer and the state handed back, and whether a frame was handed out. That is a flag, since the frame stands in
// the buffer that the caller lent, of which the promise speaks.
#[derive(Clone, Copy)]
pub struct Performed {
    pub called: Called,
    pub sent: bool,
}

// Whether a frame goes out.
fn is_sent(decided: Result<Decision, Refusal>) -> bool
    ensures { result ≡ is_sent decided }
{
    decided.is_ok_and(|decision| decision.frame.is_some())
}

// Any call. A packet's bytes and the out buffer are lent to each, beside the call, which so is a value without a lifetime; no other reads
// the bytes, and fresh, ask and drop leave the buffer as it is.
pub fn perform(judged: &Judged, call: Call, bytes: &[u8], out: &mut [u8]) -> Performed
    ensures promised { Promised judged.now.state call bytes.now out.old result.called.answer result.called.state out.new }
    ensures sent_value { result.sent ≡ leaves (refusal_of judged.now.state call bytes.now (length out.old)) false (is_some (outcome_of judged.now.state call bytes.now).frame) }
{
    // By `match`: each call has other arguments.
    let decided = match call {
        Call::Fresh(setup) => {
            return Performed {
                called: engine_port::fresh(judged.state, setup),
                sent: false,
            };
        }
        Call::Ask {
            time,
            address,
            policy,
            draw,
        } => engine_ask::ask(judged, time, address, policy, draw),
        Call::Tick { time, draw } => engine_tick::tick(judged, time, draw, out.len()),
        Call::Packet { time } => engine_packet::packet(judged, time, bytes, out.len()),
        Call::Drop { time, slot } => engine_port::drop(judged, time, slot),
    };
    let sent = is_sent(decided);
    Performed {
        called: engine_decisions::carry_out(judged.state, decided, out),
        sent,
    }
}
