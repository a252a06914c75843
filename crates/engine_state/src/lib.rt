// A port's state: made anew, changed, and copied.
#![tactic(auto)]

ghost use Rattle.std.specs.Prelude.{◌≡◌};
ghost use Rattle.basis_engine.specs.Interface.{new_interface};
ghost use Rattle.engine_state.specs.Changes.{changed_by, change_at, slot_in};
ghost use Rattle.engine_state.specs.Changes as Changes;

use basis::{Interface, Record, Setup, Stage, Time};

// A new interface: time 0, count 0, no ask, four free slots.
pub fn new_interface(setup: Setup) -> Interface
    ensures { result ≡ new_interface setup }
{
    Interface {
        setup,
        latest: Time(0),
        asked: None,
        conflicts: 0,
        records: [engine_slots::free_record(); 4],
    }
}

// What becomes of a state: its latest time, the time of its latest ask, its count, and the slot concerned with the record that is put
// there, if there is one. What was chosen at fresh is kept.
#[derive(Clone, Copy)]
pub struct Change {
    pub latest: Time,
    pub asked: Option<Time>,
    pub conflicts: u8,
    pub put: Option<(u64, Record)>,
}

impl Change {
    // Another latest time, and what is put in a slot, if anything is; the rest is kept.
    pub fn at(state: &Interface, time: Time, put: Option<(u64, Record)>) -> Self
        ensures { result ≡ change_at state.now time put }
    {
        Change {
            latest: time,
            asked: state.asked,
            conflicts: state.conflicts,
            put,
        }
    }

    // The slot concerned.
    pub fn slot(self) -> Option<u64>
        ensures { result ≡ slot_in self.put }
    {
        self.put.map(|(slot, _)| slot)
    }

    // The same with another count.
    pub fn counting(self, count: u8) -> Self
        ensures { result ≡ Changes.counting self count }
    {
        Change {
            conflicts: count,
            ..self
        }
    }

    // The same where its time is that of the latest ask.
    pub fn asking(self) -> Self
        ensures { result ≡ Changes.asking self }
    {
        Change {
            asked: Some(self.latest),
            ..self
        }
    }

    // The state that it leaves.
    pub fn applied_to(self, state: Interface) -> Interface
        ensures { result ≡ changed_by state self }
    {
        let records = match self.put {
            Some((slot, held)) => engine_slots::put_at(state.records, Some(slot), held),
            None => state.records,
        };
        Interface {
            latest: self.latest,
            asked: self.asked,
            conflicts: self.conflicts,
            records,
            ..state
        }
    }
}

// A stage made anew, for `copy`.
fn stage(from: Stage) -> Stage
    ensures { result ≡ from }
{
    match from {
        Stage::Free => Stage::Free,
        Stage::Probing { sent, deadline } => Stage::Probing { sent, deadline },
        Stage::Announced { deadline, conflict } => Stage::Announced { deadline, conflict },
        Stage::Settled { conflict } => Stage::Settled { conflict },
    }
}

fn slot(from: Record) -> Record
    ensures { result ≡ from }
{
    Record {
        stage: stage(from.stage),
        ..from
    }
}

// A copy with its stages made anew. By hand: a plain copy, and `clone`, take along the bytes that lie between a stage's fields, and
// in a loop that carries a state a line takes 18 in 100 more instructions. Each slot is named: `map` takes 3 in 100 more, where a line
// is to take no more than it did.
pub fn copy(from: Interface) -> Interface
    ensures { result ≡ from }
{
    let held = from.records;
    Interface {
        records: [slot(held[0]), slot(held[1]), slot(held[2]), slot(held[3])],
        ..from
    }
}
