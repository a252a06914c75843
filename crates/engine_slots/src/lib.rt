// The four records: one read and one replaced, the lowest slot of which a test holds, and whether an address is held.
#![tactic(auto)]

ghost use Rattle.std.specs.Prelude.{◌≡◌, Bool};
ghost use Rattle.std.specs.Fn.{FnReturnsAt};
ghost use Rattle.basis_engine.specs.Slots.{free_record, record_at, put_at};
ghost use Rattle.basis_engine.specs.Slots as Slots;
ghost use Rattle.basis.specs.declared.Record.{Record};
ghost use Rattle.basis_engine.specs.Interface.{is_free_stage, is_free, is_held};

use basis::{Ipv4Address, Record, Stage};

// A free slot's record.
pub fn free_record() -> Record
    ensures { result ≡ free_record }
{
    Record {
        address: Ipv4Address(0),
        policy: 0,
        stage: Stage::Free,
    }
}

// The record in a slot: above the last the free one, as in the definition. Each of the four is named: an index that may be any of
// them would keep them all in memory, and a line would take 8 in 100 more instructions. So it is in `put_at`.
pub fn record_at(records: &[Record; 4], slot: u64) -> Record
    ensures { result ≡ record_at records.now slot }
{
    match slot {
        0 => records[0],
        1 => records[1],
        2 => records[2],
        3 => records[3],
        _ => free_record(),
    }
}

// The records with this one in a slot, where there is one.
pub fn put_at(mut records: [Record; 4], slot: Option<u64>, new: Record) -> [Record; 4]
    ensures { result ≡ put_at records slot new }
{
    match slot {
        Some(0) => records[0] = new,
        Some(1) => records[1] = new,
        Some(2) => records[2] = new,
        Some(3) => records[3] = new,
        _ => {}
    }
    records
}

// Whether a slot in this stage is free.
pub fn is_free(stage: Stage) -> bool
    ensures { result ≡ is_free_stage stage }
{
    matches!(stage, Stage::Free)
}

// The lowest slot of which a test holds.
pub fn lowest_slot<F: Fn(&Record) -> bool>(records: &[Record; 4], test: F) -> Option<u64>
    requires { F.IsAlwaysCallable test }
    ensures { (p : Record → Bool) → ((r : Record) (b : Bool) → FnReturnsAt F.Fn test r b → b ≡ p r) → result ≡ Slots.lowest p records.now }
{
    records.iter().position(test).map(|slot| slot as u64)
}

// The lowest free slot.
pub fn free_slot(records: &[Record; 4]) -> Option<u64>
    ensures { result ≡ Slots.lowest is_free records.now }
{
    lowest_slot(records, |held| is_free(held.stage))
}

// Whether one of the records holds an address.
pub fn is_held(records: &[Record], address: Ipv4Address) -> bool
    ensures { result ≡ is_held address records.now }
{
    records
        .iter()
        .any(|held| !is_free(held.stage) && held.address == address)
}
