// Document 01, "Packet": what is a conflict.
#![tactic(auto)]

ghost use Rattle.std.specs.Prelude.{◌≡◌, not, ◌&&◌, ◌||◌};
ghost use Rattle.basis_engine.specs.Slots.{lowest};
ghost use Rattle.basis_engine.specs.Interface.{is_ours};
ghost use Rattle.basis_engine.specs.Conflicts.{is_from, probes_for, is_conflict};

use basis::{Frame, HardwareAddress, Ipv4Address, Record, Setup, Stage};

// Whether a hardware address is ours.
fn is_ours(setup: Setup, other: HardwareAddress) -> bool
    ensures { result ≡ is_ours setup other }
{
    other == setup.hardware
}

// Whether a packet comes from an address.
fn is_from(frame: &Frame, address: Ipv4Address) -> bool
    ensures { result ≡ is_from frame.now address }
{
    frame.sender.ip == address
}

// Whether a packet's sender probes for an address.
fn probes_for(frame: &Frame, address: Ipv4Address) -> bool
    ensures { result ≡ probes_for frame.now address }
{
    frame.operation == 1 && frame.sender.ip == Ipv4Address(0) && frame.target.ip == address
}

// Whether a packet is a conflict with a record.
fn is_conflict(setup: Setup, frame: &Frame, held: &Record) -> bool
    ensures { result ≡ is_conflict setup frame.now held.now }
{
    let ours = is_ours(setup, frame.sender.hardware);
    match held.stage {
        Stage::Free => false,
        Stage::Probing { .. } => is_from(frame, held.address)
            || probes_for(frame, held.address) && !ours,
        Stage::Announced { .. } | Stage::Settled { .. } => is_from(frame, held.address) && !ours,
    }
}

// The lowest slot with whose record a packet is a conflict.
pub fn conflict_slot(setup: Setup, frame: &Frame, records: &[Record; 4]) -> Option<u64>
    ensures { result ≡ lowest (is_conflict setup frame.now) records.now }
{
    engine_slots::lowest_slot(records, |held| is_conflict(setup, frame, held))
}
