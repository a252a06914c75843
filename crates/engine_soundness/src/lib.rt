// Whether a state is sound.
#![tactic(auto)]

ghost use Rattle.std.specs.Prelude.{◌≡◌};
ghost use Rattle.basis_engine.specs.Interface.{is_alone, is_own_hardware, is_sound_setup, holds_none_twice, is_sound};

use basis::{HARDWARE_END, HardwareAddress, Interface, LAST_TIME, MAX_CONFLICTS, Record, Setup};

// Whether an own hardware address has 48 bits, isn't zero, and its first byte is even. That byte by a division, as the definition has it.
#[tactic(auto, unfolding(basis_engine::specs::Interface::is_own_hardware))]
fn is_own_hardware(address: HardwareAddress) -> bool
    ensures { result ≡ is_own_hardware address }
{
    let bits = address.0;
    address < HARDWARE_END && bits != 0 && bits / 1099511627776 % 2 == 0
}

// Whether this can be chosen at fresh.
pub fn is_sound_setup(setup: Setup) -> bool
    ensures { result ≡ is_sound_setup setup }
{
    is_own_hardware(setup.hardware)
}

// Whether a record is free, or none of the others holds its address.
fn is_alone(held: &Record, others: &[Record]) -> bool
    ensures { result ≡ is_alone held.now others.now }
{
    engine_slots::is_free(held.stage) || !engine_slots::is_held(others, held.address)
}

// Whether no address is held twice: each record is compared with those above it.
#[tactic(auto, unfolding(basis_engine::specs::Interface::holds_none_twice))]
fn holds_none_twice(records: &[Record]) -> bool
    ensures { result ≡ holds_none_twice records.now }
{
    match records {
        [] => true,
        [held, above @ ..] => is_alone(held, above) && holds_none_twice(above),
    }
}

// Whether a state is sound.
#[tactic(auto, unfolding(basis_engine::specs::Interface::is_sound))]
pub fn is_sound(state: &Interface) -> bool
    ensures { result ≡ is_sound state.now }
{
    is_sound_setup(state.setup)
        && state.latest <= LAST_TIME
        && state.conflicts <= MAX_CONFLICTS
        && engine_sound_records::is_past(state.latest, state.asked)
        && engine_sound_records::are_sound(state.latest, &state.records)
        && holds_none_twice(&state.records)
}
