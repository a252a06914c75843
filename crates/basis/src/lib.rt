// The types of document 01, shared by every call. No function is written here: specs/ says what is right, proofs/ what follows
// from it, and the crates above do it.
#![tactic(auto)]

// An IPv4 address, its first byte the most significant.
#[derive(Clone, Copy, PartialEq, Eq)]
pub struct Ipv4Address(pub u32);

// A time in whole milliseconds. A larger number than the last time is refused, but a deadline may be larger
// (reading deadline-above-range).
#[derive(Clone, Copy, PartialEq, Eq, PartialOrd, Ord)]
pub struct Time(pub u64);

pub const LAST_TIME: Time = Time(281_474_976_710_655);

// Those of section 1.1 of RFC 5227 that the program uses, in ms where they are times. The promises hold them to the definitions.
pub const PROBE_WAIT: u64 = 1_000;

pub const PROBE_NUM: u8 = 3;

pub const PROBE_MIN: u64 = 1_000;

pub const PROBE_MAX: u64 = 2_000;

pub const ANNOUNCE_WAIT: u64 = 2_000;

pub const ANNOUNCE_INTERVAL: u64 = 2_000;

pub const MAX_CONFLICTS: u8 = 10;

pub const RATE_LIMIT_INTERVAL: u64 = 60_000;

pub const DEFEND_INTERVAL: u64 = 10_000;

// No deadline of a sound state lies further ahead.
pub const LONGEST_DELAY: u64 = 2_000;

// A hardware address: 48 bits, its first byte the most significant. A larger number stands for no address and is refused
// (reading hardware-48-bits).
#[derive(Clone, Copy, PartialEq, Eq, PartialOrd, Ord)]
pub struct HardwareAddress(pub u64);

// The first number above them: 2^48.
pub const HARDWARE_END: HardwareAddress = HardwareAddress(281_474_976_710_656);

// The bytes of an ARP frame.
pub const FRAME_LENGTH: usize = 28;

// One of an ARP packet's two pairs of addresses.
#[derive(Clone, Copy)]
pub struct Host {
    pub hardware: HardwareAddress,
    pub ip: Ipv4Address,
}

// What an ARP packet says. The operation is a number and no enum: a frame with any is handed to a write, which refuses it by 7.
#[derive(Clone, Copy)]
pub struct Frame {
    pub operation: u16,
    pub sender: Host,
    pub target: Host,
}

// How far a slot's claim has come.
#[derive(Clone, Copy)]
pub enum Stage {
    Free,
    // With this many probes sent.
    Probing {
        sent: u8,
        deadline: Time,
    },
    // Announced once, and so usable. `conflict` is the last one seen in this use.
    Announced {
        deadline: Time,
        conflict: Option<Time>,
    },
    // Announced twice.
    Settled {
        conflict: Option<Time>,
    },
}

// A slot's record. In a free one address and policy say nothing (readings free-is-a-stage, any-record). The policy is a number and no
// enum: any record may be handed in, and one with another policy is not sound. So it is in an ask, which is refused by 9.
#[derive(Clone, Copy)]
pub struct Record {
    pub address: Ipv4Address,
    pub policy: u8,
    pub stage: Stage,
}

// What is chosen at fresh and kept: the own hardware address.
#[derive(Clone, Copy)]
pub struct Setup {
    pub hardware: HardwareAddress,
}

// A network port: what was chosen at fresh, the latest accepted time, the time of the latest accepted ask, how many conflicts
// there were (10: ten or more), and its four slots.
#[derive(Clone, Copy)]
pub struct Interface {
    pub setup: Setup,
    pub latest: Time,
    pub asked: Option<Time>,
    pub conflicts: u8,
    pub records: [Record; 4],
}

// A call with its arguments, but for what is lent to it: a packet's bytes, and the out buffer of a tick and of a packet.
#[derive(Clone, Copy)]
pub enum Call {
    Fresh(Setup),
    Ask {
        time: Time,
        address: Ipv4Address,
        policy: u64,
        draw: u32,
    },
    Tick {
        time: Time,
        draw: u32,
    },
    Packet {
        time: Time,
    },
    Drop {
        time: Time,
        slot: u64,
    },
}

// What a conflict calls for: the address is given up, defended by a frame, or kept without one.
#[derive(Clone, Copy)]
pub enum Resolution {
    Lose,
    Defend,
    Keep,
}

// Why a call is refused, with document 01's numbers, 1 to 14.
#[derive(Clone, Copy)]
pub enum Refusal {
    StateNotSound = 1,
    HardwareNotAllowed,
    TimeAboveRange,
    TimeBelowLatest,
    BufferTooShort,
    PacketTooShort,
    FrameUnknown,
    AddressNotAllowed,
    PolicyUnknown,
    AddressHeld,
    NoSlotFree,
    AskedTooSoon,
    SlotNotHeld,
    LineMalformed,
}

// What an accepted call did.
#[derive(Clone, Copy)]
pub enum Kind {
    Fresh,
    Taken,
    Nothing,
    Probe,
    Announce,
    Defend,
    Lost,
    Kept,
    Dropped,
}

// What an accepted call reports: its kind, the slot concerned, and the smallest deadline left.
#[derive(Clone, Copy)]
pub struct Success {
    pub kind: Kind,
    pub slot: Option<u64>,
    pub next: Option<Time>,
}

// The answer of fresh, ask, tick, packet and drop, beside the new state.
pub type Answer = Result<Success, Refusal>;

// What fresh, ask, tick, packet and drop hand back: the answer and the state, after a refusal the one handed in.
#[derive(Clone, Copy)]
pub struct Called {
    pub answer: Answer,
    pub state: Interface,
}

// The answer of the clock: the step, and the new time or a refusal. The step is reported with a refusal too: 0 of a latest time above
// the range.
#[derive(Clone, Copy)]
pub struct ClockAnswer {
    pub step: i32,
    pub time: Result<Time, Refusal>,
}
