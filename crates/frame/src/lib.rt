// What reading and writing an ARP frame share, and the number that bytes stand for.
#![tactic(auto)]

ghost use Rattle.std.specs.Prelude.{◌≡◌, ◌≤◌, ◌<◌, ◌^◌, length};
ghost use Rattle.basis.specs.Bytes.{number_of};
ghost use Rattle.basis.specs.Frame.{is_known_operation};

// How a request of ours begins: hardware type, protocol, lengths and operation. The first six bytes begin every frame.
pub const REQUEST: [u8; 8] = *b"\x00\x01\x08\x00\x06\x04\x00\x01";

// Whether an operation is a request or a reply.
pub fn is_known_operation(operation: u16) -> bool
    ensures { result ≡ is_known_operation operation }
{
    matches!(operation, 1 | 2)
}

// The number that at most eight bytes stand for, most significant first.
pub fn number(bytes: &[u8]) -> u64
    requires { length bytes.now ≤ 8 }
    ensures value { result ≡ number_of bytes.now }
    ensures below { result < 256 ^ length bytes.now }
{
    let mut last = [0; 8];
    last[8 - bytes.len()..].copy_from_slice(bytes);
    u64::from_be_bytes(last)
}
