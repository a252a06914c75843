// Reading IPv4 addresses: "four such numbers up to 255, parted by dots". "Each read whole or refused whole."
#![tactic(auto)]

ghost use Rattle.std.specs.Prelude.{◌≡◌};
ghost use Rattle.basis_lines.specs.Numbers as Numbers;

use basis::Ipv4Address;
use parse_numbers::Digits;

// The largest of the four numbers of an address.
const LARGEST_OCTET: u64 = 255;

// Three octets that end at dots, and a last one. By `as`: the readers are told the limit, and `try_from` would test it again.
#[tactic(auto, using(crate::proofs::Dotted::read_ends))]
pub fn address(text: &[u8]) -> Option<Ipv4Address>
    ensures { result ≡ Numbers.address text.now }
{
    let mut rest = text;
    let mut octets = [0; 4];
    for octet in &mut octets[..3] {
        let Digits {
            value,
            count: length,
        } = parse_numbers::first_number(rest, b'.', LARGEST_OCTET)?;
        rest = parse_fields::after(rest, length)?;
        *octet = value as u8;
    }
    octets[3] = parse_numbers::number(rest, LARGEST_OCTET)? as u8;
    Some(Ipv4Address(u32::from_be_bytes(octets)))
}
