// Reads frames of captures made with other makers' programs, one a line as 56 hex digits, and writes each again. For each it
// prints the operation, the sender's and the target's addresses, and whether the bytes written are the bytes read.
#![tactic(auto)]

ghost use Rattle.std.specs.Prelude.{◌<◌};

use basis::{FRAME_LENGTH, Frame, Host};
use std::io;
use std::io::{ErrorKind, Read};

// A line's bytes: two hex digits for each of a frame, and its end.
const LINE_LENGTH: usize = 2 * FRAME_LENGTH + 1;

// The value of a hex digit. The input is our own data: on any other byte it gives some digit, where the readers of lines and of the
// library refuse.
fn digit(c: u8) -> u8
    ensures { result < 16 }
{
    if b'a' <= c {
        (c - b'a' + 10) % 16
    } else {
        c % 16
    }
}

fn decode(line: [u8; LINE_LENGTH]) -> [u8; FRAME_LENGTH] {
    let (pairs, _) = line.as_chunks::<2>();
    let mut bytes = [0; FRAME_LENGTH];
    for (byte, [high, low]) in bytes.iter_mut().zip(pairs) {
        *byte = digit(*high) * 16 + digit(*low);
    }
    bytes
}

fn print_host(rt: &impl Print, host: Host) -> io::Result<()> {
    print!(rt; " {:012x} {:08x}", host.hardware.0, host.ip.0)
}

fn print_fields(rt: &impl Print, frame: Frame) -> io::Result<()> {
    print!(rt; "{}", frame.operation)?;
    print_host(rt, frame.sender)?;
    print_host(rt, frame.target)
}

fn write_again(rt: &impl Print, frame: Frame, bytes: [u8; FRAME_LENGTH]) -> io::Result<()> {
    let mut out = [0; FRAME_LENGTH];
    let said = match frame_writer::write(frame, &mut out) {
        Err(_) => "not written",
        Ok(()) if out == bytes => "same",
        Ok(()) => "differs",
    };
    println!(rt; " {said}")
}

fn report(rt: &impl Print, bytes: [u8; FRAME_LENGTH]) -> io::Result<()> {
    let Ok(frame) = frame_reader::read(&bytes) else {
        return println!(rt; "refused");
    };
    print_fields(rt, frame)?;
    write_again(rt, frame, bytes)
}

// The next line, or none at the end of the input.
fn next_line(source: &mut impl Read) -> io::Result<Option<[u8; LINE_LENGTH]>> {
    let mut line = [0; LINE_LENGTH];
    match source.read_exact(&mut line) {
        Ok(()) => Ok(Some(line)),
        Err(e) if e.kind() == ErrorKind::UnexpectedEof => Ok(None),
        Err(e) => Err(e),
    }
}

// A proved loop has to end: it counts to a number that no input reaches.
fn main(rt: HostRuntime) -> io::Result<()> {
    let mut source = rt.stdin();
    for _ in 0..u64::MAX {
        let Some(line) = next_line(&mut source)? else {
            break;
        };
        report(&rt, decode(line))?;
    }
    Ok(())
}
