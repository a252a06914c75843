// The replay from standard input to standard output: a large read, the lines at hand answered, a large write, in turn. Lines are
// read, split and answered by the proved library; this is the loop around it, proved to be safe and to end, and run by the gate.
//
// A read that fails ends the replay, with the reason on standard error. The answers to all lines that were read whole are out by
// then; what was read of a line that did not end is not answered, since it may not be all of it. A write that fails ends it too,
// with the reason: no further line is read, and the output may end inside an answer, so that one without its byte 10 counts for
// nothing. A pipe that nobody reads any more ends it without a word. The exit status is 0 after a failure too: it is told on standard
// error alone.
#![tactic(auto)]

ghost use Rattle.std.specs.Prelude.{◌≤◌, ◌≡◌, true, false, length, take, Result, Err};
ghost use Rattle.basis_engine.specs.Interface.{zeros};
ghost use Rattle.basis_lines.specs.Stream.{at_line_start};
ghost use Rattle.replay_driver.specs.Turns.{goes_on, still_waits, Waited, Worked};

use basis_lines::Stream;
use std::fmt;
use std::io::{self, Error, ErrorKind, Read};

// Room for a read of 65,536 bytes behind the 4,096 that may be held.
const INPUT_LENGTH: usize = 69_632;

const OUT_LENGTH: usize = 262_144;

// Why the replay stops before the end of its input.
#[derive(Clone, Copy)]
enum Stopped {
    Reading(Error),
    Writing(Error),
}

impl fmt::Display for Stopped {
    fn fmt<W: fmt::Write>(&self, f: &mut fmt::Formatter<W>) -> fmt::Result {
        match self {
            Stopped::Reading(why) => write!(f, "cannot read standard input: {why}"),
            Stopped::Writing(why) => write!(f, "cannot write standard output: {why}"),
        }
    }
}

fn write(rt: &impl Print, out: &[u8], count: usize) -> Result<(), Stopped> {
    rt.write_all(parse_fields::start(out, count))
        .map_err(Stopped::Writing)
}

// Where the replay stands: `held` bytes at the start of the input buffer are not used up, and are to be worked on again unless it
// is waiting for more. An array with a length beside it: there is no heap.
#[derive(Drop)]
struct Replay {
    stream: Stream,
    input: [u8; INPUT_LENGTH],
    held: usize,
    waiting: bool,
    ghost within: { held ≤ 69_632 },
}

impl Replay {
    fn new() -> Self
        ensures { (result.stream ≡ at_line_start zeros) × (result.held ≡ 0) }
    {
        Replay {
            stream: replay_stream::begin(),
            input: [0; INPUT_LENGTH],
            held: 0,
            waiting: true,
        }
    }

    fn held(&self) -> &[u8]
        ensures { result.now ≡ take self.now.held self.now.input }
    {
        &self.input[..self.held]
    }

    // Answers the lines at hand. What is not used up moves to the start of the buffer.
    fn answer(&mut self, rt: &impl Print, out: &mut [u8]) -> Result<(), Stopped>
        ensures { Worked self.old.stream self.old.held (length out.old) self.old.input self.new.stream self.new.held self.new.waiting self.new.input }
    {
        let worked = replay_stream::work(self.stream, self.held(), out);
        self.stream = worked.stream;
        self.held = replay_stream::keep(&mut self.input, worked.used, self.held);
        self.waiting = worked.waiting;
        write(rt, out, worked.written)
    }

    // The input ended: the replay goes on no more.
    fn end(&self, rt: &impl Print, out: &mut [u8]) -> Result<bool, Stopped>
        ensures { goes_on result ≡ false }
    {
        let written = replay_stream::finish(self.stream, self.held(), out);
        write(rt, out, written.unwrap_or(0))?;
        Ok(false)
    }

    // Reads behind what is held, and answers how many bytes. Only where there are some it waits no more. There is always room, since no
    // more than 4,096 bytes are held: the test keeps a read into no room from being taken for the end.
    fn read(&mut self, source: &mut impl Read) -> io::Result<usize>
        ensures stream_stays { self.new.stream ≡ self.old.stream }
        ensures held_le_held { self.old.held ≤ self.new.held }
        ensures input_unchanged { take self.old.held self.new.input ≡ take self.old.held self.old.input }
        ensures waits { self.new.waiting ≡ still_waits result }
    {
        self.waiting = true;
        if self.held == INPUT_LENGTH {
            return Err(Error::other("the buffer has no room"));
        }
        let count = source.read(&mut self.input[self.held..])?;
        self.held += count;
        self.waiting = count == 0;
        Ok(count)
    }

    // Reads more, or comes to the end. Answers whether the replay goes on.
    fn read_more(
        &mut self,
        rt: &impl Print,
        source: &mut impl Read,
        out: &mut [u8],
    ) -> Result<bool, Stopped>
        ensures { Waited self.old.stream self.old.held self.old.input self.new.stream self.new.held self.new.waiting (goes_on result) self.new.input }
    {
        let count = self.read(source).map_err(Stopped::Reading)?;
        if count == 0 {
            return self.end(rt, out);
        }
        Ok(true)
    }

    // One turn: a read where it waits for more, as `work` says, else the lines at hand. Answers whether the replay goes on.
    fn turn(
        &mut self,
        rt: &impl Print,
        source: &mut impl Read,
        out: &mut [u8; OUT_LENGTH],
    ) -> Result<bool, Stopped>
        ensures waited { self.old.waiting ≡ true → Waited self.old.stream self.old.held self.old.input self.new.stream self.new.held self.new.waiting (goes_on result) self.new.input }
        ensures worked { self.old.waiting ≡ false → Worked self.old.stream self.old.held (length out.old) self.old.input self.new.stream self.new.held self.new.waiting self.new.input }
    {
        if self.waiting {
            self.read_more(rt, source, out)
        } else {
            self.answer(rt, out)?;
            Ok(true)
        }
    }
}

// The turns, one after the other.
fn turns(rt: &(impl Input + Print)) -> Result<(), Stopped> {
    let mut source = rt.reader();
    let mut replay = Replay::new();
    let mut out = [0; OUT_LENGTH];
    // By hand: a proved loop has to end, so it counts to a number that no input reaches.
    for _ in 0..u64::MAX {
        if !replay.turn(rt, &mut source, &mut out)? {
            break;
        }
    }
    Ok(())
}

// The whole replay.
pub fn run(rt: &(impl Input + Print + Eprint)) {
    match turns(rt) {
        Ok(()) => {}
        Err(Stopped::Writing(why)) if why.kind() == ErrorKind::BrokenPipe => {}
        Err(stopped) => {
            // Where that cannot be said either, it stops all the same.
            let _ = eprintln!(rt; "replay: stopped: {stopped}");
        }
    }
}
