// Document 01's "Replay lines" as definitions: a line, its answer, and a stream of lines. This crate has no function: specs/ says
// what is right, proofs/ what follows from it, and the crates above do it.
#![tactic(auto)]

use basis::Interface;

// The most bytes of a line, without the byte 10 that ends it.
pub const LONGEST_LINE: usize = 4_096;

// No answer is longer, its byte 10 included: `ok`, the longest kind, two numbers of 20 digits, 56 digits of a frame, 4 tabs.
pub const LONGEST_ANSWER: usize = 111;

// What a line comes to: the state afterwards, and how many bytes of the answer were written.
#[derive(Clone, Copy)]
pub struct AnsweredLine {
    pub state: Interface,
    pub written: usize,
}

// Where a replay stands between two calls: the state of the port, and whether the bytes up to the next byte 10 belong to a line
// that is too long already.
#[derive(Clone, Copy)]
pub struct Stream {
    pub state: Interface,
    pub skipping: bool,
}
