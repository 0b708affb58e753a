// All that stays from case to case.
use crate::counts::{Block, CALLS, Compared};
use crate::outcome::Outcome;
use crate::registers::Registers;

// What the calls of a round need of their outputs.
#[derive(Clone, Copy)]
pub struct Needed {
    pub first: usize,
    pub second: usize,
}

#[derive(Drop)]
pub struct Machine {
    // The files of the cases stand here.
    pub memory: [u8; 393216],
    // What a call writes: more than two sheets may have.
    pub out: [u8; 132000],
    // The content that a reader gives and a writer takes. A sheet has at most 32 lists of 8,192 pairs.
    pub words: [u32; 524321],
    // What a call works in: more than one asks for.
    pub work: [u32; 16400],
    pub registers: Registers,
    // What the last call answered.
    pub last: Outcome,
    pub needed: Needed,
    // The call of the last round or single call, which sweeps make too.
    pub chosen: usize,
    // A digest of all outcomes of the last instruction, and one that was held to be compared.
    pub outcomes: u64,
    pub held: u64,
    pub compared: Compared,
    // The counts of a group, and of all groups.
    pub group: [Block; CALLS],
    pub all: [Block; CALLS],
}
