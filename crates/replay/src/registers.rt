// The registers, which instructions set by number.
use crate::slices;

// The files of a case are parts of the memory, each from its start to its end: pattern or question, catalogue, record, sheet, book or index,
// terms; there is room for three more.
const PARTS: usize = 8;

const START: usize = 0;

const END: usize = 8;

// What is lent: words for a reader, entries for an index and else bytes, bytes for a second output, words to work in.
pub const ROOM: usize = 16;

pub const SECOND: usize = 17;

pub const WORK: usize = 18;

// How many words the content has.
pub const CONTENT: usize = 19;

// By how much a sweep goes on.
pub const STRIDE: usize = 20;

// What content is drawn by: see `content` and `records`.
pub const SEED: usize = 21;

pub const ITEMS: usize = 22;

pub const LINKS: usize = 23;

pub const KIND: usize = 24;

pub const KINDS: usize = 25;

pub const ITEM_FORM: usize = 26;

pub const LINK_FORM: usize = 27;

pub const LEAST: usize = 28;

pub const MOST: usize = 29;

pub const FIRST: usize = 30;

pub const STEP: usize = 31;

pub const GAP: usize = 32;

pub const LINK_KIND: usize = 33;

pub const LINK_KINDS: usize = 34;

pub const KIND_FORM: usize = 35;

// The set that a client answers from.
pub const SET: usize = 36;

// How many questions are sent in one call.
pub const QUESTIONS: usize = 37;

// The day that is asked about.
pub const DAY: usize = 38;

// The set of extracts that are matched one-way.
pub const ONE_WAY: usize = 39;

// The state beside a record: its link count and its change number.
pub const STATE_LINKS: usize = 40;

pub const STATE_CHANGE: usize = 41;

// The link that is to enter, and the change number of its slip.
pub const LINK_FROM: usize = 42;

pub const LINK_TO: usize = 43;

pub const LINK_OF: usize = 44;

pub const SLIP_CHANGE: usize = 45;

#[derive(Clone, Copy)]
pub struct Registers {
    values: [usize; 64],
}

impl Registers {
    pub fn new() -> Registers {
        Registers { values: [0; 64] }
    }

    pub fn at(&self, i: usize) -> usize {
        slices::at(&self.values, i)
    }

    pub fn set(&mut self, i: usize, x: usize) {
        slices::put(&mut self.values, i, x);
    }

    // The low 32 bits of a register, and the low 16 bits.
    pub fn thirty_two(&self, i: usize) -> u32 {
        slices::low(self.at(i))
    }

    pub fn sixteen(&self, i: usize) -> u16 {
        (self.at(i) & 0xffff) as u16
    }

    // Where a part starts and ends.
    pub fn start(&self, part: usize) -> usize {
        self.at(START + part % PARTS)
    }

    pub fn end(&self, part: usize) -> usize {
        self.at(END + part % PARTS)
    }

    pub fn set_end(&mut self, part: usize, x: usize) {
        self.set(END + part % PARTS, x);
    }

    // A part, as far as the memory goes.
    pub fn part<'a>(&self, part: usize, memory: &'a [u8]) -> &'a [u8] {
        let end = self.end(part).min(memory.len());
        let start = self.start(part).min(end);
        &memory[start..end]
    }
}
