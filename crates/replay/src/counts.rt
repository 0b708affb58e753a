// What is counted of a call: its answer by number and detail, a digest of all answers, and faults.
ghost use Rattle.std.specs.Prelude.{◌<◌};

use crate::outcome::{Form, Outcome};
use crate::{digest, slices};

// So many calls have numbers.
pub const CALLS: usize = 64;

// The answers by number, five for each; what was accepted is the first. Of what was accepted, what lists pairs and what is covered.
#[derive(Clone, Copy)]
pub struct Block {
    pub answers: [u64; 160],
    pub listing: u64,
    pub covered: u64,
    pub faults: u64,
    pub digest: u64,
}

// The detail of 1 to 10 is a file's number.
fn place_of(number: usize, detail: usize) -> usize
    ensures { result < 160 }
{
    match number {
        1..=10 => number * 5 + detail % 5,
        _ => number % 32 * 5,
    }
}

impl Block {
    pub fn new() -> Block {
        Block {
            answers: [0; 160],
            listing: 0,
            covered: 0,
            faults: 0,
            digest: digest::START,
        }
    }

    // How many calls there were.
    pub fn calls(&self) -> u64 {
        self.answers.iter().fold(0, |n: u64, x| n.wrapping_add(*x))
    }

    // An answer more; a sheet lists pairs where its first bit says so.
    pub fn count(&mut self, o: Outcome, faults: usize, out: &[u8]) {
        let first: u8 = slices::at(out, 0);
        let listing = o.is_accepted() && o.form == Form::Sheet && 127 < first;
        let covered = o.is_accepted() && o.form == Form::Quote && o.value == 1;
        let place = place_of(o.number, o.value);
        self.answers[place] = self.answers[place].wrapping_add(1);
        self.listing = self.listing.wrapping_add(u64::from(listing));
        self.covered = self.covered.wrapping_add(u64::from(covered));
        self.faults = self.faults.wrapping_add(faults as u64);
    }
}

// How many comparisons there were, and how many that agreed.
#[derive(Clone, Copy)]
pub struct Compared {
    pub all: u64,
    pub equal: u64,
}

impl Compared {
    pub fn new() -> Compared {
        Compared { all: 0, equal: 0 }
    }

    pub fn count(&mut self, equal: bool) {
        self.all = self.all.wrapping_add(1);
        self.equal = self.equal.wrapping_add(u64::from(equal));
    }
}
