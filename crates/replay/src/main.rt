// Replays the cases of the file `cases`, which the model writes, through every client call, and prints what they answered.
//
// The file is a row of instructions, a number for what to do and a value; some have bytes after them. They fill a memory that stays from case
// to case, say how much is lent, make calls, and print. Any file will do: what isn't there is passed over.
#![tactic(auto)]

mod beside;
mod both;
mod calls;
mod content;
mod counts;
mod digest;
mod draw;
mod entering;
mod indexed;
mod instructions;
mod machine;
mod marks;
mod memory;
mod outcome;
mod pack;
mod print;
mod reader;
mod records;
mod registers;
mod rounds;
mod slices;
mod states;
mod terms;

use counts::{Block, CALLS, Compared};
use machine::{Machine, Needed};
use outcome::Outcome;
use registers::Registers;
use std::io::{Read, Write};
use std::{fs, io};

// So many instructions at most.
const MOST: u32 = 1000000;

fn run<R: Read, W: Write>(cases: &mut R, printer: &mut W, m: &mut Machine) -> io::Result<()> {
    for _ in 0..MOST {
        if !instructions::next(cases, printer, m)? {
            break;
        }
    }
    Ok(())
}

// A read or a write that fails ends it with that error. What was said before is printed by then.
fn main(rt: HostRuntime) -> io::Result<()> {
    let mut cases = fs::open(&rt, "cases")?;
    let mut printer = io::writer(&rt);
    let mut m = Machine {
        memory: [0; 393216],
        out: [0; 132000],
        words: [0; 524321],
        work: [0; 16400],
        registers: Registers::new(),
        last: Outcome::none(),
        needed: Needed {
            first: 0,
            second: 0,
        },
        chosen: 0,
        outcomes: digest::START,
        held: digest::START,
        compared: Compared::new(),
        group: [Block::new(); CALLS],
        all: [Block::new(); CALLS],
    };
    run(&mut cases, &mut printer, &mut m)
}
