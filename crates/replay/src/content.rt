// The content that a writer takes: single fields, and lists of a sheet by a rule.
use crate::registers::Registers;
use crate::{draw, reader, registers, slices};
use std::io;
use std::io::Read;

// A field more.
pub fn add(words: &mut [u32], registers: &mut Registers, x: usize) {
    let count = registers.at(registers::CONTENT);
    slices::put(words, count, slices::low(x));
    registers.set(registers::CONTENT, slices::plus(count, 1));
}

// So many bytes of the cases, 256 at most, a field each.
pub fn add_bytes<R: Read>(
    cases: &mut R,
    size: usize,
    words: &mut [u32],
    registers: &mut Registers,
) -> io::Result<()> {
    let mut s = [0; 256];
    let n = size.min(256);
    reader::read_full(cases, &mut s[..n])?;
    for b in &s[..n] {
        add(words, registers, usize::from(*b));
    }
    Ok(())
}

// A list is a place in the content and a row of pairs from a code on. A code stands for the pair of its quotient and remainder by `items`;
// from each to the next it is a step, and something below the gap. Codes from `items` * `items` on are left out.
#[derive(Clone, Copy)]
struct List {
    start: usize,
    count: usize,
    code: usize,
    state: u32,
}

// The next pair.
fn add_pair(list: List, registers: &Registers, words: &mut [u32]) -> List {
    let items = registers.at(registers::ITEMS);
    let from = slices::quotient(list.code, items);
    let state = draw::next(list.state);
    let gap = draw::below(state, registers.at(registers::GAP));
    let step = slices::plus(registers.at(registers::STEP), gap);
    let code = slices::plus(list.code, step);
    if items <= from {
        return List {
            code,
            state,
            ..list
        };
    }
    let at = slices::plus(list.start, list.count % 0x1_0000 * 2);
    slices::put(words, slices::plus(at, 1), slices::low(from));
    slices::put(
        words,
        slices::plus(at, 2),
        slices::low(slices::rest(list.code, items)),
    );
    List {
        count: slices::plus(list.count, 1),
        code,
        state,
        ..list
    }
}

fn add_pairs(count: usize, first: List, registers: &Registers, words: &mut [u32]) -> List {
    let mut list = first;
    for _ in 0..count {
        list = add_pair(list, registers, words);
    }
    list
}

// A list more: at least so many pairs, and something below the most.
fn add_list(words: &mut [u32], registers: &mut Registers) {
    let start = registers.at(registers::CONTENT);
    let state = draw::next(slices::low(registers.at(registers::SEED)));
    let more = draw::below(state, registers.at(registers::MOST));
    let count = slices::plus(registers.at(registers::LEAST), more);
    let next = draw::next(state);
    let gap = draw::below(next, registers.at(registers::GAP));
    let first = List {
        start,
        count: 0,
        code: slices::plus(registers.at(registers::FIRST), gap),
        state: next,
    };
    let list = add_pairs(count, first, registers, words);
    slices::put(words, start, slices::low(list.count));
    let end = slices::plus(start, list.count % 0x1_0000 * 2);
    registers.set(registers::CONTENT, slices::plus(end, 1));
    registers.set(registers::SEED, list.state as usize);
}

pub fn add_lists(lists: usize, words: &mut [u32], registers: &mut Registers) {
    for _ in 0..lists {
        add_list(words, registers);
    }
}

// The content becomes that of a sheet: 0 where nothing was found, else 1 and so many lists.
pub fn sheet(lists: usize, words: &mut [u32], registers: &mut Registers) {
    registers.set(registers::CONTENT, 0);
    add(words, registers, lists.min(1));
    add_lists(lists, words, registers);
}
