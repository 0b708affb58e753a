// The states of a join, step by step: the pairs that a question's links are left with after each, and after pruning both ways from there, from the crate
// `matching` itself.
//
// The content is pairs, ascending, two words for each: its code, 4096 * from + to, and the links of the question that it is a candidate for.
use crate::outcome::{Form, Outcome};
use crate::registers::Registers;
use crate::{digest, draw, records, registers, slices};
use matching::steps;

// A pattern has no more components than items, so after so many steps nothing changes.
const STEPS_MOST: usize = 16;

// So many pairs at most.
const PAIRS_MOST: usize = 8192;

// A pair that is drawn: its place in the content, its code as in a list of `content`, the state after the one before it.
#[derive(Clone, Copy)]
struct Pair {
    place: usize,
    code: usize,
    state: u32,
}

// The links that a pair is a candidate for, by the form: any, few, many, all.
fn mask(form: usize, state: u32) -> u32 {
    let s = draw::next(state);
    let t = draw::next(s);
    let u = draw::next(t);
    let a = slices::low(draw::high(state) * 65536 + draw::high(s));
    let b = slices::low(draw::high(t) * 65536 + draw::high(u));
    match form {
        0 => a,
        1 => a & b,
        2 => a | b,
        _ => 0xffff_ffff,
    }
}

fn pair_code(from: usize, to: usize) -> u32 {
    slices::low(from % 4096 * 4096 + to % 4096)
}

// A pair goes to its place where its code stands for one of the items: the next one.
fn add_pair(p: Pair, registers: &Registers, words: &mut [u32]) -> Pair {
    let items = registers.at(registers::ITEMS);
    let from = slices::quotient(p.code, items);
    let s = draw::next(p.state);
    let gap = draw::below(s, registers.at(registers::GAP));
    let step = slices::plus(registers.at(registers::STEP), gap);
    let code = slices::plus(p.code, step);
    let state = records::after(s);
    if items <= from {
        return Pair {
            place: p.place,
            code,
            state,
        };
    }
    let form = registers.at(registers::LINK_FORM);
    slices::put(words, p.place, pair_code(from, slices::rest(p.code, items)));
    slices::put(words, slices::plus(p.place, 1), mask(form, draw::next(s)));
    Pair {
        place: slices::plus(p.place, 2),
        code,
        state,
    }
}

fn add_pairs(count: usize, first: Pair, registers: &Registers, words: &mut [u32]) -> Pair {
    let mut p = first;
    for _ in 0..count {
        p = add_pair(p, registers, words);
    }
    p
}

// The content becomes so many pairs, as far as their codes stand for pairs of items.
pub fn draw_pairs(count: usize, words: &mut [u32], registers: &mut Registers) {
    let first = Pair {
        place: 0,
        code: registers.at(registers::FIRST),
        state: slices::low(registers.at(registers::SEED)),
    };
    let last = add_pairs(count, first, registers, words);
    registers.set(registers::CONTENT, last.place);
}

// The pairs and what they are candidates for stand in the words to work in, and zeros beyond them.
fn lay(content: &[u32], work: &mut [u32]) {
    for i in 0..PAIRS_MOST {
        slices::put(work, i, slices::at(content, 2 * i));
        slices::put(work, PAIRS_MOST + i, slices::at(content, 2 * i + 1));
    }
}

// A digest of what d pairs are held for, of links whose masks are below a limit.
fn over_masks(start: u64, d: usize, limit: usize, work: &[u32]) -> u64 {
    let mut h = start;
    for i in 0..d {
        let mask: u32 = slices::at(work, slices::plus(PAIRS_MOST, i));
        h = digest::step(h, slices::rest(mask as usize, limit) as u64);
    }
    h
}

// What was seen so far: how many steps settled something, the items that are settled, and a digest of the states.
#[derive(Clone, Copy)]
struct Seen {
    steps: usize,
    settled: u32,
    digest: u64,
}

// The state after k steps, or after pruning from there, beside what was seen before.
fn after(
    k: usize,
    pruned: bool,
    before: Seen,
    question: &[u8],
    limit: usize,
    content: &[u32],
    work: &mut [u32],
) -> Seen {
    let d = content.len() / 2;
    lay(content, work);
    let settled = steps::trial(question, d, k, pruned, work);
    let more = usize::from(settled != before.settled);
    let h = digest::step(before.digest, settled as u64);
    Seen {
        steps: slices::plus(before.steps, more),
        settled,
        digest: over_masks(h, d, limit, work),
    }
}

fn after_each(question: &[u8], limit: usize, content: &[u32], work: &mut [u32]) -> Seen {
    let mut seen = Seen {
        steps: 0,
        settled: 0,
        digest: digest::START,
    };
    for k in 0..=STEPS_MOST {
        seen = after(k, false, seen, question, limit, content, work);
        seen = after(k, true, seen, question, limit, content, work);
    }
    seen
}

// The number of sets of so many links, 0 where there are over 32.
fn sets(links: usize) -> usize {
    if links < 33 { 1 << links } else { 0 }
}

// A question of so many links, from no step to all of them: how many there are, and the settled items at the end.
pub fn each(question: &[u8], links: usize, content: &[u32], work: &mut [u32]) -> Outcome {
    if work.len() < 16384 {
        return Outcome::refused(14, 0);
    }
    let seen = after_each(question, sets(links), content, work);
    lay(&content[0..0], work);
    let settled = seen.settled as usize;
    Outcome::values(Form::Steps, 0, seen.steps, settled, seen.digest)
}
