// Calls one after the other: a single one, a round of what can be lent, and sweeps over damaged files.
use crate::calls::Call;
use crate::counts::CALLS;
use crate::machine::{Machine, Needed};
use crate::outcome::Outcome;
use crate::{calls, digest, marks, memory, registers, slices};

// What calls an instruction makes.
#[derive(Clone, Copy, PartialEq, Eq)]
pub enum Mode {
    // A call as the registers say.
    Once,
    // The same, of the call of the last round or single call.
    Again,
    // A call as the registers say; then with a byte or word less than it needs, with too few words to work in, and with just what it needs.
    Round,
    // The same where there are two outputs: before the last a byte less is lent for the second alone.
    Both,
    // A file cut to each length, with each bit turned, or without its last byte. What a reader accepts is written back.
    Cuts,
    Flips,
    Short,
}

impl Mode {
    fn is_sweep(self) -> bool {
        matches!(self, Mode::Cuts | Mode::Flips | Mode::Short)
    }

    fn is_round(self) -> bool {
        matches!(self, Mode::Round | Mode::Both)
    }
}

// What is lent is marked.
fn mark_lent(call: Call, m: &mut Machine) {
    let room = m.registers.at(registers::ROOM);
    if call.is_reader() {
        let words = &mut m.words[..];
        let n = room.min(words.len());
        marks::mark_all(&mut words[..n]);
    } else {
        let out = &mut m.out[..];
        let n = room.min(out.len());
        marks::mark_all(&mut out[..n]);
    }
    let work = &mut m.work[..];
    let n = m.registers.at(registers::WORK).min(work.len());
    marks::mark_all(&mut work[..n]);
}

// At how many places of the output the marks are gone that should be there.
fn output_faults(call: Call, written: usize, m: &Machine) -> usize {
    let room = m.registers.at(registers::ROOM);
    if call.is_reader() {
        return marks::unmarked(&m.words[..room.min(m.words.len())], written);
    }
    marks::unmarked(&m.out[..room.min(m.out.len())], written)
}

fn faults(call: Call, o: Outcome, m: &Machine) -> usize {
    let f = output_faults(call, o.written, m);
    let g = marks::work_faults(o.number, &m.work, m.registers.at(registers::WORK));
    slices::plus(o.faults, slices::plus(f, g))
}

// A reader leaves its content, the plain search none.
fn content_after(call: Call, written: usize, before: usize) -> usize {
    match call {
        Call::Read(_) => written,
        Call::Plain => 0,
        _ => before,
    }
}

fn count(k: usize, o: Outcome, faults: usize, m: &mut Machine) {
    let k = k % CALLS;
    m.group[k].count(o, faults, &m.out);
    m.group[k].digest = o.over(m.group[k].digest);
    m.all[k].count(o, faults, &m.out);
    m.outcomes = o.over(m.outcomes);
    m.last = o;
    let before = m.registers.at(registers::CONTENT);
    let content = content_after(Call::from(k), o.written, before);
    m.registers.set(registers::CONTENT, content);
}

// One call: what is lent is marked, and looked at afterwards.
fn make(k: usize, m: &mut Machine) {
    let call = Call::from(k);
    mark_lent(call, m);
    let o = calls::make(
        k,
        &m.registers,
        &m.memory,
        &mut m.out,
        &mut m.words,
        &mut m.work,
    );
    let f = faults(call, o, m);
    count(k, o, f, m);
}

fn make_and_write_back(mode: Mode, k: usize, m: &mut Machine) {
    make(k, m);
    if mode.is_sweep() && Call::from(k).is_reader() && m.last.is_accepted() {
        make(k % 5 + 5, m);
    }
}

// A byte or word less than the last call needs.
fn lend_less(m: &mut Machine) {
    m.needed = Needed {
        first: m.last.needed(),
        second: m.last.other,
    };
    let first = m.needed.first.saturating_sub(1);
    let second = m.needed.second.saturating_sub(1);
    m.registers.set(registers::ROOM, first);
    m.registers.set(registers::SECOND, second);
}

fn lend_enough(m: &mut Machine) {
    m.registers.set(registers::ROOM, m.needed.first);
    m.registers.set(registers::WORK, 16384);
}

// What is lent to call i of a round.
fn lend(mode: Mode, i: usize, m: &mut Machine) {
    if !mode.is_round() {
        return;
    }
    match i {
        0 => (),
        1 => lend_less(m),
        2 => m.registers.set(registers::WORK, 16383),
        3 => lend_enough(m),
        _ => m.registers.set(registers::SECOND, m.needed.second),
    }
}

// A part ends so far from its start.
fn cut(mode: Mode, size: usize, part: usize, m: &mut Machine) {
    if matches!(mode, Mode::Cuts | Mode::Short) {
        let start = m.registers.start(part);
        m.registers.set_end(part, slices::plus(start, size));
    }
}

// A bit of a part is turned.
fn flip(mode: Mode, bit: usize, part: usize, m: &mut Machine) {
    if mode == Mode::Flips {
        let start = m.registers.start(part) % 0x1000_0000;
        memory::flip(&mut m.memory, slices::plus(start * 8, bit));
    }
}

fn turn(mode: Mode, k: usize, part: usize, i: usize, m: &mut Machine) {
    lend(mode, i, m);
    cut(mode, i, part, m);
    flip(mode, i, part, m);
    make_and_write_back(mode, k, m);
    flip(mode, i, part, m);
}

// The places of an instruction's calls: so many, from the first on.
#[derive(Clone, Copy)]
struct Places {
    first: usize,
    stride: usize,
    count: usize,
}

impl Places {
    fn row(first: usize, count: usize) -> Places {
        Places {
            first,
            stride: 1,
            count,
        }
    }

    // Every place below a number, so many on each time.
    fn sweep(size: usize, stride: usize) -> Places {
        let count = slices::quotient(slices::plus(size, stride).saturating_sub(1), stride);
        Places {
            first: 0,
            stride,
            count,
        }
    }

    fn of(mode: Mode, part: usize, m: &Machine) -> Places {
        let start = m.registers.start(part);
        let size = m.registers.end(part).saturating_sub(start) % 0x1000_0000;
        let stride = m.registers.at(registers::STRIDE);
        match mode {
            Mode::Once | Mode::Again => Places::row(0, 1),
            Mode::Round => Places::row(0, 4),
            Mode::Both => Places::row(0, 5),
            Mode::Cuts => Places::sweep(size, stride),
            Mode::Flips => Places::sweep(size * 8, stride),
            Mode::Short => Places::row(size.saturating_sub(1), 1),
        }
    }
}

// A call for each place.
fn turns(mode: Mode, k: usize, part: usize, places: Places, m: &mut Machine) {
    let mut i = places.first;
    for _ in 0..places.count {
        turn(mode, k, part, i, m);
        i = slices::plus(i, places.stride);
    }
}

// The calls of one instruction, after which what is lent and where the part ends are as before.
pub fn run(mode: Mode, k: usize, part: usize, m: &mut Machine) {
    let room = m.registers.at(registers::ROOM);
    let second = m.registers.at(registers::SECOND);
    let lent = m.registers.at(registers::WORK);
    let end = m.registers.end(part);
    let places = Places::of(mode, part, m);
    m.outcomes = digest::START;
    turns(mode, k, part, places, m);
    m.registers.set(registers::ROOM, room);
    m.registers.set(registers::SECOND, second);
    m.registers.set(registers::WORK, lent);
    m.registers.set_end(part, end);
}
