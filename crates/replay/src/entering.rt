// The calls by which a link enters a record. Asking has no output. What a commit writes is marked and looked at here; it goes to the output
// one after the other: the record, its index, two bytes for each entry, and the state after it, four bytes for each number.
use crate::calls::Parts;
use crate::outcome::{Form, Outcome};
use crate::registers::Registers;
use crate::{both, digest, indexed, marks, registers, slices};
use matching::entering::Answered;
use matching::state::{Link, Slip, State};
use packed::reply::Refusal;

fn state(registers: &Registers) -> State {
    State {
        links: registers.thirty_two(registers::STATE_LINKS),
        change: registers.thirty_two(registers::STATE_CHANGE),
    }
}

fn link(registers: &Registers) -> Link {
    Link {
        from: registers.thirty_two(registers::LINK_FROM),
        to: registers.thirty_two(registers::LINK_TO),
        kind: registers.thirty_two(registers::LINK_OF),
    }
}

fn slip(registers: &Registers) -> Slip {
    Slip {
        from: registers.thirty_two(registers::LINK_FROM),
        to: registers.thirty_two(registers::LINK_TO),
        kind: registers.thirty_two(registers::LINK_OF),
        change: registers.thirty_two(registers::SLIP_CHANGE),
    }
}

fn over_slip(h: u64, s: Slip) -> u64 {
    let ends = digest::step(digest::step(h, s.from as u64), s.to as u64);
    digest::step(digest::step(ends, s.kind as u64), s.change as u64)
}

pub fn ask(f: Parts, registers: &Registers, work: &mut [u32]) -> Outcome {
    let a = yuthaqim::yuthaqim_ask(
        f.catalogue,
        f.one_way,
        f.record,
        state(registers),
        link(registers),
        work,
    );
    let value = if a.number == 0 {
        a.set as usize
    } else {
        a.detail
    };
    let d = over_slip(digest::step(digest::START, a.set as u64), a.slip);
    Outcome::values(Form::Asked, a.number, value, a.slip.change as usize, d)
}

// A number goes to four bytes from a place on, the most significant first.
fn put_number(x: u32, out: &mut [u8], place: usize) {
    slices::copy(&x.to_be_bytes(), 4, out, place);
}

fn unmarked(first: &[u8], n: usize, entries: &[u16], m: usize) -> usize {
    slices::plus(marks::unmarked(first, n), marks::unmarked(entries, m))
}

fn entered(
    n: usize,
    m: usize,
    after: State,
    first: &[u8],
    entries: &[u16],
    out: &mut [u8],
) -> Outcome {
    slices::copy(first, n, out, 0);
    let start = n.min(out.len());
    indexed::give(entries, m, &mut out[start..]);
    let end = slices::plus(n, slices::plus(m, m));
    put_number(after.links, out, end);
    put_number(after.change, out, slices::plus(end, 4));
    let written = slices::plus(end, 8);
    let d = digest::over(digest::START, out, written);
    Outcome {
        written,
        faults: unmarked(first, n, entries, m),
        ..Outcome::values(Form::Entered, 0, n, m, d)
    }
}

// A refusal leaves the state as it came.
fn refused(x: Refusal, before: State, after: State, first: &[u8], entries: &[u16]) -> Outcome {
    let changed = (before.links != after.links) | (before.change != after.change);
    Outcome {
        form: Form::Entered,
        faults: slices::plus(unmarked(first, 0, entries, 0), usize::from(changed)),
        ..Outcome::refused(x.number(), x.detail())
    }
}

fn told(w: Answered, before: State, first: &[u8], entries: &[u16], out: &mut [u8]) -> Outcome {
    let after = State {
        links: w.links,
        change: w.change,
    };
    let answer = w.answer;
    match answer {
        Ok((n, m)) => entered(n, m, after, first, entries, out),
        Err(x) => refused(x, before, after, first, entries),
    }
}

// A client's call is lent the state itself; what it does is proved to be this, on the two numbers.
fn make(
    record: &[u8],
    before: State,
    s: Slip,
    first: &mut [u8],
    entries: &mut [u16],
    work: &mut [u32],
) -> Answered {
    marks::mark_all(first);
    marks::mark_all(entries);
    matching::entering::commit(record, before.links, before.change, s, first, entries, work)
}

fn commit_in(
    record: &[u8],
    registers: &Registers,
    first: &mut [u8],
    entries: &mut [u16],
    out: &mut [u8],
    work: &mut [u32],
) -> Outcome {
    let before = state(registers);
    let w = make(record, before, slip(registers), first, entries, work);
    told(w, before, first, entries, out)
}

pub fn commit(record: &[u8], registers: &Registers, out: &mut [u8], work: &mut [u32]) -> Outcome {
    let mut first = [0; both::FIRST];
    let mut entries = [0; indexed::ENTRIES];
    let n = registers.at(registers::ROOM).min(both::FIRST);
    let m = registers.at(registers::SECOND).min(indexed::ENTRIES);
    commit_in(
        record,
        registers,
        &mut first[..n],
        &mut entries[..m],
        out,
        work,
    )
}
