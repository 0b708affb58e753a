// The calls with two outputs, which are marked and looked at here. They go to the output one after the other. Terms and a day are for those that are
// made for one.
use crate::calls::Parts;
use crate::outcome::{Form, Outcome};
use crate::registers::Registers;
use crate::terms::Day;
use crate::{digest, marks, registers, slices};
use yuthaqim::numbered::NumberedBoth;

// More than a record may have, and more than a sheet may; no more of an output is lent.
pub const FIRST: usize = 44100;

const SECOND: usize = 66000;

// The two outputs: the part of a question and its answer, or the records that show why it is uncovered.
#[derive(Clone, Copy)]
pub enum Pair {
    Part,
    Show,
}

// What was written to both.
fn wrote(p: NumberedBoth, first: &[u8], second: &[u8]) -> Outcome {
    let n = p.first;
    let m = p.second;
    let value = if p.number == 0 { n } else { p.detail };
    let d = digest::over(digest::over(digest::START, first, n), second, m);
    Outcome {
        written: slices::plus(n, m),
        faults: slices::plus(marks::unmarked(first, n), marks::unmarked(second, m)),
        ..Outcome::values(Form::Both, p.number, value, m, d)
    }
}

fn part(
    f: Parts,
    day: Option<Day>,
    first: &mut [u8],
    second: &mut [u8],
    work: &mut [u32],
) -> NumberedBoth {
    match day {
        None => yuthaqim::yuthaqim_part(
            f.question,
            f.catalogue,
            f.one_way,
            f.sheets,
            first,
            second,
            work,
        ),
        Some(d) => yuthaqim::yuthaqim_part_on(
            f.question,
            f.catalogue,
            f.one_way,
            d.terms,
            d.day,
            f.sheets,
            first,
            second,
            work,
        ),
    }
}

fn show(
    f: Parts,
    day: Option<Day>,
    first: &mut [u8],
    second: &mut [u8],
    work: &mut [u32],
) -> NumberedBoth {
    match day {
        None => yuthaqim::yuthaqim_show_uncovered(
            f.question,
            f.catalogue,
            f.one_way,
            first,
            second,
            work,
        ),
        Some(d) => yuthaqim::yuthaqim_show_on(
            f.question,
            f.catalogue,
            f.one_way,
            d.terms,
            d.day,
            first,
            second,
            work,
        ),
    }
}

fn make_in(
    pair: Pair,
    f: Parts,
    day: Option<Day>,
    first: &mut [u8],
    second: &mut [u8],
    work: &mut [u32],
) -> Outcome {
    marks::mark_all(first);
    marks::mark_all(second);
    let p = match pair {
        Pair::Part => part(f, day, first, second, work),
        Pair::Show => show(f, day, first, second, work),
    };
    wrote(p, first, second)
}

pub fn make(
    pair: Pair,
    f: Parts,
    day: Option<Day>,
    registers: &Registers,
    out: &mut [u8],
    work: &mut [u32],
) -> Outcome {
    let mut first = [0; FIRST];
    let mut second = [0; SECOND];
    let n = registers.at(registers::ROOM).min(FIRST);
    let m = registers.at(registers::SECOND).min(SECOND);
    let o = make_in(pair, f, day, &mut first[..n], &mut second[..m], work);
    let n = o.written.saturating_sub(o.other);
    slices::copy(&first, n, out, 0);
    slices::copy(&second, o.other, out, n);
    o
}
