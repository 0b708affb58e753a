// A day, with terms from the bytes of a part, four for each entry: its from-day and its to-day. And the call that answers a first day.
use crate::calls::Parts;
use crate::outcome::{Form, Outcome};
use crate::registers::Registers;
use crate::{digest, registers, slices};
use containment::terms::Terms;
use std::array;

#[derive(Clone, Copy)]
pub struct Day {
    pub terms: Terms,
    pub day: u16,
}

impl Day {
    // The terms are the fifth part.
    pub fn of(registers: &Registers, memory: &[u8]) -> Day {
        Day {
            terms: terms_of(registers.part(4, memory)),
            day: registers.sixteen(registers::DAY),
        }
    }
}

fn day_at(bytes: &[u8], place: usize) -> u16 {
    let high: u8 = slices::at(bytes, place);
    let low: u8 = slices::at(bytes, slices::plus(place, 1));
    u16::from_be_bytes([high, low])
}

fn terms_of(bytes: &[u8]) -> Terms {
    Terms {
        number: bytes.len() / 4,
        from: array::from_fn(|i| day_at(bytes, i.saturating_mul(4))),
        to: array::from_fn(|i| day_at(bytes, i.saturating_mul(4).saturating_add(2))),
    }
}

pub fn first_day(f: Parts, day: Day, work: &mut [u32]) -> Outcome {
    let d = yuthaqim::yuthaqim_first_day(
        f.question,
        f.catalogue,
        f.one_way,
        day.terms,
        day.day,
        work,
    );
    let value = if d.number == 0 {
        d.found as usize
    } else {
        d.detail
    };
    let h = digest::step(digest::step(digest::START, d.found as u64), d.day as u64);
    Outcome::values(Form::Day, d.number, value, d.day as usize, h)
}
