// Terms: the days on which each view is in force.
ghost use Rattle.std.specs.Prelude.{◌≡◌, ◌<◌, ◌≤◌};
ghost use Rattle.containment.specs.Terms.{no_terms, with_term, first_turned, TermsJudged, DayJudged, is_in_force, in_force, usable_for};

use crate::choose;
use matching::sets;
use packed::reply::{Refusal, Reply};

// The days of one view: the first on which it is in force, and the first after that on which it isn't.
#[repr(C)]
#[derive(Clone, Copy)]
pub struct Term {
    pub from: u16,
    pub to: u16,
}

// How many entries a list of terms has, and the days of the first sixteen; zero beyond them. It goes by
// value through the C interface, so the days stay in arrays with their number.
#[repr(C)]
#[derive(Clone, Copy)]
pub struct Terms {
    pub number: usize,
    pub from: [u16; 16],
    pub to: [u16; 16],
}

// Nothing is noted of so many entries.
pub(crate) fn no_terms(number: usize) -> Terms
    ensures { result ≡ no_terms number }
{
    Terms {
        number,
        from: [0u16; 16],
        to: [0u16; 16],
    }
}

// The entry i is noted.
pub(crate) fn with_term(t: Terms, i: usize, e: Term) -> Terms
    requires { i < 16 }
    ensures { result ≡ with_term t i e }
{
    let mut next = t;
    next.from[i] = e.from;
    next.to[i] = e.to;
    next
}

// The first of k entries whose from-day isn't below its to-day, or k.
pub fn first_turned(t: Terms, k: usize) -> usize
    requires { k ≤ 16 }
    ensures { result ≡ first_turned t k }
{
    for a in 0..k {
        if t.to[a] <= t.from[a] {
            return a;
        }
    }
    k
}

// The terms are judged beside k views.
pub fn judge_terms(t: Terms, k: usize) -> Reply
    requires { k ≤ 16 }
    ensures { TermsJudged t k result }
{
    let number = t.number;
    if number != k {
        return Err(Refusal::WrongTerms(number));
    }
    let turned = first_turned(t, k);
    if turned < k {
        return Err(Refusal::WrongTerms(turned));
    }
    Ok(0)
}

// The terms of a day, if there is one, are judged beside k views.
pub(crate) fn judge_day(day: Option<(Terms, u16)>, k: usize) -> Reply
    requires { k ≤ 16 }
    ensures { DayJudged day k result }
{
    match day {
        Some((t, _)) => judge_terms(t, k),
        None => Ok(0),
    }
}

// Whether a day lies in a term: the from-day counts, the to-day doesn't.
fn is_in_force(from: u16, to: u16, day: u16) -> bool
    ensures { result ≡ is_in_force from to day }
{
    (from <= day) & (day < to)
}

// Those of the first k views that are in force on a day.
pub fn in_force(t: Terms, day: u16, k: usize) -> u32
    requires { k ≤ 16 }
    ensures { result ≡ in_force t day k }
{
    let mut set: u32 = 0;
    for a in 0..k {
        if is_in_force(t.from[a], t.to[a], day) {
            set = set + sets::only(a);
        }
    }
    set
}

// Those of k views that may be used: the ones in force on a day, or all where there is none.
pub(crate) fn usable_for(day: Option<(Terms, u16)>, k: usize) -> u32
    requires { k ≤ 16 }
    ensures { result ≡ usable_for day k }
{
    match day {
        Some((t, d)) => in_force(t, d, k),
        None => choose::EVERY_VIEW,
    }
}
