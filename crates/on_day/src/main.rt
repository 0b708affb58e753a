// Makes a call for a day on files of the folder it is run in: `question`, `catalogue`, `terms`, which has a line with a from-day and a to-day for
// each extract, and `day`; `one_way` names the extracts that are matched one-way. Which call its argument says, of which the first letter counts:
// `quote` prints the quote, `cheapest` the cheapest set by the file `charges`, `part` writes `part` and `part_answer` from the file `book`, `show`
// writes `first` and `second`, `first` prints the first day not before the given one.
#![tactic(auto)]

use containment::costing::Cheapest;
use containment::days::FirstDay;
use containment::terms::Terms;
use folder::days::Days;
use folder::{both, days, files, lent, lines, numbers};
use listing::print;
use std::env::Env;
use std::io;
use std::rt::Files;

// What a call is asked about.
#[derive(Clone, Copy)]
struct Asked<'a> {
    question: &'a [u8],
    catalogue: &'a [u8],
    one_way: u16,
    terms: Terms,
    day: u16,
}

fn say_cheapest(rt: &impl Print, c: Cheapest, charges: usize) -> io::Result<()> {
    match c {
        Ok((set, sum, _)) => lines::cheapest(rt, set, sum),
        Err(x) => lines::refused(rt, lines::with_charges(x, charges)),
    }
}

fn cheapest(rt: &(impl Files + Print + Eprint), a: Asked) -> io::Result<()> {
    let mut charges = [0; lent::CHARGES];
    let mut work = [0; lent::WORK];
    let count = match numbers::read_list(rt, b"charges", &mut charges) {
        Ok(count) => count,
        Err(wrong) => {
            lines::failed_at(rt, b"charges", wrong.line);
            return Ok(());
        }
    };
    let n = count.min(charges.len());
    let c = containment::cheapest_on(
        a.question,
        a.catalogue,
        a.one_way,
        a.terms,
        a.day,
        &charges[..n],
        &mut work,
    );
    say_cheapest(rt, c, count)
}

fn quote(rt: &impl Print, a: Asked) -> io::Result<()> {
    let mut work = [0; lent::WORK];
    let q = containment::quote_on(
        a.question,
        a.catalogue,
        a.one_way,
        a.terms,
        a.day,
        &mut work,
    );
    print::quote(rt, q)
}

fn part(rt: &(impl Files + Print + Eprint), a: Asked) -> io::Result<()> {
    let mut book = [0; lent::SHEET];
    let mut part = [0; lent::PART];
    let mut answer = [0; lent::OUTPUT];
    let mut work = [0; lent::WORK];
    let k = files::read(rt, b"book", &mut book);
    let found = answering::part_on(
        a.question,
        a.catalogue,
        a.one_way,
        a.terms,
        a.day,
        &book[..k],
        &mut part,
        &mut answer,
        &mut work,
    );
    both::finish_part(rt, found, &part, &answer)
}

fn show(rt: &(impl Files + Print + Eprint), a: Asked) -> io::Result<()> {
    let mut first = [0; lent::SHOWN];
    let mut second = [0; lent::SHOWN];
    let mut work = [0; lent::WORK];
    let shown = answering::show_on(
        a.question,
        a.catalogue,
        a.one_way,
        a.terms,
        a.day,
        &mut first,
        &mut second,
        &mut work,
    );
    both::finish_show(rt, shown, &first, &second)
}

fn say_first_day(rt: &impl Print, f: FirstDay) -> io::Result<()> {
    match f {
        Ok(Some(day)) => println!(rt; "first day {day}"),
        Ok(None) => lines::say(rt, b"first day none\n"),
        Err(x) => lines::refused(rt, x),
    }
}

fn first_day(rt: &impl Print, a: Asked) -> io::Result<()> {
    let mut work = [0; lent::WORK];
    let f = containment::first_day(
        a.question,
        a.catalogue,
        a.one_way,
        a.terms,
        a.day,
        &mut work,
    );
    say_first_day(rt, f)
}

fn terms_of(d: Days) -> Terms {
    let from = d.from;
    let to = d.to;
    Terms {
        number: d.count,
        from,
        to,
    }
}

// By the letter itself: it is looked at once, and an enum of the calls would only stand between this match and another.
fn make(rt: &(impl Files + Print + Eprint), letter: u8, a: Asked) -> io::Result<()> {
    match letter {
        b'q' => quote(rt, a),
        b'c' => cheapest(rt, a),
        b'p' => part(rt, a),
        b's' => show(rt, a),
        b'f' => first_day(rt, a),
        _ => {
            lines::failed(rt, b"argument");
            Ok(())
        }
    }
}

// What the text files say is there; the others are read here.
fn run(
    rt: &(impl Files + Print + Eprint),
    letter: u8,
    one_way: u16,
    terms: Terms,
    day: u16,
) -> io::Result<()> {
    let mut question = [0; lent::QUESTION];
    let mut catalogue = [0; lent::CATALOGUE];
    let n = files::read(rt, b"question", &mut question);
    let m = files::read(rt, b"catalogue", &mut catalogue);
    let asked = Asked {
        question: &question[..n],
        catalogue: &catalogue[..m],
        one_way,
        terms,
        day,
    };
    make(rt, letter, asked)
}

// The first letter of the argument, 0 where there is none. Of a longer one than there is room for the first letters are there all the same.
fn letter(env: &impl Env) -> u8 {
    let mut word = [0u8; 16];
    let _ = env.arg(1, &mut word);
    word[0]
}

// The day of the file `day`, 0 to 65,535.
fn read_day(rt: &impl Files) -> Option<u16> {
    u16::try_from(numbers::read_number(rt, b"day")?).ok()
}

fn main(rt: HostRuntime) -> io::Result<()> {
    let Some(one_way) = folder::extracts(&rt, b"one_way") else {
        return Ok(());
    };
    let days = match days::read_days(&rt, b"terms") {
        Ok(days) => days,
        Err(wrong) => {
            lines::failed_at(&rt, b"terms", wrong.line);
            return Ok(());
        }
    };
    let Some(day) = read_day(&rt) else {
        lines::failed(&rt, b"day");
        return Ok(());
    };
    run(&rt, letter(&rt), one_way, terms_of(days), day)
}
