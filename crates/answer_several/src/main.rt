// Answers the questions of the file `questions`, as many as the file `number` says in decimal, from the file `book`, which belongs to the file
// `catalogue` and to the set of its extracts that are matched one-way, which the file `one_way` has, all in the folder it is run in, and writes the
// file `answers` there: the answers one after the other.
#![tactic(auto)]

use answering::several::Several;
use folder::{files, lent, lines, numbers};
use std::io;
use std::rt::Files;

fn finish(rt: &(impl Files + Print + Eprint), found: Several, answers: &[u8]) -> io::Result<()> {
    match found {
        Ok((n, sheets)) => keep(rt, answers, n, sheets),
        Err(x) => lines::refused(rt, x),
    }
}

// The first n bytes become the file; a call never answers more than it was lent. The line also says how many sheets of the book were needed.
fn keep(
    rt: &(impl Files + Print + Eprint),
    answers: &[u8],
    n: usize,
    sheets: u32,
) -> io::Result<()> {
    if answers.len() < n {
        lines::failed(rt, b"answers");
        return Ok(());
    }
    if files::write(rt, b"answers", b"answers.new", &answers[..n]) {
        lines::written(rt, b"answers", n)?;
        println!(rt; ", {sheets} sheets")?;
    }
    Ok(())
}

fn main(rt: HostRuntime) -> io::Result<()> {
    let mut questions = [0; lent::QUESTIONS];
    let mut catalogue = [0; lent::CATALOGUE];
    let mut book = [0; lent::SHEET];
    let mut answers = lent::answers_bytes();
    let mut work = [0; lent::WORK];
    let Some(number) = numbers::read_number(&rt, b"number") else {
        lines::failed(&rt, b"number");
        return Ok(());
    };
    let Some(one_way) = folder::extracts(&rt, b"one_way") else {
        return Ok(());
    };
    let n = files::read(&rt, b"questions", &mut questions);
    let m = files::read(&rt, b"catalogue", &mut catalogue);
    let k = files::read(&rt, b"book", &mut book);
    let found = answering::answer_several(
        &questions[..n],
        number,
        &catalogue[..m],
        one_way,
        &book[..k],
        &mut answers,
        &mut work,
    );
    finish(&rt, found, &answers)
}
