// The two outputs of one program. Neither takes its name before both are written.
use crate::{files, lines};
use packed::reply::Both;
use std::io;
use std::rt::Files;

// Where an output goes: the name that it takes, and the one that it has until then.
#[derive(Clone, Copy)]
pub struct Names<'a> {
    pub name: &'a [u8],
    pub temporary: &'a [u8],
}

// Both under their temporary names, or neither.
fn make(
    rt: &(impl Files + Eprint),
    first: &[u8],
    temporary: &[u8],
    second: &[u8],
    other: &[u8],
) -> bool {
    if !files::make(rt, temporary, first) {
        return false;
    }
    if files::make(rt, other, second) {
        return true;
    }
    files::remove(rt, temporary);
    false
}

// Both take their names, one after the other. A folder under the name of the second would stop it, and is looked for before the first is there: by
// that name with a slash behind it.
fn place(rt: &(impl Files + Eprint), first: Names, second: Names, folder: &[u8]) -> bool {
    if files::opens(rt, folder) {
        lines::failed(rt, second.name);
        files::remove(rt, first.temporary);
        files::remove(rt, second.temporary);
        return false;
    }
    if files::place(rt, first.temporary, first.name) {
        return files::place(rt, second.temporary, second.name);
    }
    files::remove(rt, second.temporary);
    false
}

// Each becomes the file of its name, by way of a new file of its temporary name, and a line says how long they are.
fn keep_whole(
    rt: &(impl Files + Print + Eprint),
    first: &[u8],
    first_names: Names,
    second: &[u8],
    second_names: Names,
    folder: &[u8],
) -> io::Result<()> {
    if !make(
        rt,
        first,
        first_names.temporary,
        second,
        second_names.temporary,
    ) {
        return Ok(());
    }
    if place(rt, first_names, second_names, folder) {
        lines::written(rt, first_names.name, first.len())?;
        lines::say(rt, b", ")?;
        lines::written(rt, second_names.name, second.len())?;
        lines::say(rt, b"\n")?;
    }
    Ok(())
}

// The first n bytes of the one output and m of the other become the files of these names, each by way of a new file of its temporary name, and a line
// says how long they are. `folder` is the name of the second with a slash behind it. A call never answers more than it was lent.
pub fn keep(
    rt: &(impl Files + Print + Eprint),
    first: &[u8],
    n: usize,
    first_names: Names,
    second: &[u8],
    m: usize,
    second_names: Names,
    folder: &[u8],
) -> io::Result<()> {
    let Some(first) = first.get(..n) else {
        lines::failed(rt, first_names.name);
        return Ok(());
    };
    let Some(second) = second.get(..m) else {
        lines::failed(rt, second_names.name);
        return Ok(());
    };
    keep_whole(rt, first, first_names, second, second_names, folder)
}

// A call that wrote a part of a question and its answer is finished: they become the files `part` and `part_answer`. A refusal is printed and leaves
// the folder as it was.
pub fn finish_part(
    rt: &(impl Files + Print + Eprint),
    found: Both,
    part: &[u8],
    answer: &[u8],
) -> io::Result<()> {
    let part_names = Names {
        name: b"part",
        temporary: b"part.new",
    };
    let answer_names = Names {
        name: b"part_answer",
        temporary: b"part_answer.new",
    };
    match found {
        Ok((n, m)) => keep(
            rt,
            part,
            n,
            part_names,
            answer,
            m,
            answer_names,
            b"part_answer/",
        ),
        Err(x) => lines::refused(rt, x),
    }
}

// The same with the records that show why a question is uncovered, and the files `first` and `second`.
pub fn finish_show(
    rt: &(impl Files + Print + Eprint),
    shown: Both,
    first: &[u8],
    second: &[u8],
) -> io::Result<()> {
    let first_names = Names {
        name: b"first",
        temporary: b"first.new",
    };
    let second_names = Names {
        name: b"second",
        temporary: b"second.new",
    };
    match shown {
        Ok((n, m)) => keep(
            rt,
            first,
            n,
            first_names,
            second,
            m,
            second_names,
            b"second/",
        ),
        Err(x) => lines::refused(rt, x),
    }
}
