// Finds the part of the file `question` that the extracts of the file `catalogue` answer, and answers it from the file `book`, which belongs to the
// catalogue and to the set of its extracts that are matched one-way, which the file `one_way` has, all in the folder it is run in: writes the files
// `part` and `part_answer` there. Neither takes its name before both are written.
#![tactic(auto)]

use folder::{both, files, lent};
use std::io;

fn main(rt: HostRuntime) -> io::Result<()> {
    let mut question = [0; lent::QUESTION];
    let mut catalogue = [0; lent::CATALOGUE];
    let mut book = [0; lent::SHEET];
    let mut part = [0; lent::PART];
    let mut answer = [0; lent::OUTPUT];
    let mut work = [0; lent::WORK];
    let Some(one_way) = folder::extracts(&rt, b"one_way") else {
        return Ok(());
    };
    let n = files::read(&rt, b"question", &mut question);
    let m = files::read(&rt, b"catalogue", &mut catalogue);
    let k = files::read(&rt, b"book", &mut book);
    let found = answering::part(
        &question[..n],
        &catalogue[..m],
        one_way,
        &book[..k],
        &mut part,
        &mut answer,
        &mut work,
    );
    both::finish_part(&rt, found, &part, &answer)
}
