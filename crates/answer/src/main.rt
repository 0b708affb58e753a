// Answers the file `question` from the file `book`, which belongs to the file `catalogue` and to the set of its extracts that are matched one-way,
// which the file `one_way` has, all in the folder it is run in, and writes the file `answer` there.
#![tactic(auto)]

use folder::{files, lent};
use std::io;

fn main(rt: HostRuntime) -> io::Result<()> {
    let mut question = [0; lent::QUESTION];
    let mut catalogue = [0; lent::CATALOGUE];
    let mut book = [0; lent::SHEET];
    let mut answer = [0; lent::OUTPUT];
    let mut work = [0; lent::WORK];
    let Some(one_way) = folder::extracts(&rt, b"one_way") else {
        return Ok(());
    };
    let n = files::read(&rt, b"question", &mut question);
    let m = files::read(&rt, b"catalogue", &mut catalogue);
    let k = files::read(&rt, b"book", &mut book);
    let reply = answering::answer(
        &question[..n],
        &catalogue[..m],
        one_way,
        &book[..k],
        &mut answer,
        &mut work,
    );
    folder::finish(&rt, reply, &answer, b"answer", b"answer.new")
}
