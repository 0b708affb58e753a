// Shows why the file `question` is not covered by the file `catalogue`, whose extracts that the file `one_way` names are matched one-way, all in the
// folder it is run in: writes the records `first` and `second` there. Neither takes its name before both are written.
#![tactic(auto)]

use folder::{both, files, lent};
use std::io;

fn main(rt: HostRuntime) -> io::Result<()> {
    let mut question = [0; lent::QUESTION];
    let mut catalogue = [0; lent::CATALOGUE];
    let mut first = [0; lent::SHOWN];
    let mut second = [0; lent::SHOWN];
    let mut work = [0; lent::WORK];
    let Some(one_way) = folder::extracts(&rt, b"one_way") else {
        return Ok(());
    };
    let n = files::read(&rt, b"question", &mut question);
    let m = files::read(&rt, b"catalogue", &mut catalogue);
    let shown = answering::show_uncovered(
        &question[..n],
        &catalogue[..m],
        one_way,
        &mut first,
        &mut second,
        &mut work,
    );
    both::finish_show(&rt, shown, &first, &second)
}
