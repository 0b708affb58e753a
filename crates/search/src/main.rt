// Searches the file `record` for the file `question`, both in the folder it is run in, and writes the file `sheet` there.
#![tactic(auto)]

use folder::{files, lent};
use std::io;

fn main(rt: HostRuntime) -> io::Result<()> {
    let mut question = [0; lent::QUESTION];
    let mut record = [0; lent::RECORD];
    let mut sheet = [0; lent::OUTPUT];
    let mut work = [0; lent::WORK];
    let n = files::read(&rt, b"question", &mut question);
    let m = files::read(&rt, b"record", &mut record);
    let reply = matching::search(&question[..n], &record[..m], &mut sheet, &mut work);
    folder::finish(&rt, reply, &sheet, b"sheet", b"sheet.new")
}
