// Makes the book of the file `catalogue`, whose extracts that the file `one_way` names are matched one-way, from the file `record`, all in the folder
// it is run in, and writes the file `book` there.
#![tactic(auto)]

use folder::{files, lent};
use std::io;

fn main(rt: HostRuntime) -> io::Result<()> {
    let mut catalogue = [0; lent::CATALOGUE];
    let mut record = [0; lent::RECORD];
    let mut book = [0; lent::OUTPUT];
    let mut work = [0; lent::WORK];
    let Some(one_way) = folder::extracts(&rt, b"one_way") else {
        return Ok(());
    };
    let n = files::read(&rt, b"catalogue", &mut catalogue);
    let m = files::read(&rt, b"record", &mut record);
    let reply = matching::make_book(&catalogue[..n], one_way, &record[..m], &mut book, &mut work);
    folder::finish(&rt, reply, &book, b"book", b"book.new")
}
