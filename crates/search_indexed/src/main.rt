// Searches the file `record` for the file `question` by the record's index, which is the file `index`, all in the folder it is run in, and writes the file
// `sheet` there.
#![tactic(auto)]

use folder::{entries, files, lent, lines};
use packed::reply::Reply;
use std::io;

// By the first entries, as many as the file has or the buffer holds.
fn search(
    question: &[u8],
    record: &[u8],
    index: &[u16],
    count: usize,
    sheet: &mut [u8],
    work: &mut [u32],
) -> Reply {
    let n = count.min(index.len());
    let reply = matching::search_indexed(question, record, &index[..n], sheet, work);
    entries::counted(reply, count)
}

fn main(rt: HostRuntime) -> io::Result<()> {
    let mut question = [0; lent::QUESTION];
    let mut record = [0; lent::RECORD];
    let mut bytes = [0; lent::INDEX_BYTES];
    let mut index = [0; lent::INDEX];
    let mut sheet = [0; lent::OUTPUT];
    let mut work = [0; lent::WORK];
    let size = files::read_whole(&rt, b"index", &mut bytes);
    if size % 2 == 1 {
        lines::failed(&rt, b"index");
        return Ok(());
    }
    entries::unpack(&bytes, &mut index);
    let n = files::read(&rt, b"question", &mut question);
    let m = files::read(&rt, b"record", &mut record);
    let reply = search(
        &question[..n],
        &record[..m],
        &index,
        size / 2,
        &mut sheet,
        &mut work,
    );
    folder::finish(&rt, reply, &sheet, b"sheet", b"sheet.new")
}
