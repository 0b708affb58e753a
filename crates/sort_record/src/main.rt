// Sorts the links of the file `old`, a record that was stored before they had kinds, or even an order, in the folder it is run in, and writes the file
// `record` there, each link with kind 0.
#![tactic(auto)]

use folder::{files, lent};
use std::io;

fn main(rt: HostRuntime) -> io::Result<()> {
    let mut old = [0; lent::OLD_RECORD];
    let mut record = [0; lent::OUTPUT];
    let mut work = [0; lent::WORK];
    let n = files::read(&rt, b"old", &mut old);
    let reply = packed::sort_record(&old[..n], &mut record, &mut work);
    folder::finish(&rt, reply, &record, b"record", b"record.new")
}
