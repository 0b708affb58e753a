// Makes the index of the file `record` in the folder it is run in, and writes the file `index` there: 16 bits an entry, most significant byte first.
#![tactic(auto)]

ghost use Rattle.std.specs.Prelude.{◌≡◌, length};

use folder::{entries, files, lent, lines};
use std::io;
use std::rt::Files;

// The first n entries; a call never answers more than it was lent.
fn keep(rt: &(impl Files + Print + Eprint), index: &[u16], n: usize) -> io::Result<()>
    requires { length index.now ≡ 4098 }
{
    if lent::INDEX < n {
        lines::failed(rt, b"index");
        return Ok(());
    }
    let size = 2 * n;
    let mut bytes = [0; lent::INDEX_BYTES];
    entries::pack(index, &mut bytes);
    if files::write(rt, b"index", b"index.new", &bytes[..size]) {
        println!(rt; "index {n} entries")?;
    }
    Ok(())
}

fn main(rt: HostRuntime) -> io::Result<()> {
    let mut record = [0; lent::RECORD];
    let mut index = [0; lent::INDEX];
    let mut work = [0; lent::WORK];
    let m = files::read(&rt, b"record", &mut record);
    let reply = matching::make_index(&record[..m], &mut index, &mut work);
    match reply {
        Ok(n) => keep(&rt, &index, n),
        Err(x) => lines::refused(&rt, x),
    }
}
