// Enters the link of the file `slip`, which `ask` wrote, into the file `record`, beside the file `state`, which has the record's link count and its
// change number, one to a line. All are in the folder it is run in. Writes the files `record`, `index` and `state` there: none takes its name before
// all are written, and then they take them in this order.
#![tactic(auto)]

ghost use Rattle.std.specs.Prelude.{◌≡◌, length};

use folder::{entries, files, lent, lines};
use matching::entering;
use matching::entering::Answered;
use matching::state::Slip;
use std::io;
use std::rt::Files;

// All under their temporary names, or none.
fn make(rt: &(impl Files + Eprint), record: &[u8], index: &[u8], state: &[u32]) -> bool {
    if !files::make(rt, b"record.new", record) {
        return false;
    }
    if !files::make(rt, b"index.new", index) {
        files::remove(rt, b"record.new");
        return false;
    }
    if files::make_list(rt, b"state.new", state) {
        return true;
    }
    files::remove(rt, b"record.new");
    files::remove(rt, b"index.new");
    false
}

// All take their names. A folder under that of the index would stop it, and is looked for before the record is there; the other two are files that
// were read.
fn place(rt: &(impl Files + Eprint)) -> bool {
    if files::opens(rt, b"index/") {
        lines::failed(rt, b"index");
        files::remove(rt, b"record.new");
        files::remove(rt, b"index.new");
        files::remove(rt, b"state.new");
        return false;
    }
    if !files::place(rt, b"record.new", b"record") {
        files::remove(rt, b"index.new");
        files::remove(rt, b"state.new");
        return false;
    }
    if !files::place(rt, b"index.new", b"index") {
        files::remove(rt, b"state.new");
        return false;
    }
    files::place(rt, b"state.new", b"state")
}

// The first n bytes of the record and m entries of the index become files, and the two numbers of the state. A call never answers more than it was
// lent.
fn keep(
    rt: &(impl Files + Print + Eprint),
    record: &[u8],
    n: usize,
    index: &[u16],
    m: usize,
    state: &[u32],
) -> io::Result<()>
    requires { length index.now ≡ 4098 }
{
    if record.len() < n {
        lines::failed(rt, b"record");
        return Ok(());
    }
    if lent::INDEX < m {
        lines::failed(rt, b"index");
        return Ok(());
    }
    let size = 2 * m;
    let mut bytes = [0; lent::INDEX_BYTES];
    entries::pack(index, &mut bytes);
    if !make(rt, &record[..n], &bytes[..size], state) {
        return Ok(());
    }
    if place(rt) {
        println!(rt; "entered {n} {m}")?;
    }
    Ok(())
}

fn finish(
    rt: &(impl Files + Print + Eprint),
    done: Answered,
    record: &[u8],
    index: &[u16],
) -> io::Result<()>
    requires { length index.now ≡ 4098 }
{
    let answer = done.answer;
    let state = [done.links, done.change];
    match answer {
        Ok((n, m)) => keep(rt, record, n, index, m, &state),
        Err(x) => lines::refused(rt, x),
    }
}

// What the text files say is there; the record is read here.
fn run(rt: &(impl Files + Print + Eprint), links: u32, change: u32, slip: Slip) -> io::Result<()> {
    let mut record = [0; lent::RECORD];
    let mut out = [0; lent::OUTPUT];
    let mut index = [0; lent::INDEX];
    let mut work = [0; lent::WORK];
    let n = files::read(rt, b"record", &mut record);
    let done = entering::commit(
        &record[..n],
        links,
        change,
        slip,
        &mut out,
        &mut index,
        &mut work,
    );
    finish(rt, done, &out, &index)
}

fn main(rt: HostRuntime) -> io::Result<()> {
    let Some(state) = folder::list::<2>(&rt, b"state") else {
        return Ok(());
    };
    let Some(slip) = folder::list::<4>(&rt, b"slip") else {
        return Ok(());
    };
    run(
        &rt,
        state[0],
        state[1],
        Slip {
            from: slip[0],
            to: slip[1],
            kind: slip[2],
            change: slip[3],
        },
    )
}
