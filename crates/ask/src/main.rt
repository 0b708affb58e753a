// Asks which extracts' lists a link would change before it enters the file `record`: those of the file `catalogue`, of which the file `one_way` names
// the ones that are matched one-way. The file `state` has the record's link count and its change number, the file `link` a from, a to and a kind, one
// number to a line. All are in the folder it is run in. Prints the extracts, and writes the file `slip` there: the link and the change number.
#![tactic(auto)]

use folder::{files, lent, lines};
use matching::asking::Asked;
use matching::state::{Link, Slip, State};
use std::io;
use std::rt::Files;

fn keep(rt: &(impl Files + Print + Eprint), set: u16, slip: Slip) -> io::Result<()> {
    let numbers = [slip.from, slip.to, slip.kind, slip.change];
    if files::write_list(rt, b"slip", b"slip.new", &numbers) {
        lines::changes(rt, set)?;
    }
    Ok(())
}

fn finish(rt: &(impl Files + Print + Eprint), asked: Asked) -> io::Result<()> {
    match asked {
        Ok((set, slip)) => keep(rt, set, slip),
        Err(x) => lines::refused(rt, x),
    }
}

// What the text files say is there; the others are read here.
fn run(
    rt: &(impl Files + Print + Eprint),
    one_way: u16,
    state: State,
    link: Link,
) -> io::Result<()> {
    let mut catalogue = [0; lent::CATALOGUE];
    let mut record = [0; lent::RECORD];
    let mut work = [0; lent::WORK];
    let n = files::read(rt, b"catalogue", &mut catalogue);
    let m = files::read(rt, b"record", &mut record);
    let asked = matching::ask(
        &catalogue[..n],
        one_way,
        &record[..m],
        state,
        link,
        &mut work,
    );
    finish(rt, asked)
}

fn main(rt: HostRuntime) -> io::Result<()> {
    let Some(one_way) = folder::extracts(&rt, b"one_way") else {
        return Ok(());
    };
    let Some(state) = folder::list::<2>(&rt, b"state") else {
        return Ok(());
    };
    let Some(link) = folder::list::<3>(&rt, b"link") else {
        return Ok(());
    };
    run(
        &rt,
        one_way,
        State {
            links: state[0],
            change: state[1],
        },
        Link {
            from: link[0],
            to: link[1],
            kind: link[2],
        },
    )
}
