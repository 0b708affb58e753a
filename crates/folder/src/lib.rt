// What the programs share: files of the folder that a program is run in, the lines that it prints, and the arrays that it lends.
//
// No contract can say what the system reads or writes. Those here say what happens to lent memory, and what the bytes mean that were read: texts of
// numbers, and an index as a file. All else that decides what a file holds is done by the crates below, on slices.
#![tactic(auto)]

pub mod both;
pub mod days;
pub mod entries;
pub mod files;
pub mod lent;
pub mod lines;
pub mod numbers;

use numbers::WrongLine;
use packed::reply::Reply;
use std::io;
use std::rt::Files;

// The extracts that the file of this name has the numbers of. One that has anything else is a failure, and is said to be one.
pub fn extracts(rt: &(impl Files + Eprint), name: &[u8]) -> Option<u16> {
    match numbers::read_set(rt, name) {
        Ok(set) => Some(set),
        Err(wrong) => {
            lines::failed_at(rt, name, wrong.line);
            None
        }
    }
}

// The first line at fault in a text that should have so many numbers, one to a line: it may be the one behind its last.
fn fault(text: Result<usize, WrongLine>, wanted: usize) -> usize {
    let line = match text {
        Ok(lines) => lines.wrapping_add(1),
        Err(wrong) => wrong.line,
    };
    line.min(wanted.wrapping_add(1))
}

// The numbers of the file of this name, one to a line, as many as there are places. One that has anything else is a failure, and is said to be one.
pub fn list_into(rt: &(impl Files + Eprint), name: &[u8], out: &mut [u32]) -> bool {
    let wanted = out.len();
    let text = numbers::read_list(rt, name, out);
    if text == Ok(wanted) {
        return true;
    }
    lines::failed_at(rt, name, fault(text, wanted));
    false
}

// The same, where how many there are stands in the type.
pub fn list<const N: usize>(rt: &(impl Files + Eprint), name: &[u8]) -> Option<[u32; N]> {
    let mut list = [0; N];
    if list_into(rt, name, &mut list) {
        return Some(list);
    }
    None
}

// A call that wrote one output is finished: the output becomes the file of this name, by way of a new file of the temporary name, and a line
// says how long it is. A refusal is printed and leaves the folder as it was.
pub fn finish(
    rt: &(impl Files + Print + Eprint),
    reply: Reply,
    out: &[u8],
    name: &[u8],
    temporary: &[u8],
) -> io::Result<()> {
    match reply {
        Ok(n) => keep(rt, out, n, name, temporary),
        Err(x) => lines::refused(rt, x),
    }
}

// The first n bytes; a call never answers more than it was lent.
fn keep(
    rt: &(impl Files + Print + Eprint),
    out: &[u8],
    n: usize,
    name: &[u8],
    temporary: &[u8],
) -> io::Result<()> {
    let Some(written) = out.get(..n) else {
        lines::failed(rt, name);
        return Ok(());
    };
    if files::write(rt, name, temporary, written) {
        lines::written(rt, name, n)?;
        lines::say(rt, b"\n")?;
    }
    Ok(())
}
