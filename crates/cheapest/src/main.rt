// Finds the cheapest extracts of the file `catalogue` that cover the file `question`, by the file `charges`, which has a decimal number a line for
// each extract; the file `one_way` names the extracts that are matched one-way. All are in the folder it is run in. Prints the extracts and what they
// cost.
#![tactic(auto)]

use containment::costing::Cheapest;
use folder::{files, lent, lines, numbers};
use std::io;

fn say(rt: &impl Print, c: Cheapest, charges: usize) -> io::Result<()> {
    match c {
        Ok((set, sum, _)) => lines::cheapest(rt, set, sum),
        Err(x) => lines::refused(rt, lines::with_charges(x, charges)),
    }
}

// By the first charges, as many as the file has or the buffer holds.
fn find(
    question: &[u8],
    catalogue: &[u8],
    one_way: u16,
    charges: &[u32],
    count: usize,
    work: &mut [u32],
) -> Cheapest {
    let n = count.min(charges.len());
    containment::cheapest(question, catalogue, one_way, &charges[..n], work)
}

fn main(rt: HostRuntime) -> io::Result<()> {
    let mut question = [0; lent::QUESTION];
    let mut catalogue = [0; lent::CATALOGUE];
    let mut charges = [0; lent::CHARGES];
    let mut work = [0; lent::WORK];
    let Some(one_way) = folder::extracts(&rt, b"one_way") else {
        return Ok(());
    };
    let count = match numbers::read_list(&rt, b"charges", &mut charges) {
        Ok(count) => count,
        Err(wrong) => {
            lines::failed_at(&rt, b"charges", wrong.line);
            return Ok(());
        }
    };
    let n = files::read(&rt, b"question", &mut question);
    let m = files::read(&rt, b"catalogue", &mut catalogue);
    let c = find(
        &question[..n],
        &catalogue[..m],
        one_way,
        &charges,
        count,
        &mut work,
    );
    say(&rt, c, count)
}
