// Quotes the file `question` with the file `catalogue`, both in the folder it is run in, and prints the listing or the refusal. All extracts are
// matched both ways.
#![tactic(auto)]

use folder::{files, lent};
use listing::print;
use std::io;

fn main(rt: HostRuntime) -> io::Result<()> {
    let mut question = [0; lent::QUESTION];
    let mut catalogue = [0; lent::CATALOGUE];
    let mut work = [0; lent::WORK];
    let n = files::read(&rt, b"question", &mut question);
    let m = files::read(&rt, b"catalogue", &mut catalogue);
    let q = containment::quote(&question[..n], &catalogue[..m], 0, &mut work);
    print::quote(&rt, q)
}
