// What programs print.
ghost use Rattle.std.specs.Prelude.{◌<◌, ◌≡◌, eqb};
ghost use Rattle.packed.specs.Format.{pick};
ghost use Rattle.packed.specs.Refusals.{number_of, detail_of};

use crate::files;
use packed::reply::Refusal;
use std::io;

pub fn say(rt: &impl Print, text: &[u8]) -> io::Result<()> {
    rt.write_all(text)
}

pub fn number(rt: &impl Print, n: usize) -> io::Result<()> {
    rt.print(n)
}

// The name of a file that was written, and its length; the line is not ended.
pub fn written(rt: &impl Print, name: &[u8], n: usize) -> io::Result<()> {
    rt.write_all(name)?;
    print!(rt; " {n} bytes")
}

// The line on standard error that names the file with which the system failed. Where it can't be written, nothing is left to say so by.
pub fn failed(rt: &impl Eprint, name: &[u8]) {
    let name = files::text(name);
    let _ = eprintln!(rt; "failed {name}");
}

// The same for a line of a text file that is not what it should be.
pub fn failed_at(rt: &impl Eprint, name: &[u8], line: usize) {
    let name = files::text(name);
    let _ = eprintln!(rt; "failed {name} line {line}");
}

// The line of a refusal.
pub fn refused(rt: &impl Print, x: Refusal) -> io::Result<()> {
    println!(rt; "refused {} {}", x.number(), x.detail())
}

// A refusal beside so many charges: of too many no more are lent than show it, and all are counted here.
pub fn with_charges(x: Refusal, charges: usize) -> Refusal
    ensures { (number_of result ≡ number_of x) × (detail_of result ≡ pick (eqb (number_of x) 15) charges (detail_of x)) }
{
    match x {
        Refusal::WrongCharges(_) => Refusal::WrongCharges(charges),
        _ => x,
    }
}

// " a" where the set has the extract a.
fn say_extract(rt: &impl Print, set: u16, a: u16) -> io::Result<()>
    requires { a < 16 }
{
    if set >> a & 1 == 1 {
        print!(rt; " {a}")?;
    }
    Ok(())
}

fn say_extracts(rt: &impl Print, set: u16) -> io::Result<()> {
    for a in 0..16 {
        say_extract(rt, set, a)?;
    }
    Ok(())
}

// The line of a cheapest set.
pub fn cheapest(rt: &impl Print, set: u16, sum: u64) -> io::Result<()> {
    say(rt, b"cheapest")?;
    say_extracts(rt, set)?;
    println!(rt; " cost {sum}")
}

// The line of the extracts whose lists a link would change.
pub fn changes(rt: &impl Print, set: u16) -> io::Result<()> {
    say(rt, b"changes")?;
    if set == 0 {
        say(rt, b" none")?;
    }
    say_extracts(rt, set)?;
    say(rt, b"\n")
}
