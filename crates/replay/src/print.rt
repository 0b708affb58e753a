// What is printed: names from the cases, single outcomes, and the counts of groups.
use crate::counts::{Block, Compared};
use crate::outcome::{Form, Outcome};
use crate::{digest, reader, slices};
use std::io;
use std::io::{Read, Write};

// So many bytes of the cases, 256 at most.
pub fn name<R: Read, W: Write>(cases: &mut R, printer: &mut W, size: usize) -> io::Result<()> {
    let mut s = [0; 256];
    let n = size.min(256);
    reader::read_full(cases, &mut s[..n])?;
    printer.write_all(&s[..n])
}

fn say_bytes<W: Write>(printer: &mut W, s: &[u8], n: usize) -> io::Result<()> {
    for b in s.iter().take(n) {
        write!(printer, " {b:02x}")?;
    }
    Ok(())
}

fn say_words<W: Write>(printer: &mut W, s: &[u32], n: usize) -> io::Result<()> {
    for w in s.iter().take(n) {
        write!(printer, " {w}")?;
    }
    Ok(())
}

fn say_digest<W: Write>(printer: &mut W, d: u64) -> io::Result<()> {
    write!(printer, ", digest {d:016x}")
}

// A short output whole, a long one by its digest.
fn say_output<W: Write>(printer: &mut W, o: Outcome, out: &[u8], words: &[u32]) -> io::Result<()> {
    if 64 < o.written {
        say_digest(printer, o.digest)
    } else if o.form == Form::Words {
        say_words(printer, words, o.written)
    } else {
        say_bytes(printer, out, o.written)
    }
}

fn say_quote<W: Write>(printer: &mut W, covered: usize, other: usize) -> io::Result<()> {
    match covered {
        1 => write!(printer, "covered, chosen {other}"),
        _ => write!(printer, "uncovered, lowest {other}"),
    }
}

fn say_day<W: Write>(printer: &mut W, found: usize, day: usize) -> io::Result<()> {
    match found {
        1 => write!(printer, "first day {day}"),
        _ => write!(printer, "first day none"),
    }
}

// What is answered by values alone has its digest, another output what was written.
fn say_accepted<W: Write>(
    printer: &mut W,
    o: Outcome,
    out: &[u8],
    words: &[u32],
) -> io::Result<()> {
    let value = o.value;
    let other = o.other;
    match o.form {
        Form::Quote => say_quote(printer, value, other)?,
        Form::Price => write!(printer, "cost {value}, set {other}")?,
        Form::Steps => write!(printer, "{value} steps")?,
        Form::Day => say_day(printer, value, other)?,
        Form::Asked => write!(printer, "changes {value}")?,
        Form::Words => write!(printer, "{value} words")?,
        Form::Entries => write!(printer, "{value} entries")?,
        Form::Both => write!(printer, "{value} and {other} bytes")?,
        Form::Entered => write!(printer, "{value} bytes and {other} entries")?,
        Form::Several => write!(printer, "{value} bytes, {other} sheets")?,
        Form::Bytes | Form::Sheet => write!(printer, "{value} bytes")?,
    }
    if o.form.is_values() {
        return say_digest(printer, o.digest);
    }
    say_output(printer, o, out, words)
}

// The names of the calls stand in the memory from here on, each in 32 bytes: its length, then itself.
const NAMES: usize = 128000;

fn say_call<W: Write>(printer: &mut W, k: usize, memory: &[u8]) -> io::Result<()> {
    let place = NAMES.saturating_add(k.saturating_mul(32));
    let from = place.saturating_add(1).min(memory.len());
    let size: u8 = slices::at(memory, place);
    let n = usize::from(size).min(memory.len() - from);
    printer.write_all(b"  ")?;
    printer.write_all(&memory[from..from + n])?;
    printer.write_all(b": ")
}

// An outcome, and the end of the line.
pub fn outcome<W: Write>(printer: &mut W, o: Outcome, out: &[u8], words: &[u32]) -> io::Result<()> {
    let number = o.number;
    let value = o.value;
    if o.is_accepted() {
        say_accepted(printer, o, out, words)?;
    } else {
        write!(printer, "refused {number} {value}")?;
    }
    writeln!(printer)
}

// The same after the call's name.
pub fn named_outcome<W: Write>(
    printer: &mut W,
    k: usize,
    memory: &[u8],
    o: Outcome,
    out: &[u8],
    words: &[u32],
) -> io::Result<()> {
    say_call(printer, k, memory)?;
    outcome(printer, o, out, words)
}

fn say_some<W: Write>(printer: &mut W, n: u64, what: &str) -> io::Result<()> {
    if n != 0 {
        write!(printer, " ({n} {what})")?;
    }
    Ok(())
}

// A refusal's number; of 1 to 10 the detail too, which is a file's number.
fn say_refusal<W: Write>(printer: &mut W, place: usize, n: u64) -> io::Result<()> {
    let number = place / 5;
    let detail = place % 5;
    if n == 0 {
        return Ok(());
    }
    write!(printer, ", {n} refused {number}")?;
    if number < 11 {
        write!(printer, " {detail}")?;
    }
    Ok(())
}

fn say_refusals<W: Write>(printer: &mut W, block: &Block) -> io::Result<()> {
    for (place, n) in block.answers.iter().enumerate().skip(5) {
        say_refusal(printer, place, *n)?;
    }
    Ok(())
}

// A call's line, where it was made.
fn say_block<W: Write>(printer: &mut W, k: usize, memory: &[u8], block: &Block) -> io::Result<()> {
    let n = block.calls();
    if n == 0 {
        return Ok(());
    }
    let accepted = block.answers[0];
    let faults = block.faults;
    say_call(printer, k, memory)?;
    write!(printer, "{n} calls, {accepted} accepted")?;
    say_some(printer, block.listing, "list pairs")?;
    say_some(printer, block.covered, "covered")?;
    say_refusals(printer, block)?;
    write!(printer, "; {faults} faults")?;
    if block.digest != digest::START {
        say_digest(printer, block.digest)?;
    }
    writeln!(printer)
}

// The lines of a group, after which it is counted anew.
pub fn group<W: Write>(printer: &mut W, memory: &[u8], group: &mut [Block]) -> io::Result<()> {
    for (k, block) in group.iter_mut().enumerate() {
        say_block(printer, k, memory, block)?;
        *block = Block::new();
    }
    Ok(())
}

// What was compared since this was last printed.
pub fn compared<W: Write>(printer: &mut W, compared: &mut Compared) -> io::Result<()> {
    let n = compared.all;
    let equal = compared.equal;
    if n != 0 {
        writeln!(printer, "  {equal} of {n} agree")?;
    }
    *compared = Compared::new();
    Ok(())
}
