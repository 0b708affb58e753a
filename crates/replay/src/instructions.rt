// The instructions: a byte says what to do, the next one the value. A value over 251 stands in bytes of its own, the least first: one where
// that byte is 252, up to four where it is 255. For some of them so many bytes follow as the value says.
use crate::counts::CALLS;
use crate::machine::Machine;
use crate::rounds::Mode;
use crate::{content, digest, memory, pack, print, reader, records, rounds, slices, states};
use std::io;
use std::io::{Read, Write};

#[derive(Clone, Copy)]
enum Instruction {
    // The register of that number is set.
    Set(usize),
    // Bytes that follow become a part.
    Bytes(usize),
    // What the last call wrote is added to the end of a part, which grows by that or by what it needed.
    Keep,
    // A bit of the memory is turned.
    Flip,
    // The content, which is that of a record, becomes a part, whatever it says; the same as records were stored before links had kinds.
    Pack,
    PackOld,
    // A field is added to the content; the bytes that follow are, a field each; so many lists are.
    Field,
    Fields,
    Lists,
    // The content becomes that of a sheet of so many lists; so many pairs; a record, with the pairs of its links ascending or, where the value
    // isn't 0, as they are drawn.
    Sheet,
    Pairs,
    Record,
    // The outcomes of the last instruction are held; they are compared with those that are; what the last call wrote is compared with a part.
    Hold,
    Same,
    Match,
    // The bytes that follow are printed; the last outcome is, and so after the call's name; the counts of a group are, and of all groups.
    Name,
    Outcome,
    Named,
    Group,
    All,
    // Calls of the one that the value says, or over the part that it says.
    Calls(Mode),
    Nothing,
}

impl From<u8> for Instruction {
    fn from(op: u8) -> Instruction {
        match op {
            0..=63 => Instruction::Set(usize::from(op)),
            64..=71 => Instruction::Bytes(usize::from(op) % 8),
            72 => Instruction::Keep,
            73 => Instruction::Flip,
            74 => Instruction::Pack,
            75 => Instruction::PackOld,
            76 => Instruction::Field,
            77 => Instruction::Fields,
            78 => Instruction::Lists,
            79 => Instruction::Sheet,
            80 => Instruction::Pairs,
            81 => Instruction::Record,
            82 => Instruction::Hold,
            83 => Instruction::Same,
            84 => Instruction::Match,
            85 => Instruction::Name,
            86 => Instruction::Outcome,
            87 => Instruction::Named,
            88 => Instruction::Group,
            89 => Instruction::All,
            90..=95 => Instruction::Nothing,
            96 => Instruction::Calls(Mode::Once),
            97 => Instruction::Calls(Mode::Round),
            98 => Instruction::Calls(Mode::Both),
            99 => Instruction::Calls(Mode::Cuts),
            100 => Instruction::Calls(Mode::Flips),
            101 => Instruction::Calls(Mode::Short),
            _ => Instruction::Calls(Mode::Again),
        }
    }
}

fn keep(part: usize, m: &mut Machine) {
    let end = m.registers.end(part);
    let written = m.last.written;
    slices::copy(&m.out, written, &mut m.memory, end);
    let size = written.max(m.last.needed());
    m.registers.set_end(part, slices::plus(end, size));
}

// Whether the last call wrote a part's bytes, or needs so many and had no room for them.
fn matches(part: usize, m: &Machine) -> bool {
    let bytes = m.registers.part(part, &m.memory);
    let d = digest::over(digest::START, bytes, bytes.len());
    let size = m
        .registers
        .end(part)
        .saturating_sub(m.registers.start(part));
    let wrote = m.last.is_accepted() && m.last.digest == d;
    let no_fit = m.last.number == 12;
    (wrote || no_fit) && m.last.value == size
}

fn bytes<R: Read>(cases: &mut R, part: usize, size: usize, m: &mut Machine) -> io::Result<()> {
    let start = m.registers.start(part);
    memory::take(cases, &mut m.memory, start, size)?;
    m.registers.set_end(part, slices::plus(start, size));
    Ok(())
}

// The lines of a group, or of all groups, and what was compared.
fn say_group<W: Write>(printer: &mut W, of_all: bool, m: &mut Machine) -> io::Result<()> {
    if of_all {
        print::group(printer, &m.memory, &mut m.all)?;
    } else {
        print::group(printer, &m.memory, &mut m.group)?;
    }
    print::compared(printer, &mut m.compared)
}

// The calls are of the call that the value says, or of that of the last round or single call.
fn calls(mode: Mode, value: usize, m: &mut Machine) {
    if matches!(mode, Mode::Once | Mode::Round | Mode::Both) {
        m.chosen = value % CALLS;
    }
    rounds::run(mode, m.chosen, value, m);
}

fn act<R: Read, W: Write>(
    cases: &mut R,
    printer: &mut W,
    instruction: Instruction,
    value: usize,
    m: &mut Machine,
) -> io::Result<()> {
    match instruction {
        Instruction::Set(i) => m.registers.set(i, value),
        Instruction::Bytes(part) => bytes(cases, part, value, m)?,
        Instruction::Keep => keep(value, m),
        Instruction::Flip => memory::flip(&mut m.memory, value),
        Instruction::Pack => pack::record(value, 3, &m.words, &mut m.memory, &mut m.registers),
        Instruction::PackOld => pack::record(value, 0, &m.words, &mut m.memory, &mut m.registers),
        Instruction::Field => content::add(&mut m.words, &mut m.registers, value),
        Instruction::Fields => { content::add_bytes(cases, value, &mut m.words, &mut m.registers)? }
        Instruction::Lists => content::add_lists(value, &mut m.words, &mut m.registers),
        Instruction::Sheet => content::sheet(value, &mut m.words, &mut m.registers),
        Instruction::Pairs => states::draw_pairs(value, &mut m.words, &mut m.registers),
        Instruction::Record => records::draw(value == 0, &mut m.words, &mut m.registers),
        Instruction::Hold => m.held = m.outcomes,
        Instruction::Same => m.compared.count(m.held == m.outcomes),
        Instruction::Match => {
            let equal = matches(value, m);
            m.compared.count(equal);
        }
        Instruction::Name => print::name(cases, printer, value)?,
        Instruction::Outcome => print::outcome(printer, m.last, &m.out, &m.words)?,
        Instruction::Named => {
            print::named_outcome(printer, m.chosen, &m.memory, m.last, &m.out, &m.words)?
        }
        Instruction::Group => say_group(printer, false, m)?,
        Instruction::All => say_group(printer, true, m)?,
        Instruction::Calls(mode) => calls(mode, value, m),
        Instruction::Nothing => (),
    }
    Ok(())
}

// The value whose first byte is this one.
fn value_of<R: Read>(cases: &mut R, first: u8) -> io::Result<usize> {
    if first < 252 {
        return Ok(usize::from(first));
    }
    let mut s = [0; 4];
    memory::take(cases, &mut s, 0, usize::from(first - 251))?;
    Ok(u32::from_le_bytes(s) as usize)
}

// The next instruction: whether there was one.
pub fn next<R: Read, W: Write>(
    cases: &mut R,
    printer: &mut W,
    m: &mut Machine,
) -> io::Result<bool> {
    let mut s = [0; 2];
    if reader::read_full(cases, &mut s)? < 2 {
        return Ok(false);
    }
    let value = value_of(cases, s[1])?;
    act(cases, printer, Instruction::from(s[0]), value, m)?;
    Ok(true)
}
