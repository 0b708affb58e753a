// The calls by their numbers, on parts of the memory and with as much lent as the registers say. Its name and whether a call has two outputs
// the cases say.
use crate::both::Pair;
use crate::outcome::{Form, Outcome};
use crate::registers::Registers;
use crate::terms::Day;
use crate::{beside, both, digest, entering, indexed, registers, states, terms};
use yuthaqim::numbered::{NumberedCheapest, NumberedQuote};

// What a reader reads and a writer writes.
#[derive(Clone, Copy, PartialEq, Eq)]
pub enum Kind {
    Pattern,
    Catalogue,
    Record,
    Sheet,
    Book,
}

#[derive(Clone, Copy, PartialEq, Eq)]
pub enum Call {
    Read(Kind),
    Write(Kind),
    Search,
    MakeBook,
    Quote,
    Answer,
    ShowUncovered,
    Cheapest,
    AnswerFrom,
    SortRecord,
    MakeIndex,
    CheckIndex,
    SearchIndexed,
    Part,
    AnswerSeveral,
    // The calls for a day.
    QuoteOn,
    CheapestOn,
    PartOn,
    ShowOn,
    FirstDay,
    // A link that enters.
    Ask,
    Commit,
    // The states of a join after each of its steps, which no client sees.
    Steps,
    // The search that is made apart.
    Plain,
}

// The numbers that the cases have; one that has no call of its own sorts a record.
impl From<usize> for Call {
    fn from(k: usize) -> Call {
        match k {
            0 => Call::Read(Kind::Pattern),
            1 => Call::Read(Kind::Catalogue),
            2 => Call::Read(Kind::Record),
            3 => Call::Read(Kind::Sheet),
            4 => Call::Read(Kind::Book),
            5 => Call::Write(Kind::Pattern),
            6 => Call::Write(Kind::Catalogue),
            7 => Call::Write(Kind::Record),
            8 => Call::Write(Kind::Sheet),
            9 => Call::Write(Kind::Book),
            10 => Call::Search,
            11 => Call::MakeBook,
            12 => Call::Quote,
            13 => Call::Answer,
            14 => Call::ShowUncovered,
            15 => Call::Cheapest,
            16 => Call::AnswerFrom,
            18 => Call::MakeIndex,
            19 => Call::CheckIndex,
            20 => Call::SearchIndexed,
            21 => Call::Part,
            22 => Call::AnswerSeveral,
            23 => Call::QuoteOn,
            24 => Call::CheapestOn,
            25 => Call::PartOn,
            26 => Call::ShowOn,
            27 => Call::FirstDay,
            28 => Call::Ask,
            29 => Call::Commit,
            62 => Call::Steps,
            63 => Call::Plain,
            _ => Call::SortRecord,
        }
    }
}

impl Call {
    pub fn is_reader(self) -> bool {
        matches!(self, Call::Read(_))
    }
}

// The files of a case, and the set of the catalogue's extracts that are matched one-way.
#[derive(Clone, Copy)]
pub struct Parts<'a> {
    // A pattern, a question or several of them.
    pub question: &'a [u8],
    pub catalogue: &'a [u8],
    pub record: &'a [u8],
    // A sheet, a book or an index.
    pub sheets: &'a [u8],
    pub one_way: u16,
}

impl<'a> Parts<'a> {
    fn of(registers: &Registers, memory: &'a [u8]) -> Parts<'a> {
        Parts {
            question: registers.part(0, memory),
            catalogue: registers.part(1, memory),
            record: registers.part(2, memory),
            sheets: registers.part(3, memory),
            one_way: registers.sixteen(registers::ONE_WAY),
        }
    }
}

// A reader, lent words.
fn read(kind: Kind, f: Parts, out: &mut [u32], work: &mut [u32]) -> Outcome {
    let r = match kind {
        Kind::Pattern => yuthaqim::yuthaqim_read_pattern(f.question, out, work),
        Kind::Catalogue => yuthaqim::yuthaqim_read_catalogue(f.catalogue, out, work),
        Kind::Record => yuthaqim::yuthaqim_read_record(f.record, out, work),
        Kind::Sheet => yuthaqim::yuthaqim_read_sheet(f.question, f.sheets, out, work),
        Kind::Book => yuthaqim::yuthaqim_read_book(f.catalogue, f.sheets, out, work),
    };
    Outcome::words(r, out)
}

fn write(kind: Kind, f: Parts, content: &[u32], out: &mut [u8], work: &mut [u32]) -> Outcome {
    let r = match kind {
        Kind::Pattern => yuthaqim::yuthaqim_write_pattern(content, out, work),
        Kind::Catalogue => yuthaqim::yuthaqim_write_catalogue(content, out, work),
        Kind::Record => yuthaqim::yuthaqim_write_record(content, out, work),
        Kind::Sheet => yuthaqim::yuthaqim_write_sheet(f.question, content, out, work),
        Kind::Book => yuthaqim::yuthaqim_write_book(f.catalogue, content, out, work),
    };
    Outcome::bytes(r, out)
}

fn quoted(q: NumberedQuote) -> Outcome {
    let other = if q.covered == 1 { q.chosen } else { q.lowest };
    let value = if q.number == 0 {
        q.covered as usize
    } else {
        q.detail
    };
    let mapping = digest::over(digest::START, &q.mapping, 512);
    let d = digest::step(digest::step(mapping, q.edges as u64), q.covered as u64);
    let e = digest::step(digest::step(d, q.chosen as u64), q.lowest as u64);
    Outcome::values(Form::Quote, q.number, value, other as usize, e)
}

fn quote(f: Parts, day: Option<Day>, work: &mut [u32]) -> Outcome {
    quoted(match day {
        None => yuthaqim::yuthaqim_quote(f.question, f.catalogue, f.one_way, work),
        Some(d) => yuthaqim::yuthaqim_quote_on(
            f.question,
            f.catalogue,
            f.one_way,
            d.terms,
            d.day,
            work,
        ),
    })
}

fn priced(c: NumberedCheapest) -> Outcome {
    let value = if c.number == 0 {
        c.sum as usize
    } else {
        c.detail
    };
    let d = digest::step(digest::step(digest::START, c.set as u64), c.sum);
    let e = digest::step(d, c.chosen as u64);
    Outcome::values(Form::Price, c.number, value, c.set as usize, e)
}

// The content is the charges.
fn cheapest(f: Parts, day: Option<Day>, charges: &[u32], work: &mut [u32]) -> Outcome {
    priced(match day {
        None => yuthaqim::yuthaqim_cheapest(f.question, f.catalogue, f.one_way, charges, work),
        Some(d) => yuthaqim::yuthaqim_cheapest_on(
            f.question,
            f.catalogue,
            f.one_way,
            d.terms,
            d.day,
            charges,
            work,
        ),
    })
}

fn search(f: Parts, out: &mut [u8], work: &mut [u32]) -> Outcome {
    let r = yuthaqim::yuthaqim_search(f.question, f.record, out, work);
    Outcome::sheet(r, out)
}

fn make_book(f: Parts, out: &mut [u8], work: &mut [u32]) -> Outcome {
    let r = yuthaqim::yuthaqim_make_book(f.catalogue, f.one_way, f.record, out, work);
    Outcome::bytes(r, out)
}

fn sort_record(f: Parts, out: &mut [u8], work: &mut [u32]) -> Outcome {
    let r = yuthaqim::yuthaqim_sort_record(f.record, out, work);
    Outcome::bytes(r, out)
}

// From the extracts of a set, or from those that the library chooses.
fn answer(f: Parts, set: Option<u16>, out: &mut [u8], work: &mut [u32]) -> Outcome {
    let r = match set {
        None => {
            yuthaqim::yuthaqim_answer(f.question, f.catalogue, f.one_way, f.sheets, out, work)
        }
        Some(set) => yuthaqim::yuthaqim_answer_from(
            f.question,
            f.catalogue,
            f.one_way,
            set,
            f.sheets,
            out,
            work,
        ),
    };
    Outcome::sheet(r, out)
}

// Several questions stand in the place of one. The bytes of the answers, none where they were refused, and how many sheets they needed.
fn answer_several(f: Parts, number: u32, out: &mut [u8], work: &mut [u32]) -> Outcome {
    let s = yuthaqim::yuthaqim_answer_several(
        f.question,
        number,
        f.catalogue,
        f.one_way,
        f.sheets,
        out,
        work,
    );
    let value = if s.number == 0 { s.bytes } else { s.detail };
    let d = digest::over(digest::START, out, s.bytes);
    Outcome {
        written: s.bytes,
        ..Outcome::values(Form::Several, s.number, value, s.sheets as usize, d)
    }
}

// A call on the parts. So many words are its content, and so many bytes are lent.
fn on_parts(
    call: Call,
    f: Parts,
    day: Day,
    registers: &Registers,
    out: &mut [u8],
    words: &mut [u32],
    work: &mut [u32],
) -> Outcome {
    let room = registers.at(registers::ROOM);
    let n = room.min(out.len());
    let m = registers.at(registers::CONTENT).min(words.len());
    match call {
        Call::Read(kind) => {
            let n = room.min(words.len());
            read(kind, f, &mut words[..n], work)
        }
        Call::Write(kind) => write(kind, f, &words[..m], &mut out[..n], work),
        Call::Search => search(f, &mut out[..n], work),
        Call::MakeBook => make_book(f, &mut out[..n], work),
        Call::SortRecord => sort_record(f, &mut out[..n], work),
        Call::Quote => quote(f, None, work),
        Call::QuoteOn => quote(f, Some(day), work),
        Call::Cheapest => cheapest(f, None, &words[..m], work),
        Call::CheapestOn => cheapest(f, Some(day), &words[..m], work),
        Call::FirstDay => terms::first_day(f, day, work),
        Call::Answer => answer(f, None, &mut out[..n], work),
        Call::AnswerFrom => {
            let set = registers.sixteen(registers::SET);
            answer(f, Some(set), &mut out[..n], work)
        }
        Call::AnswerSeveral => {
            let number = registers.thirty_two(registers::QUESTIONS);
            answer_several(f, number, &mut out[..n], work)
        }
        Call::Part => both::make(Pair::Part, f, None, registers, out, work),
        Call::PartOn => both::make(Pair::Part, f, Some(day), registers, out, work),
        Call::ShowUncovered => both::make(Pair::Show, f, None, registers, out, work),
        Call::ShowOn => both::make(Pair::Show, f, Some(day), registers, out, work),
        Call::MakeIndex => indexed::make(f.record, room, out, work),
        Call::CheckIndex => indexed::check(f, work),
        Call::SearchIndexed => indexed::search(f, &mut out[..n], work),
        Call::Ask => entering::ask(f, registers, work),
        Call::Commit => entering::commit(f.record, registers, out, work),
        Call::Steps => {
            let links = registers.at(registers::LINKS);
            states::each(f.question, links, &words[..m], work)
        }
        Call::Plain => beside::search(f.question, f.record, &mut out[..n], words, work),
    }
}

pub fn make(
    k: usize,
    registers: &Registers,
    memory: &[u8],
    out: &mut [u8],
    words: &mut [u32],
    work: &mut [u32],
) -> Outcome {
    let w = registers.at(registers::WORK).min(work.len());
    let parts = Parts::of(registers, memory);
    let day = Day::of(registers, memory);
    on_parts(
        Call::from(k),
        parts,
        day,
        registers,
        out,
        words,
        &mut work[..w],
    )
}
