// Judges the files that it finds in the folder it is run in: `question`, `catalogue`, `record`, a `sheet` and an `answer` beside the question, a
// `book`, `charges`, `terms` and the set `one_way` beside the catalogue, a `part` and a `part_answer` beside it, `questions` beside their `number`,
// the records `first` and `second`, an `index` and a `state` beside the record, a `set`, a `day`, a `link`, a `slip`, and a record `old`, stored before
// links had kinds. One that is not there gets no line.
#![tactic(auto)]

ghost use Rattle.std.specs.Prelude.{◌≡◌, length};

use folder::days::Days;
use folder::{days, entries, files, lent, lines, numbers};
use matching::offered;
use packed::reply::{File, Refusal, Reply};
use packed::{accept, limits};
use std::io;
use std::rt::Files;

fn say(rt: &impl Print, name: &[u8], reply: Reply) -> io::Result<()> {
    lines::say(rt, name)?;
    lines::say(rt, b" ")?;
    match reply {
        Ok(_) => lines::say(rt, b"accepted\n"),
        Err(x) => lines::refused(rt, x),
    }
}

fn judge_pattern(rt: &(impl Files + Print), pattern: &[u8], name: &[u8]) -> io::Result<()> {
    if files::is_there(rt, name) {
        let mut content = [0; lent::CONTENT];
        let mut work = [0; lent::WORK];
        let reply = packed::read_pattern(pattern, &mut content, &mut work);
        say(rt, name, reply)?;
    }
    Ok(())
}

fn judge_catalogue(rt: &(impl Files + Print), catalogue: &[u8]) -> io::Result<()> {
    if files::is_there(rt, b"catalogue") {
        let mut content = [0; lent::CONTENT];
        let mut work = [0; lent::WORK];
        let reply = packed::read_catalogue(catalogue, &mut content, &mut work);
        say(rt, b"catalogue", reply)?;
    }
    Ok(())
}

fn judge_record(rt: &(impl Files + Print), name: &[u8]) -> io::Result<()> {
    if files::is_there(rt, name) {
        let mut record = [0; lent::RECORD];
        let n = files::read(rt, name, &mut record);
        let mut content = [0; lent::CONTENT];
        let mut work = [0; lent::WORK];
        let reply = packed::read_record(&record[..n], &mut content, &mut work);
        say(rt, name, reply)?;
    }
    Ok(())
}

fn judge_sheet(rt: &(impl Files + Print), pattern: &[u8], name: &[u8]) -> io::Result<()> {
    if files::is_there(rt, name) {
        let mut sheet = [0; lent::SHEET];
        let n = files::read(rt, name, &mut sheet);
        let mut content = [0; lent::CONTENT];
        let mut work = [0; lent::WORK];
        let reply = packed::read_sheet(pattern, &sheet[..n], &mut content, &mut work);
        say(rt, name, reply)?;
    }
    Ok(())
}

fn judge_book(rt: &(impl Files + Print), catalogue: &[u8]) -> io::Result<()> {
    if files::is_there(rt, b"book") {
        let mut book = [0; lent::SHEET];
        let n = files::read(rt, b"book", &mut book);
        let mut content = [0; lent::CONTENT];
        let mut work = [0; lent::WORK];
        let reply = packed::read_book(catalogue, &book[..n], &mut content, &mut work);
        say(rt, b"book", reply)?;
    }
    Ok(())
}

fn judge_part(rt: &(impl Files + Print)) -> io::Result<()> {
    let mut part = [0; lent::QUESTION];
    let n = files::read(rt, b"part", &mut part);
    judge_pattern(rt, &part[..n], b"part")?;
    judge_sheet(rt, &part[..n], b"part_answer")
}

// So many questions, one after the other.
fn accepted(questions: &[u8], number: u32, work: &mut [u32]) -> Reply
    requires { length work.old ≡ 16384 }
{
    if 0 < number {
        if number <= limits::QUESTIONS_MOST {
            return accept::accept_questions(questions, number, work);
        }
    }
    Err(Refusal::WrongQuestions(number as usize))
}

fn judge_questions(rt: &(impl Files + Print + Eprint)) -> io::Result<()> {
    if !files::is_there(rt, b"questions") {
        return Ok(());
    }
    let Some(number) = numbers::read_number(rt, b"number") else {
        lines::failed(rt, b"number");
        return Ok(());
    };
    let mut questions = [0; lent::QUESTIONS];
    let n = files::read(rt, b"questions", &mut questions);
    let mut work = [0; lent::WORK];
    let reply = accepted(&questions[..n], number, &mut work);
    say(rt, b"questions", reply)
}

fn judge_index(rt: &(impl Files + Print + Eprint)) -> io::Result<()> {
    if !files::is_there(rt, b"index") {
        return Ok(());
    }
    let mut bytes = [0; lent::INDEX_BYTES];
    let size = files::read_whole(rt, b"index", &mut bytes);
    if size % 2 == 1 {
        lines::failed(rt, b"index");
        return Ok(());
    }
    let mut index = [0; lent::INDEX];
    entries::unpack(&bytes, &mut index);
    let mut record = [0; lent::RECORD];
    let m = files::read(rt, b"record", &mut record);
    let mut work = [0; lent::WORK];
    let n = (size / 2).min(index.len());
    let reply = matching::check_index(&record[..m], &index[..n], &mut work);
    say(rt, b"index", entries::counted(reply, size / 2))
}

// Beside an accepted catalogue there is a charge for each of its extracts.
fn charged(reply: Reply, extracts: u32, charges: usize) -> Reply {
    let n = reply?;
    if extracts as usize != charges {
        return Err(Refusal::WrongCharges(charges));
    }
    Ok(n)
}

fn judge_charges(rt: &(impl Files + Print + Eprint), catalogue: &[u8]) -> io::Result<()> {
    if !files::is_there(rt, b"charges") {
        return Ok(());
    }
    let mut charges = [0; lent::CHARGES];
    let count = match numbers::read_list(rt, b"charges", &mut charges) {
        Ok(count) => count,
        Err(wrong) => {
            lines::failed_at(rt, b"charges", wrong.line);
            return Ok(());
        }
    };
    let mut content = [0; lent::CONTENT];
    let mut work = [0; lent::WORK];
    let reply = packed::read_catalogue(catalogue, &mut content, &mut work);
    say(rt, b"charges", charged(reply, content[0], count))
}

// Beside an accepted catalogue there is a line for each of its extracts, whose from-day is below its to-day.
fn dated(reply: Reply, extracts: u32, d: Days) -> Reply {
    let n = reply?;
    if extracts as usize != d.count {
        return Err(Refusal::WrongTerms(d.count));
    }
    if let Some(turned) = d.first_turned() {
        return Err(Refusal::WrongTerms(turned));
    }
    Ok(n)
}

fn judge_terms(rt: &(impl Files + Print + Eprint), catalogue: &[u8]) -> io::Result<()> {
    if !files::is_there(rt, b"terms") {
        return Ok(());
    }
    let d = match days::read_days(rt, b"terms") {
        Ok(days) => days,
        Err(wrong) => {
            lines::failed_at(rt, b"terms", wrong.line);
            return Ok(());
        }
    };
    let mut content = [0; lent::CONTENT];
    let mut work = [0; lent::WORK];
    let reply = packed::read_catalogue(catalogue, &mut content, &mut work);
    say(rt, b"terms", dated(reply, content[0], d))
}

// Beside an accepted catalogue the set names its extracts alone.
fn judge_one_way(rt: &(impl Files + Print + Eprint), catalogue: &[u8]) -> io::Result<()> {
    if !files::is_there(rt, b"one_way") {
        return Ok(());
    }
    let Some(one_way) = folder::extracts(rt, b"one_way") else {
        return Ok(());
    };
    let mut work = [0; lent::WORK];
    let offer = offered::accept_offer(catalogue, u32::from(one_way), &mut work);
    say(rt, b"one_way", offer.map(|f| f.fields))
}

// The day of the file `day`, 0 to 65,535.
fn read_day(rt: &impl Files) -> Option<u16> {
    u16::try_from(numbers::read_number(rt, b"day")?).ok()
}

fn judge_day(rt: &(impl Files + Print + Eprint)) -> io::Result<()> {
    if !files::is_there(rt, b"day") {
        return Ok(());
    }
    match read_day(rt) {
        Some(_) => lines::say(rt, b"day accepted\n"),
        None => {
            lines::failed(rt, b"day");
            Ok(())
        }
    }
}

fn judge_set(rt: &(impl Files + Print + Eprint)) -> io::Result<()> {
    if !files::is_there(rt, b"set") {
        return Ok(());
    }
    match folder::extracts(rt, b"set") {
        Some(_) => lines::say(rt, b"set accepted\n"),
        None => Ok(()),
    }
}

// Beside an accepted record the state has its number of links.
fn stated(reply: Reply, links: u32, state: u32) -> Reply {
    let n = reply?;
    if links != state {
        return Err(Refusal::OutOfRange(File::Record));
    }
    Ok(n)
}

fn judge_state(rt: &(impl Files + Print + Eprint)) -> io::Result<()> {
    if !files::is_there(rt, b"state") {
        return Ok(());
    }
    let Some(state) = folder::list::<2>(rt, b"state") else {
        return Ok(());
    };
    let mut record = [0; lent::RECORD];
    let n = files::read(rt, b"record", &mut record);
    let mut content = [0; lent::CONTENT];
    let mut work = [0; lent::WORK];
    let reply = packed::read_record(&record[..n], &mut content, &mut work);
    say(rt, b"state", stated(reply, content[1], state[0]))
}

// This and the next are apart: one for N numbers would have to require that so many fit into memory.
fn judge_link(rt: &(impl Files + Print + Eprint)) -> io::Result<()> {
    if !files::is_there(rt, b"link") {
        return Ok(());
    }
    match folder::list::<3>(rt, b"link") {
        Some(_) => lines::say(rt, b"link accepted\n"),
        None => Ok(()),
    }
}

fn judge_slip(rt: &(impl Files + Print + Eprint)) -> io::Result<()> {
    if !files::is_there(rt, b"slip") {
        return Ok(());
    }
    match folder::list::<4>(rt, b"slip") {
        Some(_) => lines::say(rt, b"slip accepted\n"),
        None => Ok(()),
    }
}

fn judge_old(rt: &(impl Files + Print)) -> io::Result<()> {
    if files::is_there(rt, b"old") {
        let mut old = [0; lent::OLD_RECORD];
        let n = files::read(rt, b"old", &mut old);
        let mut record = [0; lent::OUTPUT];
        let mut work = [0; lent::WORK];
        let reply = packed::sort_record(&old[..n], &mut record, &mut work);
        say(rt, b"old", reply)?;
    }
    Ok(())
}

fn judge(rt: &(impl Files + Print + Eprint), question: &[u8], catalogue: &[u8]) -> io::Result<()> {
    judge_pattern(rt, question, b"question")?;
    judge_catalogue(rt, catalogue)?;
    judge_record(rt, b"record")?;
    judge_sheet(rt, question, b"sheet")?;
    judge_book(rt, catalogue)?;
    judge_sheet(rt, question, b"answer")?;
    judge_part(rt)?;
    judge_questions(rt)?;
    judge_record(rt, b"first")?;
    judge_record(rt, b"second")?;
    judge_index(rt)?;
    judge_charges(rt, catalogue)?;
    judge_terms(rt, catalogue)?;
    judge_one_way(rt, catalogue)?;
    judge_day(rt)?;
    judge_set(rt)?;
    judge_state(rt)?;
    judge_link(rt)?;
    judge_slip(rt)?;
    judge_old(rt)
}

fn main(rt: HostRuntime) -> io::Result<()> {
    let mut question = [0; lent::QUESTION];
    let mut catalogue = [0; lent::CATALOGUE];
    let n = files::read(&rt, b"question", &mut question);
    let m = files::read(&rt, b"catalogue", &mut catalogue);
    judge(&rt, &question[..n], &catalogue[..m])
}
