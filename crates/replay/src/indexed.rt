// The calls with an index: it is lent from the bytes of a part, two for each entry, and one that was made goes to the output so.
use crate::calls::Parts;
use crate::outcome::{Form, Outcome};
use crate::{digest, marks, slices};

// More than an index may have; as bytes they fill the output.
pub const ENTRIES: usize = 33000;

// The entries of the bytes; an odd byte at the end is none.
fn take(bytes: &[u8], s: &mut [u16]) {
    for (x, pair) in s.iter_mut().zip(bytes.chunks_exact(2)) {
        *x = u16::from_be_bytes([pair[0], pair[1]]);
    }
}

// The first n entries go to the bytes.
pub fn give(s: &[u16], n: usize, bytes: &mut [u8]) {
    for i in 0..n {
        let at = slices::plus(i, i);
        let [high, low] = slices::at(s, i).to_be_bytes();
        slices::put(bytes, at, high);
        slices::put(bytes, slices::plus(at, 1), low);
    }
}

// The entries are marked and looked at here.
fn make_in(record: &[u8], s: &mut [u16], out: &mut [u8], work: &mut [u32]) -> Outcome {
    marks::mark_all(s);
    let r = yuthaqim::yuthaqim_make_index(record, s, work);
    let n = if r.number == 0 { r.value } else { 0 };
    give(s, n, out);
    let bytes = slices::plus(n, n);
    let d = digest::over(digest::START, out, bytes);
    Outcome {
        written: bytes,
        faults: marks::unmarked(s, n),
        ..Outcome::values(Form::Entries, r.number, r.value, 0, d)
    }
}

pub fn make(record: &[u8], room: usize, out: &mut [u8], work: &mut [u32]) -> Outcome {
    let mut s = [0; ENTRIES];
    make_in(record, &mut s[..room.min(ENTRIES)], out, work)
}

// A check writes nothing.
pub fn check(f: Parts, work: &mut [u32]) -> Outcome {
    let mut s = [0; ENTRIES];
    let n = (f.sheets.len() / 2).min(ENTRIES);
    take(f.sheets, &mut s);
    let r = yuthaqim::yuthaqim_check_index(f.record, &s[..n], work);
    Outcome::values(Form::Entries, r.number, r.value, 0, digest::START)
}

pub fn search(f: Parts, out: &mut [u8], work: &mut [u32]) -> Outcome {
    let mut s = [0; ENTRIES];
    let n = (f.sheets.len() / 2).min(ENTRIES);
    take(f.sheets, &mut s);
    let r = yuthaqim::yuthaqim_search_indexed(f.question, f.record, &s[..n], out, work);
    Outcome::sheet(r, out)
}
