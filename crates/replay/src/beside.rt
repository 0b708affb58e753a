// A search that is made apart from the library's: what the reader says of both files goes through plain simulation and the writer.
use crate::outcome::Outcome;
use yuthaqim::numbered::NumberedReply;

// What is said first of the two files: a refusal, or that both were read.
fn read_both(
    pattern: &[u8],
    record: &[u8],
    p: &mut [u32],
    r: &mut [u32],
    work: &mut [u32],
) -> NumberedReply {
    let a = yuthaqim::yuthaqim_read_pattern(pattern, p, work);
    let b = yuthaqim::yuthaqim_read_record(record, r, work);
    if a.number == 0 { b } else { a }
}

pub fn search(
    pattern: &[u8],
    record: &[u8],
    out: &mut [u8],
    words: &mut [u32],
    work: &mut [u32],
) -> Outcome {
    let mut p = [0; 114];
    let mut r = [0; 28674];
    let said = read_both(pattern, record, &mut p, &mut r, work);
    let n = plain::sheet(&p, &r, words).min(words.len());
    if said.number != 0 {
        return Outcome::refused(said.number, said.value);
    }
    let r = yuthaqim::yuthaqim_write_sheet(pattern, &words[..n], out, work);
    Outcome::sheet(r, out)
}
