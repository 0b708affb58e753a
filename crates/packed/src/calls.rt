// The client calls with room to work in: 16,384 words, which are left in any state.
ghost use Rattle.std.specs.Prelude.{◌≡◌, ◌≤◌, length, take};
ghost use Rattle.packed.specs.Formats.{sheet, book};
ghost use Rattle.packed.specs.ByValue.{Small};
ghost use Rattle.packed.specs.Refusals.{reply_told};
ghost use Rattle.packed.specs.OldRecord.{record_sorted};
ghost use Rattle.packed.specs.Calls.{FulfilsOne, write_file, judged, fit, fit_file, within_pairs_by, pattern_read, catalogue_read, record_read, sheet_read, book_read, pattern_written, catalogue_written, record_written, sheet_written, book_written};

use crate::accept::CatalogueFile;
use crate::reply::{File, Refusal, Reply};
use crate::{accept, catalogue, gather, graph, limits, pattern, record, sheet, workspace};

// ---- readers

// The first n words are given as the output.
fn give_words(words: &[u32], n: usize, out: &mut [u32]) -> Reply
    requires { n ≤ length words.now }
    ensures { FulfilsOne (fit (length out.old) (take n words.now)) (reply_told result) out.old out.new }
{
    if out.len() < n {
        return Err(Refusal::NoRoom(n));
    }
    workspace::copy_words(&words[0..n], out);
    Ok(n)
}

pub fn read_pattern(bytes: &[u8], out: &mut [u32], work: &mut [u32]) -> Reply
    requires { length work.old ≡ 16384 }
    ensures { FulfilsOne (pattern_read bytes.now (length out.old)) (reply_told result) out.old out.new }
{
    let f = accept::accept_pattern(bytes, work)?;
    give_words(work, f.fields, out)
}

pub fn read_catalogue(bytes: &[u8], out: &mut [u32], work: &mut [u32]) -> Reply
    requires { length work.old ≡ 16384 }
    ensures { FulfilsOne (catalogue_read bytes.now (length out.old)) (reply_told result) out.old out.new }
{
    let f = accept::accept_catalogue(bytes, work)?;
    give_words(work, f.fields, out)
}

// A record is judged with the words of its edges going to the workspace, and once it is accepted and fits its content is stored.
pub fn read_record(bytes: &[u8], out: &mut [u32], work: &mut [u32]) -> Reply
    requires { length work.old ≡ 16384 }
    ensures { FulfilsOne (record_read bytes.now (length out.old)) (reply_told result) out.old out.new }
{
    let (nodes, edges) = graph::load_record(bytes, work)?;
    let n = 2 + nodes + 3 * edges;
    if out.len() < n {
        return Err(Refusal::NoRoom(n));
    }
    record::store_record(bytes, nodes, edges, work, out);
    Ok(n)
}

// A sheet or a book is judged with no output at first, and once it is accepted and fits it is read again into the output.
pub fn read_sheet(pattern: &[u8], bytes: &[u8], out: &mut [u32], work: &mut [u32]) -> Reply
    requires { length work.old ≡ 16384 }
    ensures { FulfilsOne (sheet_read pattern.now bytes.now (length out.old)) (reply_told result) out.old out.new }
{
    let f = accept::accept_pattern(pattern, work)?;
    let m = f.pattern.edges as u32;
    let n = accept::accept_sheet(bytes, m, &mut out[0..0])?;
    if out.len() < n {
        return Err(Refusal::NoRoom(n));
    }
    accept::accept_sheet(bytes, m, out)
}

pub fn read_book(catalogue: &[u8], bytes: &[u8], out: &mut [u32], work: &mut [u32]) -> Reply
    requires { length work.old ≡ 16384 }
    ensures { FulfilsOne (book_read catalogue.now bytes.now (length out.old)) (reply_told result) out.old out.new }
{
    let CatalogueFile { views, edges, .. } = accept::accept_catalogue(catalogue, work)?;
    let n = accept::accept_book(bytes, edges, views, &mut out[0..0])?;
    if limits::PAIRS_MOST < gather::gather_book(bytes, edges, views, work) {
        return Err(Refusal::TooManyPairs(File::Sheet));
    }
    if out.len() < n {
        return Err(Refusal::NoRoom(n));
    }
    accept::accept_book(bytes, edges, views, out)
}

// ---- writers

pub fn write_pattern(fields: &[u32], out: &mut [u8]) -> Reply
    ensures { FulfilsOne (pattern_written fields.now (length out.old)) (reply_told result) out.old out.new }
{
    let (n, _) = pattern::judge_pattern_fields(fields, &mut out[0..0])?;
    if out.len() < n {
        return Err(Refusal::NoRoom(n));
    }
    let _ = pattern::judge_pattern_fields(fields, out);
    Ok(n)
}

pub fn write_catalogue(fields: &[u32], out: &mut [u8]) -> Reply
    ensures { FulfilsOne (catalogue_written fields.now (length out.old)) (reply_told result) out.old out.new }
{
    let (n, _) = catalogue::judge_catalogue_fields(fields, &mut out[0..0])?;
    if out.len() < n {
        return Err(Refusal::NoRoom(n));
    }
    let _ = catalogue::judge_catalogue_fields(fields, out);
    Ok(n)
}

pub fn write_record(fields: &[u32], out: &mut [u8]) -> Reply
    ensures { FulfilsOne (record_written fields.now (length out.old)) (reply_told result) out.old out.new }
{
    let (n, _) = record::judge_record_fields(fields, &mut out[0..0])?;
    if out.len() < n {
        return Err(Refusal::NoRoom(n));
    }
    let _ = record::judge_record_fields(fields, out);
    Ok(n)
}

// A sheet for a pattern with m edges.
fn write_sheet_of(fields: &[u32], m: u32, out: &mut [u8]) -> Reply
    requires { m ≤ 32 }
    ensures { FulfilsOne (judged (write_file 4 (sheet m) fields.now) (fit_file (length out.old))) (reply_told result) out.old out.new }
{
    let (n, _) = sheet::judge_sheet_fields(fields, m, &mut out[0..0])?;
    if (out.len() < n) | (limits::BOOK_MOST < n) {
        return Err(Refusal::NoRoom(n));
    }
    let _ = sheet::judge_sheet_fields(fields, m, out);
    Ok(n)
}

pub fn write_sheet(pattern: &[u8], fields: &[u32], out: &mut [u8], work: &mut [u32]) -> Reply
    requires { length work.old ≡ 16384 }
    ensures { FulfilsOne (sheet_written pattern.now fields.now (length out.old)) (reply_told result) out.old out.new }
{
    let f = accept::accept_pattern(pattern, work)?;
    write_sheet_of(fields, f.pattern.edges as u32, out)
}

// A book for views with so many edges.
fn write_book_of(
    fields: &[u32],
    counts: [u32; 16],
    k: usize,
    out: &mut [u8],
    work: &mut [u32],
) -> Reply
    requires { (length work.old ≡ 16384) × (k ≤ 16) × Small counts }
    ensures { FulfilsOne (judged (write_file 4 (book (take k counts)) fields.now) (λ s. within_pairs_by (take k counts) fields.now (fit_file (length out.old) s))) (reply_told result) out.old out.new }
{
    let (n, _) = sheet::judge_book_fields(fields, &counts[0..k], &mut out[0..0])?;
    let different = gather::gather_fields(fields, counts, k, work);
    if limits::PAIRS_MOST < different {
        return Err(Refusal::TooManyPairs(File::Sheet));
    }
    if (out.len() < n) | (limits::BOOK_MOST < n) {
        return Err(Refusal::NoRoom(n));
    }
    let _ = sheet::judge_book_fields(fields, &counts[0..k], out);
    Ok(n)
}

pub fn write_book(catalogue: &[u8], fields: &[u32], out: &mut [u8], work: &mut [u32]) -> Reply
    requires { length work.old ≡ 16384 }
    ensures { FulfilsOne (book_written catalogue.now fields.now (length out.old)) (reply_told result) out.old out.new }
{
    let CatalogueFile { views, edges, .. } = accept::accept_catalogue(catalogue, work)?;
    write_book_of(fields, edges, views, out, work)
}

// ---- the converter

// Sorts the edges of an old record: its content, with the edges in the order in which they stand in the workspace, is written as a record.
pub fn sort_record(old: &[u8], out: &mut [u8], work: &mut [u32]) -> Reply
    requires { length work.old ≡ 16384 }
    ensures { FulfilsOne (record_sorted old.now (length out.old)) (reply_told result) out.old out.new }
{
    let mut fields = [0u32; limits::RECORD_FIELDS];
    let n = accept::accept_old_record(old, &mut fields, work)?;
    let nodes = fields[0] as usize;
    let edges = fields[1] as usize;
    record::store_ranked(work, edges, &mut fields, 2 + nodes);
    write_record(&fields[0..n], out)
}
