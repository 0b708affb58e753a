// Bit-packed files: patterns, catalogues, records, sheets and books, read into fields and written from fields.
//
// Each call is lent an output and a workspace of at least 16,384 words. It answers how much of the output it wrote, or a refusal that
// leaves the output untouched. The first 16,384 words of the workspace are zero afterwards, unless there were fewer.
#![tactic(auto)]

pub mod accept;
mod bits;
pub mod by_value;
mod calls;
mod catalogue;
pub mod cursor;
mod distinct;
pub mod enter;
mod field;
pub mod gather;
pub mod graph;
pub mod limits;
pub mod matches;
mod old_record;
pub mod pattern;
pub mod record;
pub mod reply;
pub mod sheet;
pub mod sort;
pub mod workspace;

ghost use Rattle.packed.specs.Refusals.{reply_told};
ghost use Rattle.packed.specs.OldRecord.{record_sorted};
ghost use Rattle.packed.specs.Calls.{OneOutput, pattern_read, catalogue_read, record_read, sheet_read, book_read, pattern_written, catalogue_written, record_written, sheet_written, book_written};

use reply::Reply;

// The call has the words to work in, and these are cleared behind it; without enough of them it is refused, as a Result or by what is given for that. It is
// for the crates above too. A function that takes the call as a closure would learn nothing of the outputs that this captures.
#[macro_export]
macro_rules! lent {
    ($work:ident, $call:expr) => {
        $crate::lent!($work, Err($crate::reply::Refusal::SmallWorkspace), $call)
    };
    ($work:ident, $small:expr, $call:expr) => {{
        if $work.len() < $crate::limits::WORKSPACE {
            return $small;
        }
        let r = $call;
        $crate::workspace::clear($work, $crate::limits::WORKSPACE);
        r
    }};
}

// Reads a pattern.
pub fn read_pattern(bytes: &[u8], out: &mut [u32], work: &mut [u32]) -> Reply
    ensures { OneOutput (pattern_read bytes.now) (reply_told result) out.old out.new work.old work.new }
{
    lent!(
        work,
        calls::read_pattern(bytes, out, &mut work[0..limits::WORKSPACE])
    )
}

// Reads a catalogue.
pub fn read_catalogue(bytes: &[u8], out: &mut [u32], work: &mut [u32]) -> Reply
    ensures { OneOutput (catalogue_read bytes.now) (reply_told result) out.old out.new work.old work.new }
{
    lent!(
        work,
        calls::read_catalogue(bytes, out, &mut work[0..limits::WORKSPACE])
    )
}

// Reads a record.
pub fn read_record(bytes: &[u8], out: &mut [u32], work: &mut [u32]) -> Reply
    ensures { OneOutput (record_read bytes.now) (reply_told result) out.old out.new work.old work.new }
{
    lent!(
        work,
        calls::read_record(bytes, out, &mut work[0..limits::WORKSPACE])
    )
}

// Reads a sheet beside its pattern.
pub fn read_sheet(pattern: &[u8], bytes: &[u8], out: &mut [u32], work: &mut [u32]) -> Reply
    ensures { OneOutput (sheet_read pattern.now bytes.now) (reply_told result) out.old out.new work.old work.new }
{
    lent!(
        work,
        calls::read_sheet(pattern, bytes, out, &mut work[0..limits::WORKSPACE])
    )
}

// Reads a book beside its catalogue.
pub fn read_book(catalogue: &[u8], bytes: &[u8], out: &mut [u32], work: &mut [u32]) -> Reply
    ensures { OneOutput (book_read catalogue.now bytes.now) (reply_told result) out.old out.new work.old work.new }
{
    lent!(
        work,
        calls::read_book(catalogue, bytes, out, &mut work[0..limits::WORKSPACE])
    )
}

// Writes a pattern.
pub fn write_pattern(fields: &[u32], out: &mut [u8], work: &mut [u32]) -> Reply
    ensures { OneOutput (pattern_written fields.now) (reply_told result) out.old out.new work.old work.new }
{
    lent!(work, calls::write_pattern(fields, out))
}

// Writes a catalogue.
pub fn write_catalogue(fields: &[u32], out: &mut [u8], work: &mut [u32]) -> Reply
    ensures { OneOutput (catalogue_written fields.now) (reply_told result) out.old out.new work.old work.new }
{
    lent!(work, calls::write_catalogue(fields, out))
}

// Writes a record.
pub fn write_record(fields: &[u32], out: &mut [u8], work: &mut [u32]) -> Reply
    ensures { OneOutput (record_written fields.now) (reply_told result) out.old out.new work.old work.new }
{
    lent!(work, calls::write_record(fields, out))
}

// Writes a sheet beside its pattern.
pub fn write_sheet(pattern: &[u8], fields: &[u32], out: &mut [u8], work: &mut [u32]) -> Reply
    ensures { OneOutput (sheet_written pattern.now fields.now) (reply_told result) out.old out.new work.old work.new }
{
    lent!(
        work,
        calls::write_sheet(pattern, fields, out, &mut work[0..limits::WORKSPACE])
    )
}

// Writes a book beside its catalogue.
pub fn write_book(catalogue: &[u8], fields: &[u32], out: &mut [u8], work: &mut [u32]) -> Reply
    ensures { OneOutput (book_written catalogue.now fields.now) (reply_told result) out.old out.new work.old work.new }
{
    lent!(
        work,
        calls::write_book(catalogue, fields, out, &mut work[0..limits::WORKSPACE])
    )
}

// Sorts the edges of a record that was stored before they had kinds, or even an order: writes the record.
pub fn sort_record(old: &[u8], out: &mut [u8], work: &mut [u32]) -> Reply
    ensures { OneOutput (record_sorted old.now) (reply_told result) out.old out.new work.old work.new }
{
    lent!(
        work,
        calls::sort_record(old, out, &mut work[0..limits::WORKSPACE])
    )
}
