// Files are accepted here, each by its length and its fields. How long a file may be is tested nowhere else.
ghost use Rattle.std.specs.Prelude.{◌≡◌, [], ◌≤◌, length, take};
ghost use Rattle.packed.specs.Limits.{questions_most};
ghost use Rattle.packed.specs.Format.{decode};
ghost use Rattle.packed.specs.Formats.{sheet, book};
ghost use Rattle.packed.specs.OldRecord.{old_record, read_old_record};
ghost use Rattle.packed.specs.Calls.{read_file, read_pattern, read_questions, read_catalogue, read_record};
ghost use Rattle.packed.specs.Accepting.{reply_of, AcceptsFile, AcceptsPattern, AcceptsCatalogue};
ghost use Rattle.packed.specs.LoadedGraph.{WordsLoaded};
ghost use Rattle.packed.specs.OldLoading.{Orders};

use crate::by_value::Pattern;
use crate::reply::{File, Refusal, Reply};
use crate::{by_value, catalogue, limits, old_record, pattern, record, sheet};

// An accepted pattern: how many fields it has, and the pattern by value.
#[derive(Clone, Copy)]
pub struct PatternFile {
    pub fields: usize,
    pub pattern: Pattern,
}

// An accepted catalogue: how many fields it has, and how many views and how many edges each. There is no heap, so the table is as long as a catalogue can
// want it.
#[derive(Clone, Copy)]
pub struct CatalogueFile {
    pub fields: usize,
    pub views: usize,
    pub edges: [u32; 16],
}

// A pattern: its content stands at the front of the workspace. As a call of its own it takes the stack for a pattern beside that of the caller.
#[inline(always)]
pub fn accept_pattern(s: &[u8], work: &mut [u32]) -> Result<PatternFile, Refusal>
    requires { length work.old ≡ 16384 }
    ensures { AcceptsPattern (read_pattern s.now) result work.new }
{
    if limits::PATTERN_MOST < s.len() {
        return Err(Refusal::TooLong(File::Pattern));
    }
    let (_, fields) = pattern::judge_pattern(s, work)?;
    let pattern = by_value::pattern_of(&work[0..fields]);
    Ok(PatternFile { fields, pattern })
}

// A catalogue: its content stands at the front of the workspace. A file of zero bytes is one without views, as the byte 00 is.
pub fn accept_catalogue(s: &[u8], work: &mut [u32]) -> Result<CatalogueFile, Refusal>
    requires { length work.old ≡ 16384 }
    ensures { AcceptsCatalogue (read_catalogue s.now) result work.new }
{
    if s.len() == 0 {
        work[0] = 0;
        return Ok(CatalogueFile {
            fields: 1,
            views: 0,
            edges: [0u32; 16],
        });
    }
    if limits::CATALOGUE_MOST < s.len() {
        return Err(Refusal::TooLong(File::Catalogue));
    }
    let (_, fields) = catalogue::judge_catalogue(s, work)?;
    let content = &work[0..fields];
    Ok(CatalogueFile {
        fields,
        views: catalogue::word_at(content, 0) as usize,
        edges: catalogue::edge_counts(content),
    })
}

// A part that is a whole file, as a reply: how many fields it has. As a `map` at each of its five calls it took a proof at each.
fn reply_of(p: Result<(usize, usize), Refusal>) -> Reply
    ensures { result ≡ reply_of p }
{
    let (_, n) = p?;
    Ok(n)
}

// The questions of one call, so many: their content goes to the front of the words.
pub fn accept_questions(s: &[u8], number: u32, work: &mut [u32]) -> Reply
    requires { (number ≤ questions_most) × (length work.old ≡ 16384) }
    ensures { AcceptsFile (read_questions number s.now) result work.old work.new }
{
    let most = limits::PATTERN_MOST * number as usize;
    if most < s.len() {
        return Err(Refusal::TooLong(File::Pattern));
    }
    reply_of(catalogue::judge_questions(s, number, work))
}

// A record: the words of its edges go to the front of the workspace.
pub(crate) fn accept_record(s: &[u8], work: &mut [u32]) -> Reply
    requires { length work.old ≡ 16384 }
    ensures { AcceptsFile (read_record s.now) result [] [] × WordsLoaded s.now work.old result work.new }
{
    if limits::RECORD_MOST < s.len() {
        return Err(Refusal::TooLong(File::Record));
    }
    reply_of(record::judge_record(s, work))
}

// An old record: its content goes to the front of the words as far as they go, and the ranks of its edges, ascending, to the front of the
// workspace.
pub(crate) fn accept_old_record(s: &[u8], words: &mut [u32], work: &mut [u32]) -> Reply
    requires { length work.old ≡ 16384 }
    ensures { AcceptsFile (read_old_record s.now) result words.old words.new
        × Orders (decode old_record s.now) result work.old work.new }
{
    if limits::OLD_RECORD_MOST < s.len() {
        return Err(Refusal::TooLong(File::Record));
    }
    reply_of(old_record::judge_old_record(s, words, work))
}

// A sheet for a pattern with m edges: its content goes to the front of the words as far as they go.
pub(crate) fn accept_sheet(s: &[u8], m: u32, words: &mut [u32]) -> Reply
    ensures { AcceptsFile (read_file 65536 4 (sheet m) s.now) result words.old words.new }
{
    if limits::BOOK_MOST < s.len() {
        return Err(Refusal::TooLong(File::Sheet));
    }
    reply_of(sheet::judge_sheet(s, m, words))
}

// A book for k views with so many edges.
pub fn accept_book(s: &[u8], edges: [u32; 16], k: usize, words: &mut [u32]) -> Reply
    requires { k ≤ 16 }
    ensures { AcceptsFile (read_file 65536 4 (book (take k edges)) s.now) result words.old words.new }
{
    if limits::BOOK_MOST < s.len() {
        return Err(Refusal::TooLong(File::Sheet));
    }
    reply_of(sheet::judge_book(s, &edges[0..k], words))
}
