// Several queries answered in one call from one book, whose pairs are gathered once. The table of each is made before the book is loaded,
// which takes the room. There is no heap, so what is held of the queries stands in arrays for the most there may be.
ghost use Rattle.std.specs.Prelude.{◌≡◌, List, [], ◌∷◌, ℕ, ◌≤◌, length};
ghost use Rattle.packed.specs.Calls.{Fulfils, judged, read_book};
ghost use Rattle.engine.specs.Loaded.{Fair, pattern_in, Edges};
ghost use Rattle.matching.specs.Join.{View, answer_sets};
ghost use Rattle.matching.specs.Books.{EdgesCounted, sheet_size};
ghost use Rattle.matching.specs.Candidates.{Booked};
ghost use Rattle.matching.specs.Joining.{Agrees};
ghost use Rattle.matching.specs.Offered.{brings};
ghost use Rattle.answering.specs.Several.{several_in, fit_several, several_outcome, several_told};
ghost use Rattle.containment.specs.Steps.{Views, ViewCounts, offer_of};
ghost use Rattle.answering.specs.SeveralSteps.{Asked, asked_at, first_lowest, Mapped, Answerable, answers_of, Measured, Held, Writable, Written};

use crate::answering::BookPairs;
use crate::{answering, parting};
use containment::{choose, mapping};
use engine::views;
use matching::{join, offered};
use packed::accept::CatalogueFile;
use packed::by_value::Pattern;
use packed::reply::Refusal;
use packed::{accept, limits, matches};

// How many bytes were written, and how many sheets of the book were needed; or why there is nothing.
pub type Several = Result<(usize, u32), Refusal>;

// The views that answer each query, those that answer one of them, and the lowest edge that no view matches of the first query that isn't
// covered.
#[derive(Clone, Copy)]
pub struct Sets {
    pub used: [u32; 8],
    pub needed: u32,
    pub lowest: Option<u32>,
}

// The lowest unmatched edge of the first query that isn't covered, where the last of them has m edges: low is its own, or m.
#[tactic(auto, unfolding(crate::specs::SeveralSteps::first_lowest))]
fn first_lowest(before: Option<u32>, low: usize, m: usize) -> Option<u32>
    requires { m ≤ 32 }
    ensures { result ≡ first_lowest before low m }
{
    match before {
        Some(e) => Some(e),
        None => { if low < m { Some(low as u32) } else { None } }
    }
}

// Queries, so many in one file, each with its table and the views that answer it.
#[derive(Clone, Copy)]
struct Queries<'a, 'b> {
    file: &'a [u8],
    number: usize,
    tables: &'b [[u32; 512]; 8],
    used: [u32; 8],
}

// The tables of the queries, and the views that answer each.
fn map_queries(
    questions: &[u8],
    number: usize,
    catalogue: &[u8],
    one_way: u32,
    k: usize,
    counts: [u32; 16],
    tables: &mut [[u32; 512]; 8],
    work: &mut [u32],
) -> Sets
    requires { Asked questions.now number × Views catalogue.now k × EdgesCounted catalogue.now k counts × (length catalogue.now ≤ 65536) × (length work.old ≡ 16384) }
    ensures { (a : Asked questions.now number) (v : Views catalogue.now k) → Mapped (asked_at a v one_way) number tables.new result.used result.needed result.lowest }
{
    let mut used = [0; 8];
    let mut needed: u32 = 0;
    let mut lowest = None;
    let mut byte: usize = 0;
    for i in 0..number {
        let v = views::view_at(questions, byte);
        let q = v.pattern;
        let table = mapping::map_views(q, catalogue, one_way, k, counts, work);
        let masks = choose::masks_of(&table, k, q.edges);
        let low = choose::lowest_in(&masks, choose::EVERY_VIEW, k, q.edges);
        let set = choose::use_views(&masks, choose::EVERY_VIEW, low, k, q.edges);
        tables[i] = table;
        used[i] = set;
        needed = needed | set;
        lowest = first_lowest(lowest, low, q.edges);
        byte = v.next;
    }
    Sets {
        used,
        needed,
        lowest,
    }
}

// How many bytes each answer takes, all of them together, and whether one is over the most; and how many edges the last query has, whose pairs
// are still marked.
#[derive(Clone, Copy)]
pub struct Sizes {
    pub each: [usize; 8],
    pub total: usize,
    pub long: bool,
    pub edges: u32,
}

fn measure(a: Queries<'_, '_>, b: BookPairs<'_>, work: &mut [u32]) -> Sizes
    requires { Answerable a.file.now a.number a.tables.now a.used b.book.now b.counts b.views b.number work.old }
    ensures { (x : Answerable a.entry.file.now a.entry.number a.entry.tables.now a.entry.used b.entry.book.now b.entry.counts b.entry.views b.entry.number work.old) → Measured (answers_of x) a.entry.number b.entry.number result work.old work.new }
{
    let mut each = [0; 8];
    let mut total: usize = 0;
    let mut long = false;
    let mut edges: u32 = 0;
    let mut byte: usize = 0;
    for i in 0..a.number {
        let v = views::view_at(a.file, byte);
        let q = v.pattern;
        edges = q.edges as u32;
        join::join(
            q,
            &a.tables[i],
            a.used[i],
            b.book,
            b.counts,
            b.views,
            b.number,
            work,
        );
        let size = matches::sheet_size(work, b.number, edges);
        each[i] = size;
        total += size;
        long = long | (limits::BOOK_MOST < size);
        byte = v.next;
    }
    Sizes {
        each,
        total,
        long,
        edges,
    }
}

// The pairs are joined again, and the result is from how many the sheet is written. A sheet whose size shows that it lists nothing is written from
// none, and needs no join.
fn join_again(
    q: Pattern,
    table: &[u32; 512],
    set: u32,
    size: usize,
    b: BookPairs<'_>,
    work: &mut [u32],
) -> usize
    requires { Fair q × Booked b.book.now b.counts b.views b.number work.old }
    ensures { Edges work.old work.new × ((vs : List View) → Agrees q table.now set b.entry.book.now b.entry.counts b.entry.views vs → size ≡ sheet_size (answer_sets (pattern_in q) vs) → Held result q.edges (answer_sets (pattern_in q) vs) work.new) }
{
    if size == 1 {
        return 0;
    }
    join::join(q, table, set, b.book, b.counts, b.views, b.number, work);
    b.number
}

// The answers of the first so many, each from the byte after the one before.
fn write_answers(
    a: Queries<'_, '_>,
    number: usize,
    sizes: [usize; 8],
    b: BookPairs<'_>,
    out: &mut [u8],
    work: &mut [u32],
)
    requires { (x : Answerable a.file.now a.number a.tables.now a.used b.book.now b.counts b.views b.number work.old) × Writable (answers_of x) number a.number sizes out.old }
    ensures { (x : Answerable a.entry.file.now a.entry.number a.entry.tables.now a.entry.used b.entry.book.now b.entry.counts b.entry.views b.entry.number work.old) → Writable (answers_of x) number a.entry.number sizes out.old → Written (answers_of x) number out.old out.new }
{
    let mut at: usize = 0;
    let mut byte: usize = 0;
    for i in 0..number {
        let v = views::view_at(a.file, byte);
        let q = v.pattern;
        let n = join_again(q, &a.tables[i], a.used[i], sizes[i], b, work);
        at += matches::write_sheet(work, n, q.edges as u32, &mut out[at..]);
        byte = v.next;
    }
}

// The answers from the pairs of a book that stand in the workspace, once each query is known to be covered and its sheets are counted. Nothing is
// written before all sizes are known; the last answer is written first, while its pairs are marked.
fn answer_pairs(
    a: Queries<'_, '_>,
    b: BookPairs<'_>,
    sheets: u32,
    out: &mut [u8],
    work: &mut [u32],
) -> Several
    requires { (1 ≤ a.number) × Answerable a.file.now a.number a.tables.now a.used b.book.now b.counts b.views b.number work.old }
    ensures { (x : Answerable a.entry.file.now a.entry.number a.entry.tables.now a.entry.used b.entry.book.now b.entry.counts b.entry.views b.entry.number work.old) → Fulfils [] (fit_several (length out.old) sheets (answers_of x) a.entry.number) (several_told result) (out.old ∷ []) (out.new ∷ []) }
{
    let s = measure(a, b, work);
    let total = s.total;
    if (out.len() < total) | s.long {
        return Err(Refusal::NoRoom(total));
    }
    let sizes = s.each;
    let last = a.number - 1;
    let at = total - sizes[last];
    matches::write_sheet(work, b.number, s.edges, &mut out[at..]);
    write_answers(a, last, sizes, b, out, work);
    Ok((total, sheets))
}

// The answers from a book, once the questions and the catalogue are judged.
fn answer_book(
    questions: &[u8],
    number: usize,
    tables: &[[u32; 512]; 8],
    sets: Sets,
    counts: [u32; 16],
    k: usize,
    book: &[u8],
    out: &mut [u8],
    work: &mut [u32],
) -> Several
    requires { (length work.old ≡ 16384) × (1 ≤ number) × ((a : Asked questions.now number) × (v : ViewCounts counts k) × Mapped (asked_at a v.views v.one_way) number tables.now sets.used sets.needed sets.lowest) }
    ensures { (a : Asked questions.now number) (v : ViewCounts counts k) → Mapped (asked_at a v.views v.one_way) number tables.now sets.used sets.needed sets.lowest → Fulfils [] (judged (read_book v.views.content book.now) (λ bs. several_in (asked_at a v.views v.one_way) number (offer_of v) bs (length out.old))) (several_told result) (out.old ∷ []) (out.new ∷ []) }
{
    let d = answering::load_book(book, counts, k, work)?;
    if let Some(e) = sets.lowest {
        return Err(Refusal::NotContained(e));
    }
    let sheets = parting::number_in(sets.needed, k);
    let used = sets.used;
    let a = Queries {
        file: questions,
        number,
        tables,
        used,
    };
    let b = BookPairs {
        book,
        counts,
        views: k,
        number: d,
    };
    answer_pairs(a, b, sheets, out, work)
}

pub fn answer_several(
    questions: &[u8],
    number: u32,
    catalogue: &[u8],
    one_way: u32,
    book: &[u8],
    out: &mut [u8],
    work: &mut [u32],
) -> Several
    requires { length work.old ≡ 16384 }
    ensures { Fulfils [] (several_outcome questions.now number (brings catalogue.now one_way) book.now (length out.old)) (several_told result) (out.old ∷ []) (out.new ∷ []) }
{
    if (number == 0) | (limits::QUESTIONS_MOST < number) {
        return Err(Refusal::WrongQuestions(number as usize));
    }
    accept::accept_questions(questions, number, work)?;
    let CatalogueFile { views, edges, .. } = offered::accept_offer(catalogue, one_way, work)?;
    let mut tables = [[0; 512]; 8];
    let sets = map_queries(
        questions,
        number as usize,
        catalogue,
        one_way,
        views,
        edges,
        &mut tables,
        work,
    );
    answer_book(
        questions,
        number as usize,
        &tables,
        sets,
        edges,
        views,
        book,
        out,
        work,
    )
}
