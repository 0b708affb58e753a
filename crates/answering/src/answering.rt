// An answer from a book, with room to work in: 16,384 words, which are left in any state.
ghost use Rattle.std.specs.Prelude.{◌≡◌, List, ℕ, length};
ghost use Rattle.packed.specs.Refusals.{reply_told};
ghost use Rattle.packed.specs.Calls.{FulfilsOne, judged, read_book, fit_file};
ghost use Rattle.engine.specs.Loaded.{Fair, pattern_in};
ghost use Rattle.matching.specs.Search.{sheet_bytes};
ghost use Rattle.matching.specs.Join.{View, answer_sets};
ghost use Rattle.matching.specs.Candidates.{Booked};
ghost use Rattle.matching.specs.Joining.{Agrees};
ghost use Rattle.matching.specs.Offered.{brings};
ghost use Rattle.containment.specs.Choice.{lowest_unmatched};
ghost use Rattle.containment.specs.Quote.{table_of};
ghost use Rattle.containment.specs.Answer.{answer_in, answer_from, answer_outcome};
ghost use Rattle.containment.specs.Steps.{Query, ViewCounts, quoted_as, LoadedTo};

use containment::{choose, judging};
use matching::join;
use packed::by_value::Pattern;
use packed::reply::{File, Refusal, Reply};
use packed::{accept, gather, limits, matches};

// A book whose different pairs stand at the front of the workspace: how many edges each of its views has, how many views there are, and how many
// pairs.
#[derive(Clone, Copy)]
pub struct BookPairs<'a> {
    pub book: &'a [u8],
    pub counts: [u32; 16],
    pub views: usize,
    pub number: usize,
}

// A book is judged, and its different pairs go to the front of the workspace: how many they are.
pub fn load_book(book: &[u8], counts: [u32; 16], k: usize, work: &mut [u32]) -> Reply
    requires { ViewCounts counts k × (length work.old ≡ 16384) }
    ensures { (v : ViewCounts counts k) → LoadedTo v.views.content book.now counts k work.new result }
{
    accept::accept_book(book, counts, k, &mut work[0..0])?;
    let d = gather::gather_book(book, counts, k, work);
    if limits::PAIRS_MOST < d {
        return Err(Refusal::TooManyPairs(File::Sheet));
    }
    Ok(d)
}

// Answers from the pairs of a book that stand in the workspace, by the views in the set.
pub fn answer_pairs(
    q: Pattern,
    table: &[u32; 512],
    set: u32,
    b: BookPairs<'_>,
    out: &mut [u8],
    work: &mut [u32],
) -> Reply
    requires { Fair q × Booked b.book.now b.counts b.views b.number work.old }
    ensures { (vs : List View) → Agrees q table.now set b.entry.book.now b.entry.counts b.entry.views vs → FulfilsOne (fit_file (length out.old) (sheet_bytes (answer_sets (pattern_in q) vs))) (reply_told result) out.old out.new }
{
    join::join(q, table, set, b.book, b.counts, b.views, b.number, work);
    matches::give_sheet(work, b.number, q.edges as u32, out)
}

// Answers from a book by the views in the set, once what the client brings is judged. The lowest edge that the set leaves unmatched is known.
fn answer_book(
    q: Pattern,
    table: &[u32; 512],
    set: u32,
    lowest: usize,
    counts: [u32; 16],
    k: usize,
    book: &[u8],
    out: &mut [u8],
    work: &mut [u32],
) -> Reply
    requires { Query q × ViewCounts counts k × (lowest ≡ lowest_unmatched table.now set k q.edges) × (length work.old ≡ 16384) }
    ensures { (t : Query q) (v : ViewCounts counts k) (usable : ℕ) → table.now ≡ table_of (quoted_as t v usable) → FulfilsOne (judged (read_book v.views.content book.now) (λ bs. answer_in set (quoted_as t v usable) bs (length out.old))) (reply_told result) out.old out.new }
{
    let d = load_book(book, counts, k, work)?;
    if lowest < q.edges {
        return Err(Refusal::NotContained(lowest as u32));
    }
    let b = BookPairs {
        book,
        counts,
        views: k,
        number: d,
    };
    answer_pairs(q, table, set, b, out, work)
}

// Answers by the views that the quote chooses.
pub fn answer(
    question: &[u8],
    catalogue: &[u8],
    one_way: u32,
    book: &[u8],
    out: &mut [u8],
    work: &mut [u32],
) -> Reply
    requires { length work.old ≡ 16384 }
    ensures { FulfilsOne (answer_outcome question.now (brings catalogue.now one_way) book.now (length out.old)) (reply_told result) out.old out.new }
{
    let f = judging::judge(question, catalogue, one_way, work)?;
    let table = f.table;
    let q = f.query;
    let counts = f.edges;
    let k = f.views;
    let masks = choose::masks_of(&table, k, q.edges);
    let lowest = choose::lowest_in(&masks, f.usable, k, q.edges);
    let used = choose::use_views(&masks, f.usable, lowest, k, q.edges);
    answer_book(q, &table, used, lowest, counts, k, book, out, work)
}

// Answers by the views in the set.
pub fn answer_from(
    question: &[u8],
    catalogue: &[u8],
    one_way: u32,
    set: u32,
    book: &[u8],
    out: &mut [u8],
    work: &mut [u32],
) -> Reply
    requires { length work.old ≡ 16384 }
    ensures { FulfilsOne (answer_from question.now (brings catalogue.now one_way) set book.now (length out.old)) (reply_told result) out.old out.new }
{
    let f = judging::judge(question, catalogue, one_way, work)?;
    let table = f.table;
    let q = f.query;
    let counts = f.edges;
    let k = f.views;
    let lowest = choose::lowest_unmatched(&table, set, k, q.edges);
    answer_book(q, &table, set, lowest, counts, k, book, out, work)
}
