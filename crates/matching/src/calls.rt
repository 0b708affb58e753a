// The client calls with room to work in: 16,384 words, which are left in any state.
// The numbers of edges are sixteen with the number k of views beside them, as they come with an accepted catalogue: nothing is allocated.
ghost use Rattle.std.specs.Prelude.{◌≡◌, ℕ, ◌+◌, ◌^◌, ◌<◌, ◌≤◌, length, get_or, sum};
ghost use Rattle.packed.specs.Refusals.{reply_told};
ghost use Rattle.packed.specs.Calls.{FulfilsOne};
ghost use Rattle.packed.specs.Matches.{Marked, Counts};
ghost use Rattle.engine.specs.Loaded.{pattern_in, Fair, Ready};
ghost use Rattle.engine.specs.Starting.{NodeRoom};
ghost use Rattle.engine.specs.Matched.{Proper, Rises};
ghost use Rattle.engine.specs.Batches.{FairBatch, BatchMatched};
ghost use Rattle.matching.specs.Batches.{BeginsAt};
ghost use Rattle.matching.specs.Search.{make_book_outcome};
ghost use Rattle.matching.specs.Index.{search_by, search_by_outcome};
ghost use Rattle.matching.specs.Offered.{brings};
ghost use Rattle.matching.specs.Books.{Catalogued, EdgesCounted, Bookable, Batched, lists_at, sheets_from, SizesKept, SizesFrom, Sized, ListNothing, Paired, SheetsWritten, Room, BookFits, BookWritten, BookGiven, BookAnswered};

use crate::{batches, offered};
use engine::batch::Batch;
use engine::{index, matched};
use packed::by_value::Pattern;
use packed::reply::{Refusal, Reply};
use packed::{accept, graph, limits, matches};

// Searches a record for a pattern by value, by the record's index if there is one.
fn search_for(
    p: Pattern,
    record: &[u8],
    index: Option<&[u16]>,
    out: &mut [u8],
    work: &mut [u32],
) -> Reply
    requires { (length work.old ≡ 16384) × Fair p × Proper p }
    ensures { FulfilsOne (search_by (pattern_in p) «record».now index.entry (length out.old)) (reply_told result) out.old out.new }
{
    let (n, m) = graph::load_record(record, work)?;
    if let Some(first) = index {
        index::judge(work, m, n, first)?;
    }
    let mut leave = [0u32; 4096];
    let mut arrive = [0u32; 4096];
    let mut held = [0u32; 4096];
    matched::match_edges(
        record,
        n,
        m,
        p,
        true,
        index,
        work,
        &mut leave,
        &mut arrive,
        &mut held,
    );
    matches::give_sheet(work, m, p.edges as u32, out)
}

// Searches a record for a pattern, by the record's index if there is one.
pub fn search(
    pattern: &[u8],
    record: &[u8],
    index: Option<&[u16]>,
    out: &mut [u8],
    work: &mut [u32],
) -> Reply
    requires { length work.old ≡ 16384 }
    ensures { FulfilsOne (search_by_outcome pattern.now «record».now index.entry (length out.old)) (reply_told result) out.old out.new }
{
    let f = accept::accept_pattern(pattern, work)?;
    search_for(f.pattern, record, index, out, work)
}

// The sizes of the sheets of a batch, of the views a up to b, by the counts of its pairs.
fn keep_sizes(c: [u32; 32], edges: [u32; 16], a: usize, b: usize, sizes: &mut [usize; 16])
    requires { Batched edges a b × ((e : ℕ) → get_or c e 0 ≤ 8192) × (length sizes.old ≡ 16) }
    ensures { SizesKept edges a b c sizes.old sizes.new }
{
    let mut o: u32 = 0;
    for j in a..b {
        let own = edges[j];
        sizes[j] = matches::size_from(c, o, own);
        o += own;
    }
}

// A batch is matched, and the sizes of its sheets are kept; the result is how many pairs each of its edges has.
fn match_sizes(
    record: &[u8],
    n: usize,
    m: usize,
    batch: Batch,
    edges: [u32; 16],
    a: usize,
    b: usize,
    sizes: &mut [usize; 16],
    work: &mut [u32],
    leave: &mut [u32],
    arrive: &mut [u32],
    held: &mut [u32],
) -> [u32; 32]
    requires { FairBatch batch × Ready «record».now n m work.old × Rises m work.old × NodeRoom n leave.old arrive.old held.old × Batched edges a b × (length sizes.old ≡ 16) }
    ensures { BatchMatched batch «record».now n m work.old work.new × NodeRoom n leave.new arrive.new held.new × Counts m work.new result × SizesKept edges a b result sizes.old sizes.new }
{
    matched::match_batch(record, n, m, batch, None, work, leave, arrive, held);
    let c = matches::counts(work, m);
    keep_sizes(c, edges, a, b, sizes);
    c
}

// The sizes of the sheets of the k views from the view `first` on, which begins on the byte `begin`.
fn book_sizes(
    catalogue: &[u8],
    one_way: u32,
    k: usize,
    edges: [u32; 16],
    first: usize,
    begin: usize,
    record: &[u8],
    n: usize,
    m: usize,
    sizes: &mut [usize; 16],
    work: &mut [u32],
    leave: &mut [u32],
    arrive: &mut [u32],
    held: &mut [u32],
)
    requires { Bookable catalogue.now k edges «record».now n m work.old × BeginsAt catalogue.now first begin × (first ≤ k) × (length sizes.old ≡ 16) × NodeRoom n leave.old arrive.old held.old }
    ensures { Sized catalogue.now one_way «record».now n m work.old first k sizes.new work.new × NodeRoom n leave.new arrive.new held.new }
{
    let mut byte: usize = begin;
    let mut a: usize = first;
    // No for loop: a turn goes on by as many views as its batch has.
    while a < k {
        let f = batches::fill(catalogue, one_way, k, edges, a, byte);
        match_sizes(
            record, n, m, f.batch, edges, a, f.next, sizes, work, leave, arrive, held,
        );
        byte = f.byte;
        a = f.next;
    }
}

// The sizes together.
fn total(sizes: &[usize]) -> usize
    requires { sum sizes.now < 2 ^ 64 }
    ensures { result ≡ sum sizes.now }
{
    sizes.iter().sum()
}

// Whether the sheets of the views a up to b list nothing, by their sizes.
fn list_nothing(sizes: [usize; 16], a: usize, b: usize) -> bool
    requires { b ≤ 16 }
    ensures { ListNothing sizes a b result }
{
    (a..b).all(|j| sizes[j] == 1)
}

// The batch is matched again, and the result is how many pairs its sheets are written from. Sheets that list nothing are written from none, and need no
// match.
fn match_again(
    record: &[u8],
    n: usize,
    m: usize,
    batch: Batch,
    nothing: bool,
    work: &mut [u32],
    leave: &mut [u32],
    arrive: &mut [u32],
    held: &mut [u32],
) -> usize
    requires { FairBatch batch × Ready «record».now n m work.old × Rises m work.old × NodeRoom n leave.old arrive.old held.old }
    ensures { Paired batch nothing «record».now n m work.old result work.new × NodeRoom n leave.new arrive.new held.new }
{
    if nothing {
        return 0;
    }
    matched::match_batch(record, n, m, batch, None, work, leave, arrive, held);
    m
}

// The sheets of a batch, of the views a up to b, from d pairs: from the byte `begin` on, each from the byte after the one before. The rest of the lent
// book is lent to the sheet's writer. The result is the byte after them.
fn write_sheets(
    work: &[u32],
    d: usize,
    c: [u32; 32],
    edges: [u32; 16],
    a: usize,
    b: usize,
    begin: usize,
    out: &mut [u8],
) -> usize
    requires { Marked d work.now × Counts d work.now c × Batched edges a b × Room (begin + length (sheets_from (lists_at edges a d work.now) a b)) out.old }
    ensures { SheetsWritten (lists_at edges a d work.now) a b begin out.old result out.new }
{
    let mut at: usize = begin;
    let mut o: u32 = 0;
    for j in a..b {
        let own = edges[j];
        at += matches::write_from(work, d, c, o, own, &mut out[at..]);
        o += own;
    }
    at
}

// The sheets of the k views from the view `first` on, which begins on the byte `begin` of the catalogue, go from the byte `start` of the book on. The
// result is the byte after them.
fn write_book(
    catalogue: &[u8],
    one_way: u32,
    k: usize,
    edges: [u32; 16],
    first: usize,
    begin: usize,
    record: &[u8],
    n: usize,
    m: usize,
    sizes: [usize; 16],
    start: usize,
    out: &mut [u8],
    work: &mut [u32],
    leave: &mut [u32],
    arrive: &mut [u32],
    held: &mut [u32],
) -> usize
    requires { Bookable catalogue.now k edges «record».now n m work.old × BeginsAt catalogue.now first begin × (first ≤ k) × SizesFrom catalogue.now one_way «record».now n m work.old first k sizes × BookFits catalogue.now one_way «record».now n m work.old first k start out.old × NodeRoom n leave.old arrive.old held.old }
    ensures { BookWritten catalogue.now one_way «record».now n m work.old first k start out.old result out.new }
{
    let mut at: usize = start;
    let mut byte: usize = begin;
    let mut a: usize = first;
    // No for loop: a turn goes on by as many views as its batch has.
    while a < k {
        let f = batches::fill(catalogue, one_way, k, edges, a, byte);
        let nothing = list_nothing(sizes, a, f.next);
        let d = match_again(record, n, m, f.batch, nothing, work, leave, arrive, held);
        let c = matches::counts(work, d);
        at = write_sheets(work, d, c, edges, a, f.next, at, out);
        byte = f.byte;
        a = f.next;
    }
    at
}

// Makes the book of the k views from the record in the workspace. The first batch is matched last for its size, so that its pairs still stand when it is
// written: where there is one batch, it is matched once.
fn book_of(
    catalogue: &[u8],
    one_way: u32,
    k: usize,
    edges: [u32; 16],
    record: &[u8],
    n: usize,
    m: usize,
    out: &mut [u8],
    work: &mut [u32],
) -> Reply
    requires { Bookable catalogue.now k edges «record».now n m work.old }
    ensures { BookGiven catalogue.now one_way «record».now n m work.old (reply_told result) out.old out.new }
{
    if k == 0 {
        return Ok(0);
    }
    let mut leave = [0u32; 4096];
    let mut arrive = [0u32; 4096];
    let mut held = [0u32; 4096];
    let mut sizes = [0usize; 16];
    let f = batches::fill(catalogue, one_way, k, edges, 0, 1);
    book_sizes(
        catalogue,
        one_way,
        k,
        edges,
        f.next,
        f.byte,
        record,
        n,
        m,
        &mut sizes,
        work,
        &mut leave,
        &mut arrive,
        &mut held,
    );
    let c = match_sizes(
        record,
        n,
        m,
        f.batch,
        edges,
        0,
        f.next,
        &mut sizes,
        work,
        &mut leave,
        &mut arrive,
        &mut held,
    );
    let size = total(&sizes[..k]);
    if (out.len() < size) | (limits::BOOK_MOST < size) {
        return Err(Refusal::NoRoom(size));
    }
    let at = write_sheets(work, m, c, edges, 0, f.next, 0, out);
    write_book(
        catalogue,
        one_way,
        k,
        edges,
        f.next,
        f.byte,
        record,
        n,
        m,
        sizes,
        at,
        out,
        work,
        &mut leave,
        &mut arrive,
        &mut held,
    );
    Ok(size)
}

// Makes the book of the k views of an accepted catalogue, which have so many edges.
fn make_book_of(
    catalogue: &[u8],
    one_way: u32,
    k: usize,
    edges: [u32; 16],
    record: &[u8],
    out: &mut [u8],
    work: &mut [u32],
) -> Reply
    requires { (length work.old ≡ 16384) × Catalogued catalogue.now k × EdgesCounted catalogue.now k edges }
    ensures { BookAnswered catalogue.now one_way «record».now (reply_told result) out.old out.new }
{
    let (n, m) = graph::load_record(record, work)?;
    book_of(catalogue, one_way, k, edges, record, n, m, out, work)
}

pub fn make_book(
    catalogue: &[u8],
    one_way: u32,
    record: &[u8],
    out: &mut [u8],
    work: &mut [u32],
) -> Reply
    requires { length work.old ≡ 16384 }
    ensures { FulfilsOne (make_book_outcome (brings catalogue.now one_way) «record».now (length out.old)) (reply_told result) out.old out.new }
{
    let f = offered::accept_offer(catalogue, one_way, work)?;
    let edges = f.edges;
    make_book_of(catalogue, one_way, f.views, edges, record, out, work)
}
