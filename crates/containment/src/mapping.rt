// The table of a query and the views of a catalogue: which edges of each view match each edge of the query.
ghost use Rattle.std.specs.Prelude.{◌≡◌, ℕ, ◌+◌, ◌*◌, ◌≤◌, ◌<◌, length, get_or, replicate};
ghost use Rattle.packed.specs.Format.{ok, decode};
ghost use Rattle.packed.specs.Formats.{record'};
ghost use Rattle.packed.specs.LoadedGraph.{Holds};
ghost use Rattle.packed.specs.Matches.{Named, sum_of};
ghost use Rattle.engine.specs.Simulation.{pattern_of};
ghost use Rattle.engine.specs.Loaded.{Fair};
ghost use Rattle.matching.specs.Books.{EdgesCounted};
ghost use Rattle.matching.specs.Offered.{offers, view_patterns};
ghost use Rattle.containment.specs.Quote.{mapping};
ghost use Rattle.containment.specs.Show.{graph_fields};
ghost use Rattle.containment.specs.Steps.{Query, Views, PlaceOf, Present, Placed, Column, noted_mask, BatchNoted, AnyNamed};

use crate::query;
use engine::matched;
use matching::batches;
use packed::by_value::Pattern;
use packed::{graph, limits, matches};

pub fn no_mapping() -> [u32; 512]
    ensures { result ≡ replicate 512 0 }
{
    query::no_words()
}

// The place of a word among the first m, or m.
fn place_of(work: &[u32], m: usize, word: u32) -> usize
    requires { m ≤ length work.now }
    ensures { PlaceOf work.now m word result }
{
    for i in 0..m {
        if work[i] == word {
            return i;
        }
    }
    m
}

// The place of each edge of the query among the first m words, where they stand.
fn places_of(q: Pattern, m: usize, work: &[u32]) -> [usize; 32]
    requires { Fair q × (m ≤ 8192) × (length work.now ≡ 16384) × Present q m work.now }
    ensures { Placed q q.edges m work.now result }
{
    let mut places = [0usize; 32];
    for e in 0..q.edges {
        let word = q.kind[e] * limits::PAIRS + (q.from[e] * limits::NODES + q.to[e]);
        places[e] = place_of(work, m, word);
    }
    places
}

// The masks of one view, in column a of the table: of each edge of the query the m bits from the bit o on of the mask at its place; nothing,
// where one of the view's lists would be empty. What each edge is held for says which edges match it, not the lists, which say nothing of kinds.
fn note_view(
    table: &mut [u32; 512],
    a: usize,
    places: &[usize],
    named: u32,
    o: u32,
    m: u32,
    work: &[u32],
)
    requires { (a < 16) × (length places.now ≤ 32) × (o + m ≤ 32) × (length table.old ≡ 512) × (length work.now ≡ 16384) × ((e : ℕ) → e < length places.now → get_or places.now e 0 < 8192) × ((e : ℕ) → get_or table.old (16 * e + a) 0 ≡ 0) }
    ensures { (d : ℕ) → Named d work.now named → Column a (length places.now) (λ e x. x ≡ noted_mask o m d work.now (get_or places.now e 0)) table.old table.new }
{
    if !matches::lists_all(named, o, m) {
        return;
    }
    for e in 0..places.len() {
        let mask = limits::HELD + places[e];
        table[16 * e + a] = matches::bits_from(work[mask], o, m);
    }
}

// The views a .. next of a batch, each by its own bits: as many as it has edges.
fn note_batch(
    table: &mut [u32; 512],
    a: usize,
    next: usize,
    counts: [u32; 16],
    places: &[usize],
    named: u32,
    work: &[u32],
)
    requires { AnyNamed work.now named × (a ≤ next) × (next ≤ 16) × (length places.now ≤ 32) × (sum_of next counts ≤ sum_of a counts + 32) × (length table.old ≡ 512) × (length work.now ≡ 16384) × ((e : ℕ) → e < length places.now → get_or places.now e 0 < 8192) × ((i e : ℕ) → a ≤ i → i < 16 → get_or table.old (16 * e + i) 0 ≡ 0) }
    ensures { (d : ℕ) → Named d work.now named → BatchNoted a next (length places.now) counts d work.now places.now table.old table.new }
{
    let mut at: u32 = 0;
    for j in a..next {
        let m = counts[j];
        note_view(table, j, places, named, at, m, work);
        at += m;
    }
}

// The masks of the k views of a catalogue, with so many edges each, on the record s of the query, with n nodes and m edges: the views are matched in
// batches, each by its own rule, one-way if it is in the set.
fn note_views(
    q: Pattern,
    s: &[u8],
    n: usize,
    m: usize,
    catalogue: &[u8],
    one_way: u32,
    k: usize,
    counts: [u32; 16],
    work: &mut [u32],
) -> [u32; 512]
    requires { Query q × Views catalogue.now k × EdgesCounted catalogue.now k counts × (length s.now ≤ 65536) × (length catalogue.now ≤ 65536) × Holds s.now n m work.old × ((t : Query q) → decode record' s.now ≡ ok (graph_fields t.content)) }
    ensures { (t : Query q) (v : Views catalogue.now k) → result ≡ mapping (pattern_of t.content) (view_patterns (offers v.content one_way)) }
{
    let places = places_of(q, m, work);
    let mut mapping = no_mapping();
    let mut leave = query::no_words::<16>();
    let mut arrive = query::no_words::<16>();
    let mut held = query::no_words::<16>();
    let mut byte: usize = 1;
    let mut a: usize = 0;
    // Not a range: a turn goes on by as many views as its batch takes.
    while a < k {
        let f = batches::fill(catalogue, one_way, k, counts, a, byte);
        matched::match_batch(
            s,
            n,
            m,
            f.batch,
            None,
            work,
            &mut leave,
            &mut arrive,
            &mut held,
        );
        let named = matches::named(work, m);
        note_batch(
            &mut mapping,
            a,
            f.next,
            counts,
            &places[..q.edges],
            named,
            work,
        );
        byte = f.byte;
        a = f.next;
    }
    mapping
}

// The table of the query and the k views of a catalogue, with so many edges each.
pub fn map_views(
    q: Pattern,
    catalogue: &[u8],
    one_way: u32,
    k: usize,
    counts: [u32; 16],
    work: &mut [u32],
) -> [u32; 512]
    requires { Query q × Views catalogue.now k × EdgesCounted catalogue.now k counts × (length catalogue.now ≤ 65536) × (length work.old ≡ 16384) }
    ensures { (t : Query q) (v : Views catalogue.now k) → result ≡ mapping (pattern_of t.content) (view_patterns (offers v.content one_way)) }
{
    let mut bytes = [0u8; 176];
    let size = query::write_graph(q, 32, &mut bytes, work);
    let g = graph::load_record(&bytes[0..size], work);
    match g {
        Ok((n, m)) => {
            note_views(
                q,
                &bytes[0..size],
                n,
                m,
                catalogue,
                one_way,
                k,
                counts,
                work,
            )
        }
        Err(_) => no_mapping(),
    }
}
