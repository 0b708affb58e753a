// The part of a query that some of its edges are: its content, and its rows in the table of the query. A mask says which edges are taken.
ghost use Rattle.std.specs.Prelude.{◌≡◌, Bool, List, [], ◌∷◌, ℕ, ◌+◌, ◌*◌, ◌≤◌, ◌<◌, length, take};
ghost use Rattle.std.proofs.lemmas.List.Edits.{sets};
ghost use Rattle.packed.specs.Format.{ok, encode};
ghost use Rattle.packed.specs.Formats.{pattern};
ghost use Rattle.packed.specs.Refusals.{both_told};
ghost use Rattle.packed.specs.Calls.{Fulfils};
ghost use Rattle.engine.specs.Simulation.{Edge, bit};
ghost use Rattle.engine.specs.Masks.{Mask};
ghost use Rattle.engine.specs.Loaded.{Fair, pattern_in};
ghost use Rattle.matching.specs.Part.{rank, at_places, part_of, pattern_fields};
ghost use Rattle.matching.specs.Offered.{brings};
ghost use Rattle.containment.specs.Choice.{Passing, matched_in};
ghost use Rattle.containment.specs.Quote.{used_by};
ghost use Rattle.containment.specs.Answer.{answer_for};
ghost use Rattle.containment.specs.Part.{part_bytes, part_quoted, fit_part, part_for};
ghost use Rattle.containment.specs.Steps.{quoted_as, HoldsFields};
ghost use Rattle.containment.specs.Terms.{quoted_for};
ghost use Rattle.answering.specs.Parting.{EndTaken, taken_fields, Adds, Takes, Picked, in_rows, Partable};

use crate::answering;
use crate::answering::BookPairs;
use containment::query::Fields;
use containment::terms::Terms;
use containment::{choose, judging, mapping, query};
use matching::sets;
use packed::by_value::Pattern;
use packed::reply::{Both, Refusal};
use packed::{by_value, pattern};

// Those of the first m edges that one of the first k views in the set matches.
pub fn matched_edges(table: &[u32; 512], set: u32, k: usize, m: usize) -> u32
    requires { (m ≤ 32) × (k ≤ 16) }
    ensures { Mask (Passing (λ e. matched_in table.now set e k) m) result }
{
    let masks = choose::masks_of(table, k, m);
    choose::union(&masks, set, k)
}

// The nodes at the edges that are taken.
fn nodes_at(q: Pattern, taken: u32) -> u32
    requires { Fair q }
    ensures { Mask (EndTaken q taken q.edges) result }
{
    let mut nodes: u32 = 0;
    for e in 0..q.edges {
        if sets::is_in(taken, e) {
            nodes = nodes | (sets::only(q.from[e] as usize) | sets::only(q.to[e] as usize));
        }
    }
    nodes
}

// How many numbers below n are in the set: the number of n among them.
pub fn number_in(set: u32, n: usize) -> u32
    requires { n ≤ 32 }
    ensures { (result ≡ rank (bit set) n) × (result ≤ n) }
{
    (set & choose::first_edges(n)).count_ones()
}

// The content with one word more.
fn with_word(f: Fields, x: u32) -> Fields
    requires { f.number < 114 }
    ensures { (result.number ≡ f.number + 1) × Adds (x ∷ []) f result }
{
    let mut words = f.words;
    let n = f.number;
    words[n] = x;
    Fields {
        words,
        number: n + 1,
    }
}

// The content of nothing but two counts.
fn counts(nodes: u32, edges: u32) -> Fields
    ensures { (result.number ≡ 2) × HoldsFields (nodes ∷ edges ∷ []) result }
{
    Fields {
        words: query::with_two(query::no_words(), 0, nodes, edges),
        number: 2,
    }
}

// The content with the labels of those of the query's nodes that are in the set.
fn with_labels(f: Fields, q: Pattern, nodes: u32) -> Fields
    requires { Fair q × (f.number ≤ 2) }
    ensures { (result.number ≤ f.number + q.nodes) × Adds (at_places (bit nodes) (take q.nodes q.labels)) f result }
{
    let mut g = f;
    for u in 0..q.nodes {
        if sets::is_in(nodes, u) {
            g = with_word(g, q.labels[u]);
        }
    }
    g
}

// The content with the fields of an edge more.
fn with_edge(f: Fields, from: u32, to: u32, kind: u32) -> Fields
    requires { f.number ≤ 111 }
    ensures { (result.number ≡ f.number + 3) × Adds (from ∷ to ∷ kind ∷ []) f result }
{
    with_word(with_word(with_word(f, from), to), kind)
}

// The content with the fields of the edges that are taken, between nodes that are numbered among those in the set.
fn with_edges(f: Fields, q: Pattern, taken: u32, nodes: u32) -> Fields
    requires { Fair q × (f.number ≤ 18) }
    ensures { Adds (taken_fields q taken nodes q.edges) f result }
{
    let mut g = f;
    for e in 0..q.edges {
        if sets::is_in(taken, e) {
            let from = number_in(nodes, q.from[e] as usize);
            let to = number_in(nodes, q.to[e] as usize);
            g = with_edge(g, from, to, q.kind[e]);
        }
    }
    g
}

// The content of the part.
pub fn part_fields(q: Pattern, taken: u32) -> Fields
    requires { Fair q }
    ensures { (takes : Edge → Bool) → Takes q taken takes → HoldsFields (pattern_fields (part_of takes (pattern_in q))) result }
{
    let nodes = nodes_at(q, taken);
    let f = counts(number_in(nodes, q.nodes), number_in(taken, q.edges));
    let g = with_labels(f, q, nodes);
    with_edges(g, q, taken, nodes)
}

// The rows of the part, which has some of the first m edges of the query, from the query's table. They go word by word, as `Picked` counts them: whole rows
// copied would want the place j counted by hand all the same.
pub fn part_rows(table: &[u32; 512], taken: u32, m: usize) -> [u32; 512]
    requires { m ≤ 32 }
    ensures { Picked (in_rows taken) table.now (16 * m) result }
{
    let mut rows = mapping::no_mapping();
    let mut j: usize = 0;
    for k in 0..16 * m {
        if sets::is_in(taken, k / 16) {
            rows[j] = table[k];
            j += 1;
        }
    }
    rows
}

// The content of a pattern goes to the front of out in bytes, as far as it goes; the result is how many bytes it takes.
fn write_part(words: &[u32], out: &mut [u8]) -> usize
    ensures { (s : List ℕ) → encode pattern words.now ≡ ok s → (result ≡ length s) × (out.new ≡ sets out.old 0 s) }
{
    let r = pattern::judge_pattern_fields(words, out);
    match r {
        Ok((size, _)) => size,
        Err(_) => 0,
    }
}

// The part with the edges that are taken, all that the views match, and its answer from the pairs of a book that stand in the workspace.
// The part is written last, so that nothing is written unless both fit.
fn part_pairs(
    q: Pattern,
    table: &[u32; 512],
    usable: u32,
    taken: u32,
    b: BookPairs<'_>,
    part: &mut [u8],
    answer: &mut [u8],
    work: &mut [u32],
) -> Both
    requires { Partable q b.counts b.views table.now usable taken b.book.now b.number work.old }
    ensures { (x : Partable q b.entry.counts b.entry.views table.now usable taken b.entry.book.now b.entry.number work.old) → Fulfils [] (fit_part (length part.old) (part_bytes (quoted_as x.query x.views usable)) (answer_for used_by b.entry.book.now (length answer.old) (part_quoted (quoted_as x.query x.views usable)))) (both_told result) (part.old ∷ answer.old ∷ []) (part.new ∷ answer.new ∷ []) }
{
    let f = part_fields(q, taken);
    let words = f.words;
    let n = f.number;
    let size = write_part(&words[0..n], &mut part[0..0]);
    if part.len() < size {
        return Err(Refusal::NoRoom(size));
    }
    let p = by_value::pattern_of(&words[0..n]);
    let columns = choose::columns_in(table, usable);
    let rows = part_rows(&columns, taken, q.edges);
    let set = choose::choose(&rows, usable, b.views, p.edges);
    let length = answering::answer_pairs(p, &rows, set, b, answer, work)?;
    write_part(&words[0..n], part);
    Ok((size, length))
}

// For a day with its terms by the views in force, for none by all.
pub fn part(
    question: &[u8],
    catalogue: &[u8],
    one_way: u32,
    day: Option<(Terms, u16)>,
    book: &[u8],
    part: &mut [u8],
    answer: &mut [u8],
    work: &mut [u32],
) -> Both
    requires { length work.old ≡ 16384 }
    ensures { Fulfils [] (quoted_for day question.now (brings catalogue.now one_way) (part_for book.now (length part.old) (length answer.old))) (both_told result) (part.old ∷ answer.old ∷ []) (part.new ∷ answer.new ∷ []) }
{
    let f = judging::judge_for(question, catalogue, one_way, day, work)?;
    let table = f.table;
    let q = f.query;
    let k = f.views;
    let counts = f.edges;
    let d = answering::load_book(book, counts, k, work)?;
    let usable = f.usable;
    let taken = matched_edges(&table, usable, k, q.edges);
    if taken == 0 {
        return Err(Refusal::NotContained(0));
    }
    let b = BookPairs {
        book,
        counts,
        views: k,
        number: d,
    };
    part_pairs(q, &table, usable, taken, b, part, answer, work)
}
