// A query read as a record, in bytes.
ghost use Rattle.std.specs.Prelude.{◌≡◌, [], ◌∷◌, ◌+◌, ◌^◌, ◌≤◌, ◌<◌, length, replicate, take};
ghost use Rattle.packed.specs.Contents.{ranks};
ghost use Rattle.engine.specs.Loaded.{Fair};
ghost use Rattle.containment.specs.Steps.{Query, powers, edges_but, RanksFront, label_fields, fields_but, Front, Extends, HoldsFields, Graphed};

use matching::sets;
use packed::by_value::Pattern;
use packed::{limits, record, sort};

// The content of a record or of a pattern, at the front of a table: no heap is used, so an array with its number goes by value.
#[derive(Clone, Copy)]
pub struct Fields {
    pub words: [u32; 114],
    pub number: usize,
}

// So many words, all zero.
pub fn no_words<const N: usize>() -> [u32; N]
    ensures { result ≡ replicate N 0 }
{
    [0u32; N]
}

// The words with two more, after the first n.
pub fn with_two(before: [u32; 114], n: usize, a: u32, b: u32) -> [u32; 114]
    requires { n ≤ 112 }
    ensures { Extends n 2 (a ∷ b ∷ []) before result }
{
    let mut words = before;
    words[n] = a;
    words[n + 1] = b;
    words
}

// The words with the labels, after the first two: each node has its own label alone.
fn with_labels(before: [u32; 114], p: Pattern) -> [u32; 114]
    requires { Fair p }
    ensures { Extends 2 p.nodes (powers (take p.nodes p.labels)) before result }
{
    let mut words = before;
    for u in 0..p.nodes {
        words[2 + u] = sets::only(p.labels[u] as usize);
    }
    words
}

// The ranks of the edges, without the edge skip, if there is one, go to the front of the workspace; the result is how many there are.
fn load_ranks(p: Pattern, skip: usize, work: &mut [u32]) -> usize
    requires { Fair p × (length work.old ≡ 16384) }
    ensures { RanksFront (ranks (edges_but p.from p.to p.kind skip p.edges)) result work.new }
{
    let mut k: usize = 0;
    for e in 0..p.edges {
        if e != skip {
            work[k] = (p.from[e] * limits::NODES + p.to[e]) * limits::KINDS + p.kind[e];
            k += 1;
        }
    }
    k
}

// The two counts and the labels.
fn label_fields(p: Pattern, edges: usize) -> [u32; 114]
    requires { Fair p × (edges ≤ 32) }
    ensures { Front result (2 + p.nodes) (label_fields p edges) }
{
    let counts = with_two(no_words(), 0, p.nodes as u32, edges as u32);
    with_labels(counts, p)
}

// The content of the query read as a record, its edges ascending, without the edge skip, if it has one.
fn graph_fields(p: Pattern, skip: usize, work: &mut [u32]) -> Fields
    requires { Query p × (length work.old ≡ 16384) }
    ensures { HoldsFields (fields_but p skip) result }
{
    let k = load_ranks(p, skip, work);
    sort::sort(work, k);
    let mut words = label_fields(p, k);
    let at = 2 + p.nodes;
    record::store_ranked(work, k, &mut words, at);
    Fields {
        words,
        number: at + 3 * k,
    }
}

// The query read as a record, without the edge skip, if it has one, goes to the front of out, as far as it goes; the result is how many
// bytes it takes.
pub fn write_graph(p: Pattern, skip: usize, out: &mut [u8], work: &mut [u32]) -> usize
    requires { Query p × (length work.old ≡ 16384) }
    ensures { (t : Query p) → Graphed t.content skip result out.old out.new }
{
    let f = graph_fields(p, skip, work);
    let r = record::judge_record_fields(&f.words[0..f.number], out);
    match r {
        Ok((size, _)) => size,
        Err(_) => 0,
    }
}
