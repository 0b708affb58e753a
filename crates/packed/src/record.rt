// Records. The words of the edges go to the workspace as they are judged, where they stand in order.
ghost use Rattle.std.specs.Prelude.{◌≡◌, List, [], ℕ, ◌+◌, ◌-◌, ◌*◌, ◌/◌, ◌%◌, ◌^◌, ◌<◌, ◌≤◌, min, length, take, replicate};
ghost use Rattle.std.proofs.lemmas.List.Edits.{sets};
ghost use Rattle.packed.specs.Format.{ok, times, decode, encode};
ghost use Rattle.packed.specs.Formats.{labels, rising, record'};
ghost use Rattle.packed.specs.Contents.{from_words, from_ranks};
ghost use Rattle.packed.specs.Reading.{Value, Judges};
ghost use Rattle.packed.specs.Writing.{WritesPart, JudgesFields};
ghost use Rattle.packed.specs.Accepting.{reply_of};
ghost use Rattle.packed.specs.LoadedGraph.{ReadsCounts, Cut, EdgesJudged, JudgesMore, LoadsWords, WordsLoaded, LabelsStored, Holds};

use crate::reply::{File, Refusal, Wrong};
use crate::{bits, field, limits};

// Labels take whole bytes, so that those of each node stand from the same bit of a byte on: the byte and the bit of the first, and the bytes of each.
const LABELS_BYTE: usize = limits::LABELS / 8;

const LABELS_BIT: usize = limits::LABELS % 8;

const LABELS_BYTES: usize = limits::LABELS_BITS / 8;

// The numbers of nodes and edges.
fn read_counts(s: &[u8]) -> Result<(u32, u32), Refusal>
    requires { length s.now ≤ 65536 }
    ensures { ReadsCounts s.now result }
{
    let mut none = [0u32; 1];
    let nodes = field::read_field(
        s,
        0,
        limits::NODES_WIDTH,
        0,
        limits::NODES_BOUND,
        Wrong::Range,
        File::Record,
        &mut none[0..0],
        0,
    )?;
    let v = field::read_field(
        s,
        limits::NODES_BITS,
        limits::EDGES_WIDTH,
        0,
        limits::EDGES_BOUND,
        Wrong::Range,
        File::Record,
        &mut none[0..0],
        1,
    )?;
    Ok((nodes, v))
}

// Why an edge is refused whose bits are not all there.
fn cut_edge(s: &[u8], at: usize, nodes: u32) -> Refusal
    requires { (length s.now ≤ 65536) × (at ≤ 8 * length s.now) × (8 * length s.now < at + 27) }
    ensures { Cut s.now at nodes result }
{
    let mut none = [0u32; 1];
    let f = field::read_edge(
        s,
        at,
        limits::NODE_WIDTH,
        nodes,
        File::Record,
        &mut none[0..0],
        0,
    );
    match f {
        Ok((_, _, _)) => Refusal::Truncated(File::Record),
        Err(x) => x,
    }
}

// The word of the edge with this rank: its code, and its kind above it.
fn word_of(rank: u32) -> u32
    requires { rank < 2 ^ 27 }
    ensures { result ≡ rank % 8 * 2 ^ 24 + rank / 8 }
{
    rank % limits::KINDS * limits::PAIRS + rank / limits::KINDS
}

// The edge j of the eight that begin in the byte, whose word goes to the place k + j: its rank and one more, which is the least rank of the next, if it
// isn't refused.
fn load_one(
    s: &[u8],
    byte: usize,
    j: usize,
    nodes: u32,
    least: u32,
    work: &mut [u32],
    k: usize,
) -> Option<u32>
    requires { (length s.now ≤ 65536) × (j < 8) × (8 * byte + 3 + 27 * j + 27 ≤ 8 * length s.now) × (k + j < length work.old) }
    ensures { JudgesMore s.now (8 * byte + 3 + 27 * j) nodes 1 least work.old (k + j) result work.new }
{
    let rank = bits::get_bits(
        s,
        8 * byte + LABELS_BIT + limits::EDGE_BITS * j,
        limits::EDGE_WIDTH,
    );
    let code = rank / limits::KINDS;
    if (nodes <= code / limits::NODES) | (nodes <= code % limits::NODES) | (rank < least) {
        return None;
    }
    let at = k + j;
    work[at] = word_of(rank);
    Some(rank + 1)
}

// Eight edges take whole bytes, so that in every eight each stands from the same bit of a byte on: once the compiler has written the loop out, the shifts
// are constants. The least rank of the next edge, if none of them is refused.
fn load_eight(
    s: &[u8],
    byte: usize,
    nodes: u32,
    least: u32,
    work: &mut [u32],
    k: usize,
) -> Option<u32>
    requires { (length s.now ≤ 65536) × (8 * byte + 3 + 27 * 8 ≤ 8 * length s.now) × (k + 8 ≤ length work.old) }
    ensures { JudgesMore s.now (8 * byte + 3) nodes 8 least work.old k result work.new }
{
    let mut next = least;
    for j in 0..8 {
        next = load_one(s, byte, j, nodes, next, work, k)?;
    }
    Some(next)
}

// The edges behind the first ones, one by one.
fn load_rest(
    s: &[u8],
    start: usize,
    nodes: u32,
    number: usize,
    whole: usize,
    work: &mut [u32],
    first: usize,
    bound: u32,
) -> Result<(usize, usize), Refusal>
    requires { (length s.now ≤ 65536) × (start ≤ 8 * length s.now) × (number ≤ 8192) × (8192 ≤ length work.old) × (first ≤ whole)
        × (whole ≡ min number ((8 * length s.now - start) / 27)) }
    ensures { (w₀ : List ℕ) → EdgesJudged s.now start nodes number w₀ work.old bound first
        → LoadsWords s.now start nodes number w₀ result work.new }
{
    let mut at = start + limits::EDGE_BITS * first;
    let mut least = bound;
    for k in first..whole {
        let rank = bits::get_bits(s, at, limits::EDGE_WIDTH);
        let code = rank / limits::KINDS;
        if (nodes <= code / limits::NODES) | (nodes <= code % limits::NODES) {
            return Err(Refusal::NoSuchNode(File::Record));
        }
        if rank < least {
            return Err(Refusal::NotAscending(File::Record));
        }
        work[k] = word_of(rank);
        least = rank + 1;
        at += limits::EDGE_BITS;
    }
    if whole < number {
        return Err(cut_edge(s, at, nodes));
    }
    Ok((at, 3 * number))
}

// So many edges between so many nodes, the first at the bit offset start: those whose bits are all there are taken whole, by their ranks, and their
// words go to the front of the workspace, which stays as it was beyond them. They go by eight as long as all is well.
fn load_edges(
    s: &[u8],
    start: usize,
    nodes: u32,
    number: usize,
    work: &mut [u32],
) -> Result<(usize, usize), Refusal>
    requires { (length s.now ≤ 65536) × (start ≤ 8 * length s.now) × (start % 8 ≡ 3) × (number ≤ 8192) × (8192 ≤ length work.old) }
    ensures { LoadsWords s.now start nodes number work.old result work.new }
{
    let there = (8 * s.len() - start) / limits::EDGE_BITS;
    let whole = field::within(number, there);
    let mut byte = start / 8;
    let mut least: u32 = 0;
    for eight in 0..whole / 8 {
        let k = 8 * eight;
        let Some(next) = load_eight(s, byte, nodes, least, work, k) else {
            return load_rest(s, start, nodes, number, whole, work, k, least);
        };
        least = next;
        byte += limits::EDGE_BITS;
    }
    let loaded = 8 * (whole / 8);
    load_rest(s, start, nodes, number, whole, work, loaded, least)
}

// The labels and the edges, behind the counts, and the end of the record. Any 32 bits are right for the labels of a node, so that these only have
// to be there.
fn judge_parts(
    s: &[u8],
    nodes: u32,
    number: u32,
    work: &mut [u32],
) -> Result<(usize, usize), Refusal>
    requires { (length s.now ≤ 65536) × (8192 ≤ length work.old) × Value 13 0 4097 s.now 0 [] 0 nodes [] × Value 14 0 8193 s.now 13 [] 1 number [] }
    ensures { Judges (decode record' s.now) 3 result [] [] × WordsLoaded s.now work.old (reply_of result) work.new }
{
    let n = nodes as usize;
    if 8 * s.len() < limits::LABELS + limits::LABELS_BITS * n {
        return Err(Refusal::Truncated(File::Record));
    }
    let (at, i) = load_edges(
        s,
        limits::LABELS + limits::LABELS_BITS * n,
        nodes,
        number as usize,
        work,
    )?;
    field::close_file(s, at, 2 + n + i, File::Record)
}

// A whole record, without its content. On acceptance the words of the edges stand at the front of the workspace.
pub(crate) fn judge_record(s: &[u8], work: &mut [u32]) -> Result<(usize, usize), Refusal>
    requires { (length s.now ≤ 65536) × (8192 ≤ length work.old) }
    ensures { Judges (decode record' s.now) 3 result [] [] × WordsLoaded s.now work.old (reply_of result) work.new }
{
    let (nodes, number) = read_counts(s)?;
    judge_parts(s, nodes, number, work)
}

// The labels of so many nodes, from the third word on.
fn store_labels(s: &[u8], nodes: usize, out: &mut [u32])
    requires { (length s.now ≤ 65536) × (27 + 32 * nodes ≤ 8 * length s.now) × (2 + nodes ≤ length out.old) }
    ensures { LabelsStored s.now nodes out.old out.new }
{
    for v in 0..nodes {
        let byte = LABELS_BYTE + LABELS_BYTES * v;
        let at = 2 + v;
        out[at] = bits::get_bits(s, 8 * byte + LABELS_BIT, limits::LABELS_WIDTH);
    }
}

// The fields of the m edges whose words stand at the front of the workspace, from the word at on.
pub(crate) fn store_edges(work: &[u32], m: usize, out: &mut [u32], at: usize)
    requires { (m ≤ length work.now) × (at + 3 * m ≤ length out.old) }
    ensures { out.new ≡ sets out.old at (from_words (take m work.now)) }
{
    for k in 0..m {
        let word = work[k];
        let from = at + 3 * k;
        out[from] = word / limits::NODES % limits::NODES;
        out[from + 1] = word % limits::NODES;
        out[from + 2] = word / limits::PAIRS;
    }
}

// The same of the m edges whose ranks stand there.
pub fn store_ranked(work: &[u32], m: usize, out: &mut [u32], at: usize)
    requires { (m ≤ length work.now) × (at + 3 * m ≤ length out.old) }
    ensures { out.new ≡ sets out.old at (from_ranks (take m work.now)) }
{
    for e in 0..m {
        let rank = work[e];
        let code = rank / limits::KINDS;
        let from = at + 3 * e;
        let to = from + 1;
        let kind = from + 2;
        out[from] = code / limits::NODES;
        out[to] = code % limits::NODES;
        out[kind] = rank % limits::KINDS;
    }
}

// The content of an accepted record with so many nodes and edges, whose words stand in the workspace, goes to the front of out.
pub(crate) fn store_record(s: &[u8], nodes: usize, edges: usize, work: &[u32], out: &mut [u32])
    requires { Holds s.now nodes edges work.now × (length s.now ≤ 65536) × (2 + nodes + 3 * edges ≤ length out.old) }
    ensures { (ws : List ℕ) → decode record' s.now ≡ ok ws → out.new ≡ sets out.old 0 ws }
{
    out[0] = nodes as u32;
    out[1] = edges as u32;
    store_labels(s, nodes, out);
    store_edges(work, edges, out, 2 + nodes);
}

// The labels of so many nodes.
fn write_labels(
    words: &[u32],
    first: usize,
    n: u32,
    out: &mut [u8],
    start: usize,
) -> Result<(usize, usize), Refusal>
    requires { (first ≤ length words.now) × (start + 32 * n ≤ 2 ^ 20) }
    ensures { WritesPart (times n labels) words.now first out.old start (32 * n) 3 result out.new }
{
    let mut i = first;
    let mut at = start;
    for _ in 0..n {
        field::write_field(
            words,
            i,
            limits::LABELS_WIDTH,
            0,
            limits::LABELS_BOUND,
            Wrong::Range,
            File::Record,
            out,
            at,
        )?;
        i += 1;
        at += limits::LABELS_BITS;
    }
    Ok((at, i))
}

// So many edges between so many nodes, ascending.
fn write_edges(
    words: &[u32],
    first: usize,
    nodes: u32,
    number: u32,
    out: &mut [u8],
    start: usize,
) -> Result<(usize, usize), Refusal>
    requires { (first ≤ length words.now) × (number ≤ 8192) × (nodes ≤ 4096) × (start ≤ 2 ^ 40) }
    ensures { WritesPart (rising nodes number 0) words.now first out.old start (27 * number) 3 result out.new }
{
    let mut i = first;
    let mut at = start;
    let mut least: u32 = 0;
    for _ in 0..number {
        let (a, b, k) = field::write_edge(
            words,
            i,
            limits::NODE_WIDTH,
            nodes,
            File::Record,
            out,
            at,
        )?;
        let rank = (a * limits::NODES + b) * limits::KINDS + k;
        if rank < least {
            return Err(Refusal::NotAscending(File::Record));
        }
        least = rank + 1;
        i += 3;
        at += limits::EDGE_BITS;
    }
    Ok((at, i))
}

// The fields of a record.
fn write_fields(words: &[u32], out: &mut [u8]) -> Result<(usize, usize), Refusal>
    ensures { WritesPart record' words.now 0 out.old 0 352283 3 result out.new }
{
    let nodes = field::write_field(
        words,
        0,
        limits::NODES_WIDTH,
        0,
        limits::NODES_BOUND,
        Wrong::Range,
        File::Record,
        out,
        0,
    )?;
    let number = field::write_field(
        words,
        1,
        limits::EDGES_WIDTH,
        0,
        limits::EDGES_BOUND,
        Wrong::Range,
        File::Record,
        out,
        limits::NODES_BITS,
    )?;
    let (at, i) = write_labels(words, 2, nodes, out, limits::LABELS)?;
    write_edges(words, i, nodes, number, out, at)
}

// A whole record: its bytes go to the front of out as far as it goes.
pub fn judge_record_fields(words: &[u32], out: &mut [u8]) -> Result<(usize, usize), Refusal>
    ensures { JudgesFields (encode record' words.now) 3 result out.old out.new }
{
    let (at, i) = write_fields(words, out)?;
    if i < words.len() {
        return Err(Refusal::Trailing(File::Record));
    }
    let byte = field::write_padding(out, at);
    Ok((byte, i))
}
