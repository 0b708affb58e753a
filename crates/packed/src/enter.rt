// An edge enters a record whose edges stand in the workspace, in order.
ghost use Rattle.std.specs.Prelude.{◌≡◌, ◌≤◌, ◌<◌, length, take, ltb};
ghost use Rattle.packed.specs.Bits.{one};
ghost use Rattle.packed.specs.Formats.{rank};
ghost use Rattle.packed.specs.Contents.{edge_word, word_rank};
ghost use Rattle.packed.specs.LoadedGraph.{Holds};
ghost use Rattle.packed.specs.Entered.{record_length};
ghost use Rattle.packed.specs.Entering.{word_ranks, Placed, PutAt, EntersAt, EnteredIn};

use crate::{limits, record};

// The rank of the edge in this word.
fn rank_of(word: u32) -> u32
    ensures { result ≡ word_rank word }
{
    word % limits::PAIRS * limits::KINDS + word / limits::PAIRS
}

fn is_lower(a: u32, b: u32) -> usize
    ensures { result ≡ one (ltb a b) }
{
    if a < b {
        return 1;
    }
    0
}

// Behind how many of the first m words the edge of this rank enters; none where one has that rank. Each is looked at, since that is said of words in any
// order.
fn find_rank(work: &[u32], m: usize, rank: u32) -> Option<usize>
    requires { m ≤ length work.now }
    ensures { Placed rank (word_ranks (take m work.now)) result }
{
    let mut n: usize = 0;
    for i in 0..m {
        let other = rank_of(work[i]);
        if other == rank {
            return None;
        }
        n += is_lower(other, rank);
    }
    Some(n)
}

// Behind how many of the first m words an edge enters; none where it stands there already.
pub fn find_place(work: &[u32], m: usize, from: u32, to: u32, kind: u32) -> Option<usize>
    requires { (m ≤ length work.now) × (from < 4096) × (to < 4096) × (kind < 8) }
    ensures { Placed (rank from to kind) (word_ranks (take m work.now)) result }
{
    find_rank(work, m, (from * limits::NODES + to) * limits::KINDS + kind)
}

// Puts the word of an edge at a place among the first m words: those from there on move up by one.
pub fn put_edge(work: &mut [u32], m: usize, at: usize, from: u32, to: u32, kind: u32)
    requires { (at ≤ m) × (m < length work.old) × (from < 4096) × (to < 4096) × (kind < 8) }
    ensures { PutAt at m (edge_word from to kind) work.old work.new }
{
    work.copy_within(at..m, at + 1);
    work[at] = kind * limits::PAIRS + (from * limits::NODES + to);
}

// How many bytes a record with so many nodes and edges takes.
pub fn record_size(nodes: usize, edges: usize) -> usize
    requires { (nodes ≤ 4096) × (edges ≤ 8192) }
    ensures { result ≡ record_length nodes edges }
{
    (limits::LABELS + limits::LABELS_BITS * nodes + limits::EDGE_BITS * edges + 7) / 8
}

// Writes the record that an edge enters at a place among its edges: its content goes to a table, the edge to its place in the workspace, and from there
// with all others to the table.
pub fn write_entered(
    s: &[u8],
    nodes: usize,
    edges: usize,
    at: usize,
    from: u32,
    to: u32,
    kind: u32,
    out: &mut [u8],
    work: &mut [u32],
)
    requires { Holds s.now nodes edges work.old × (length s.now ≤ 65536) × EntersAt s.now from to kind at }
    ensures { EnteredIn s.now nodes edges from to kind out.old out.new work.new }
{
    let mut fields = [0u32; limits::RECORD_FIELDS];
    record::store_record(s, nodes, edges, work, &mut fields);
    put_edge(work, edges, at, from, to, kind);
    let more = edges + 1;
    fields[1] = more as u32;
    record::store_edges(work, more, &mut fields, 2 + nodes);
    let _ = record::judge_record_fields(&fields[0..2 + nodes + 3 * more], out);
}
