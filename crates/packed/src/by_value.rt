// A pattern's fields by value, and the labels of a record's nodes.
ghost use Rattle.std.specs.Prelude.{◌≡◌, ℕ, ◌+◌, ◌*◌, ◌≤◌, ◌<◌, length};
ghost use Rattle.packed.specs.Bits.{field};
ghost use Rattle.packed.specs.Contents.{nodes_of, edges_of};
ghost use Rattle.packed.specs.ByValue.{Spread, HoldsPattern, NoPattern};

use crate::{bits, limits};

// A pattern: the label of each node, and the ends and the kind of each edge. What lies beyond its nodes and edges is zero.
#[repr(C)]
#[derive(Clone, Copy)]
pub struct Pattern {
    pub labels: [u32; 16],
    pub from: [u32; 32],
    pub to: [u32; 32],
    pub kind: [u32; 32],
    pub nodes: usize,
    pub edges: usize,
}

pub fn no_pattern() -> Pattern
    ensures { NoPattern result }
{
    Pattern {
        labels: [0u32; 16],
        from: [0u32; 32],
        to: [0u32; 32],
        kind: [0u32; 32],
        nodes: 0,
        edges: 0,
    }
}

// The first n of the N words of a table: those from first on, each so many after the one before.
fn spread<const N: usize>(words: &[u32], first: usize, step: usize, n: usize) -> [u32; N]
    requires { (n ≤ N) × ((j : ℕ) → j < n → first + step * j < length words.now) }
    ensures { Spread words.now first step n N result }
{
    let mut l = [0u32; N];
    for j in 0..n {
        l[j] = words[first + step * j];
    }
    l
}

// The pattern whose content the words are.
pub fn pattern_of(words: &[u32]) -> Pattern
    requires { (nodes_of words.now ≤ 16) × (edges_of words.now ≤ 32) × (2 + (nodes_of words.now + 3 * edges_of words.now) ≤ length words.now) }
    ensures { HoldsPattern words.now result }
{
    let nodes = words[0] as usize;
    let edges = words[1] as usize;
    let labels = spread(words, 2, 1, nodes);
    let from = spread(words, 2 + nodes, 3, edges);
    let to = spread(words, 3 + nodes, 3, edges);
    let kind = spread(words, 4 + nodes, 3, edges);
    Pattern {
        labels,
        from,
        to,
        kind,
        nodes,
        edges,
    }
}

// The labels of the node v of a record.
pub fn labels_at(s: &[u8], v: usize) -> u32
    requires { (length s.now ≤ 65536) × (27 + 32 * v + 32 ≤ 8 * length s.now) }
    ensures { result ≡ field s.now (27 + 32 * v) 32 }
{
    bits::get_bits(
        s,
        limits::LABELS + limits::LABELS_BITS * v,
        limits::LABELS_WIDTH,
    )
}
