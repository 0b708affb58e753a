// The greatest simulation, by the edges that leave a node and by those that arrive at it: for each of a pattern's nodes a row of flags, one for each of a
// record's nodes, set while the two are related.
ghost use Rattle.std.specs.Prelude.{◌<◌, ◌≤◌};

use crate::graph::{Edge, Graph};

pub type Row = [bool; 4096];

pub type Pairs = [Row; 16];

// An end of a pattern's edge may be no node of it, and has no partners then.
pub fn is_related(related: &Pairs, u: usize, v: usize) -> bool
    requires { v < 4096 }
{
    match related.get(u) {
        Some(row) => row[v],
        None => false,
    }
}

// Whether the labels have the label.
fn fits(labels: u32, label: u32) -> bool {
    labels >> label % 32 & 1 == 1
}

// A pattern's node with this label is related to each node of the record that has it.
fn start_node(label: u32, record: Graph, row: &mut Row) {
    for v in 0..record.nodes {
        row[v] = fits(record.label(v), label);
    }
}

fn start(pattern: Graph, record: Graph, related: &mut Pairs)
    requires { pattern.nodes ≤ 16 }
{
    for u in 0..pattern.nodes {
        start_node(pattern.label(u), record, &mut related[u]);
    }
}

// How edges are seen: as they leave a node, or as they arrive at one.
#[derive(Clone, Copy)]
enum Way {
    Leaving,
    Arriving,
}

impl Way {
    fn seen(self, edge: Edge) -> Edge {
        match self {
            Way::Leaving => edge,
            Way::Arriving => edge.turned(),
        }
    }
}

// Marks the nodes of the record from which an edge of this kind leads to a partner of the pattern's node u. The row serves all edges, so that a small record clears few flags.
fn mark_reached(way: Way, u: usize, kind: u32, record: Graph, related: &Pairs, reached: &mut Row) {
    reached[..record.nodes].fill(false);
    for i in 0..record.edges {
        let edge = way.seen(record.edge(i));
        if edge.kind == kind && is_related(related, u, edge.to) {
            reached[edge.from] = true;
        }
    }
}

// Drops the partners that aren't reached: whether there were some.
fn keep_reached(row: &mut [bool], reached: &[bool]) -> bool {
    let mut dropped = false;
    for (held, is_reached) in row.iter_mut().zip(reached) {
        if *held && !*is_reached {
            *held = false;
            dropped = true;
        }
    }
    dropped
}

// Drops the partners of the pattern's node that this edge leaves, or at which it arrives, from which none of its kind leads to a partner of the other.
fn support(way: Way, edge: Edge, record: Graph, related: &mut Pairs, reached: &mut Row) -> bool {
    let edge = way.seen(edge);
    let n = record.nodes;
    mark_reached(way, edge.to, edge.kind, record, related, reached);
    match related.get_mut(edge.from) {
        Some(row) => keep_reached(&mut row[..n], &reached[..n]),
        None => false,
    }
}

// One pass over the pattern's edges, as each leaves the one node and as it arrives at the other: whether a pair was dropped.
fn pass(pattern: Graph, record: Graph, related: &mut Pairs, reached: &mut Row) -> bool {
    let mut dropped = false;
    for i in 0..pattern.edges {
        let edge = pattern.edge(i);
        dropped |= support(Way::Leaving, edge, record, related, reached);
        dropped |= support(Way::Arriving, edge, record, related, reached);
    }
    dropped
}

// Passes until one drops nothing: each of the others drops one of 65,536 pairs at least.
fn passes(pattern: Graph, record: Graph, related: &mut Pairs) {
    let mut reached = [false; 4096];
    for _ in 0..65537 {
        if !pass(pattern, record, related, &mut reached) {
            break;
        }
    }
}

// The pairs come with no flag set, and are lent, since they would be copied if they were given.
pub fn simulate(pattern: Graph, record: Graph, related: &mut Pairs)
    requires { pattern.nodes ≤ 16 }
{
    start(pattern, record, related);
    passes(pattern, record, related);
}
