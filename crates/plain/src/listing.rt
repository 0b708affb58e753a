// The content of a sheet: 0 where there are no pairs, else 1 and for each edge of the pattern the number of its pairs and the pairs.
ghost use Rattle.std.specs.Prelude.{◌≡◌, ◌+◌, ◌*◌, ◌≤◌};

use crate::graph::{Edge, Graph};
use crate::simulation;
use crate::simulation::Pairs;

// Words that are written one after the other; those that find no room are counted all the same.
#[derive(Drop)]
struct Writer<'a> {
    out: &'a mut [u32],
    at: usize,
}

impl<'a> Writer<'a> {
    fn set(&mut self, at: usize, x: u32)
        ensures { self.new.at ≡ self.old.at }
    {
        if let Some(word) = self.out.get_mut(at) {
            *word = x;
        }
    }

    fn push(&mut self, x: u32)
        ensures { (self.old.at ≤ self.new.at) × (self.new.at ≤ self.old.at + 1) }
    {
        self.set(self.at, x);
        self.at = self.at.saturating_add(1);
    }
}

// Whether every node of the pattern has a partner in the record.
fn is_total(pattern: Graph, record: Graph, related: &Pairs) -> bool
    requires { pattern.nodes ≤ 16 }
{
    let n = record.nodes;
    related[..pattern.nodes]
        .iter()
        .all(|row| row[..n].contains(&true))
}

// Whether the record's edge is of this kind and its nodes are partners of those of the pattern's.
fn is_partner(edge: Edge, next: Edge, related: &Pairs) -> bool {
    edge.kind == next.kind
        && simulation::is_related(related, edge.from, next.from)
        && simulation::is_related(related, edge.to, next.to)
}

// The pairs of the pattern's edge, ascending as the record's edges do: how many there are.
fn list_pairs(edge: Edge, record: Graph, related: &Pairs, out: &mut Writer) -> u32
    ensures { (out.old.at ≤ out.new.at) × (out.new.at ≤ out.old.at + 2 * «record».entry.edges) }
{
    let mut count: u32 = 0;
    for i in 0..record.edges {
        let next = record.edge(i);
        if is_partner(edge, next, related) {
            out.push(next.from as u32);
            out.push(next.to as u32);
            count = count.saturating_add(1);
        }
    }
    count
}

// A list with its count before it.
fn list_edge(edge: Edge, record: Graph, related: &Pairs, out: &mut Writer)
    ensures { (out.old.at ≤ out.new.at) × (out.new.at ≤ out.old.at + 16385) }
{
    let start = out.at;
    out.push(0);
    let count = list_pairs(edge, record, related, out);
    out.set(start, count);
}

// There are no pairs where a node of the pattern has no partner. How many words there are.
pub fn list(pattern: Graph, record: Graph, related: &Pairs, out: &mut [u32]) -> usize
    requires { pattern.nodes ≤ 16 }
{
    let mut out = Writer { out, at: 0 };
    let total = is_total(pattern, record, related);
    out.push(u32::from(total));
    if total {
        for i in 0..pattern.edges {
            list_edge(pattern.edge(i), record, related, &mut out);
        }
    }
    out.at
}
