// A batch: several patterns side by side, to be matched in one run.
ghost use Rattle.std.specs.Prelude.{◌≡◌, ℕ, ◌+◌, ◌<◌, ◌≤◌, length, get_or, replicate};
ghost use Rattle.packed.specs.declared.by_value.Pattern.{Pattern as Given};
ghost use Rattle.engine.specs.Simulation.{Rule};
ghost use Rattle.engine.specs.Loaded.{Fair};
ghost use Rattle.engine.specs.Matched.{rule_of};
ghost use Rattle.engine.specs.Batches.{FairBatch, PartOf, PutFrom};

use crate::link_tables;
use packed::by_value::Pattern;

// The label of each node, the ends and the kind of each edge, and the edges that are asked as they arrive. What lies beyond the nodes and edges is zero.
#[derive(Clone, Copy)]
pub struct Batch {
    pub nodes: usize,
    pub edges: usize,
    pub labels: [u32; 64],
    pub from: [u32; 32],
    pub to: [u32; 32],
    pub kind: [u32; 32],
    pub back: u32,
}

// The batch of no pattern.
pub fn none() -> Batch
    ensures { FairBatch result × (result.nodes ≡ 0) × (result.edges ≡ 0) }
{
    Batch {
        nodes: 0,
        edges: 0,
        labels: [0; 64],
        from: [0; 32],
        to: [0; 32],
        kind: [0; 32],
        back: 0,
    }
}

// The numbers with the first m of others, each with a added, put from o on.
fn put<const N: usize, const M: usize>(
    numbers: [u32; N],
    o: usize,
    others: &[u32; M],
    m: usize,
    a: usize,
) -> [u32; N]
    requires { (m ≤ M) × (o + m ≤ N) × (a ≤ 64) × ((e : ℕ) → e < m → get_or others.now e 0 < 32) }
    ensures { PutFrom o m a others.now numbers.entry result }
{
    let first = a as u32;
    let mut t = numbers;
    for e in 0..m {
        let at = o + e;
        t[at] = first + others[e];
    }
    t
}

// The batch with the pattern p behind it, matched both ways or not.
pub fn add(b: Batch, p: Pattern, both: bool) -> Batch
    requires { FairBatch b × Fair p × (b.edges + p.edges ≤ 32) × (b.nodes + p.nodes ≤ 64) }
    ensures { FairBatch result × (result.nodes ≡ b.nodes + p.nodes) × (result.edges ≡ b.edges + p.edges) × PartOf result (rule_of both) p b.nodes b.edges × ((q : Rule) (x : Given) (a o : ℕ) → PartOf b q x a o → PartOf result q x a o) }
{
    let a = b.nodes;
    let o = b.edges;
    let n = p.nodes;
    let m = p.edges;
    let labels = p.labels;
    let from = p.from;
    let to = p.to;
    let kind = p.kind;
    let new_labels = put(b.labels, a, &labels, n, 0);
    let new_from = put(b.from, o, &from, m, a);
    let new_to = put(b.to, o, &to, m, a);
    let new_kind = put(b.kind, o, &kind, m, 0);
    let asked = link_tables::asked(both, o, m);
    Batch {
        nodes: a + n,
        edges: o + m,
        labels: new_labels,
        from: new_from,
        to: new_to,
        kind: new_kind,
        back: b.back | asked,
    }
}
