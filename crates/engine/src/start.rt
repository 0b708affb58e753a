// The start of a search: every pair is held for all links of its kind, and each node has the links whose end has one of its labels.
ghost use Rattle.std.specs.Prelude.{◌≡◌, ℕ, ◌+◌, ◌*◌, ◌^◌, ◌<◌, ◌≤◌, length, get_or, replicate};
ghost use Rattle.engine.specs.Masks.{Has, Mask, OneOf};
ghost use Rattle.engine.specs.Sweeping.{kind_of};
ghost use Rattle.engine.specs.Starting.{NodeRoom, ByKind, KindsHeld, ByLabel, OfLabels, LinksSpread};
ghost use Rattle.engine.specs.Batches.{FairBatch};

use crate::batch::Batch;
use packed::{by_value, limits};

// The link, or the label, k alone.
pub fn one(k: usize) -> u32
    requires { k < 32 }
    ensures { result ≡ 2 ^ k }
{
    1 << k
}

// For each kind the links below m that have it.
fn by_kind(kinds: &[u32; 32], m: usize) -> [u32; 8]
    requires { (m ≤ 32) × ((e : ℕ) → e < m → get_or kinds.now e 0 < 8) }
    ensures { ByKind kinds.now m result }
{
    let mut t = [0u32; 8];
    for e in 0..m {
        let k = kinds[e] as usize;
        t[k] |= one(e);
    }
    t
}

// Each of d pairs is held for the links below m that have its kind.
pub fn hold(work: &mut [u32], d: usize, kinds: &[u32; 32], m: usize)
    requires { (d ≤ 8192) × (length work.old ≡ 16384) × (m ≤ 32) × ((e : ℕ) → e < m → get_or kinds.now e 0 < 8) × ((i : ℕ) → i < d → kind_of work.old i < 8) }
    ensures { KindsHeld kinds.now m d work.old work.new }
{
    let t = by_kind(kinds, m);
    for i in 0..d {
        let k = (work[i] / limits::PAIRS) as usize;
        let at = limits::HELD + i;
        work[at] = t[k];
    }
}

// For each label the links below m at whose end it stands.
fn by_label(labels: &[u32; 64], ends: &[u32; 32], m: usize) -> [u32; 32]
    requires { (m ≤ 32) × ((e : ℕ) → e < m → get_or ends.now e 0 < 64) × ((e : ℕ) → e < m → get_or labels.now (get_or ends.now e 0) 0 < 32) }
    ensures { ByLabel labels.now ends.now m result }
{
    let mut t = [0u32; 32];
    for e in 0..m {
        let u = ends[e] as usize;
        let l = labels[u] as usize;
        t[l] |= one(e);
    }
    t
}

// The labels of the batch's nodes.
fn labels_used(labels: &[u32; 64], n: usize) -> u32
    requires { (n ≤ 64) × ((u : ℕ) → u < n → get_or labels.now u 0 < 32) }
    ensures { Mask (λ l. OneOf n (λ u. get_or labels.now u 0 ≡ l)) result }
{
    let mut r: u32 = 0;
    for u in 0..n {
        r |= one(labels[u] as usize);
    }
    r
}

// The lowest member of x.
pub fn lowest(x: u32) -> usize
    requires { x ≡ 0 → ⊥ }
    ensures { (result < 32) × Has x result × ((k : ℕ) → k < result → Has x k → ⊥) }
{
    u32::trailing_zeros(x) as usize
}

// The links that may leave a node, and those that may arrive at it.
#[derive(Clone, Copy)]
pub struct Links {
    pub leave: u32,
    pub arrive: u32,
}

// What the tables have for the labels x.
fn links_of(leaving: &[u32; 32], arriving: &[u32; 32], x: u32) -> Links
    ensures { OfLabels leaving.now x result.leave × OfLabels arriving.now x result.arrive }
{
    let mut leave: u32 = 0;
    let mut arrive: u32 = 0;
    let mut left = x;
    while left != 0 {
        let l = lowest(left);
        leave = leave | leaving[l];
        arrive = arrive | arriving[l];
        let taken = one(l);
        left = left ^ (left & taken);
    }
    Links { leave, arrive }
}

// Each of n nodes of a record gets the links that its labels allow; nothing is held there yet.
pub fn spread(s: &[u8], n: usize, b: Batch, leave: &mut [u32], arrive: &mut [u32], held: &mut [u32])
    requires { FairBatch b × (length s.now ≤ 65536) × (27 + 32 * n ≤ 8 * length s.now) × NodeRoom n leave.old arrive.old held.old }
    ensures { LinksSpread b s.now n leave.old arrive.old held.old leave.new arrive.new held.new }
{
    let labels = b.labels;
    let from = b.from;
    let to = b.to;
    let leaving = by_label(&labels, &from, b.edges);
    let arriving = by_label(&labels, &to, b.edges);
    let used = labels_used(&labels, b.nodes);
    for v in 0..n {
        let x = by_value::labels_at(s, v);
        let links = links_of(&leaving, &arriving, x & used);
        leave[v] = links.leave;
        arrive[v] = links.arrive;
        held[v] = 0;
    }
}
