// Where the pairs that begin at a node stand, and what they offer.
ghost use Rattle.std.specs.Prelude.{◌≡◌, ℕ, ◌+◌, ◌-◌, ◌<◌, ◌≤◌, max, length, get_or};
ghost use Rattle.engine.specs.Sweeping.{Ends};
ghost use Rattle.engine.specs.Worklist.{missed_by};
ghost use Rattle.engine.specs.Places.{ByStart, Empty, Cleared, Marked, Carried, FirstsMade, Compared, IndexJudged};

use crate::sides::Side;
use packed::limits;
use packed::reply::{Refusal, Reply};

// Clears the entries up to n.
fn clear(n: usize, first: &mut [u16])
    requires { n < length first.old }
    ensures { Cleared n first.old first.new }
{
    for v in 0..n + 1 {
        first[v] = 0;
    }
}

// Each pair that begins below n leaves in the entry behind its node how many pairs stand up to it: what the last one of a node leaves stays.
fn mark(work: &[u32], d: usize, n: usize, first: &mut [u16])
    requires { (d ≤ 8192) × (length work.now ≡ 16384) × ByStart d work.now × (n < length first.old) × Empty n first.old }
    ensures { Marked d n work.now first.old first.new }
{
    for i in 0..d {
        let f = (work[i] / limits::NODES % limits::NODES) as usize;
        if n <= f {
            return;
        }
        let at = f + 1;
        first[at] = (i + 1) as u16;
    }
}

// Each entry up to n becomes the greatest up to it.
fn carry(n: usize, first: &mut [u16])
    requires { n < length first.old }
    ensures { Carried n first.old first.new }
{
    let mut most: u16 = 0;
    for v in 0..n + 1 {
        most = most.max(first[v]);
        first[v] = most;
    }
}

// first[v] is how many pairs begin below v, for each v up to n. How many begin at a node can't be foreseen, so no loop goes by that.
pub fn firsts(work: &[u32], d: usize, n: usize, first: &mut [u16])
    requires { (d ≤ 8192) × (length work.now ≡ 16384) × ByStart d work.now × (n < length first.old) }
    ensures { FirstsMade d n work.now first.old first.new }
{
    clear(n, first);
    mark(work, d, n, first);
    carry(n, first);
}

// The first entry up to n that two indexes have not alike, or n + 1.
fn differs(n: usize, own: &[u16], index: &[u16]) -> usize
    requires { (n < length own.now) × (n < length index.now) }
    ensures { Compared n own.now index.now result }
{
    for v in 0..n + 1 {
        if own[v] != index[v] {
            return v;
        }
    }
    n + 1
}

// How many entries an index has, if it is that of the pairs.
pub fn judge(work: &[u32], d: usize, n: usize, index: &[u16]) -> Reply
    requires { Ends n d work.now × ByStart d work.now × (n ≤ 4096) }
    ensures { IndexJudged d n work.now index.now result }
{
    let entries = n + 1;
    if index.len() != entries {
        return Err(Refusal::WrongIndex(index.len()));
    }
    let mut own: [u16; 4097] = [0; 4097];
    firsts(work, d, n, &mut own);
    let v = differs(n, &own, index);
    if v <= n {
        return Err(Refusal::WrongIndex(v));
    }
    Ok(entries)
}

// The links of want that none of the pairs offers whose numbers stand from a up to b: each offers those that it is held for and that are in the masks at its
// far end. The two are where the pairs of a node begin and end, and nothing else looks at the links of the node.
pub fn look<N: Side, F: Side>(
    work: &[u32],
    a: usize,
    b: usize,
    rev: &[u16],
    masks: &[u32],
    want: u32,
) -> u32
    requires { (a ≤ b) × (length work.now ≡ 16384) × ((k : ℕ) → a ≤ k → k < b → N.numbered rev.now k × (N.number rev.now k < 8192) × (F.end (get_or work.now (N.number rev.now k) 0) < length masks.now)) }
    ensures { result ≡ missed_by F.end (N.number rev.now) work.now masks.now want a (b - a) }
{
    let mut miss = want;
    for k in a..b {
        if miss == 0 {
            return 0;
        }
        let i = N::number(rev, k);
        let t = F::end(work[i]);
        let at = limits::HELD + i;
        let offer = work[at] & masks[t];
        miss ^= miss & offer;
    }
    miss
}
