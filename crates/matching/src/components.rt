// The components of a query: nodes that lead to each other. Sets of nodes are masks. The arrays have the lengths of a pattern's by value, with the numbers
// of nodes and links beside them: nothing is allocated.
ghost use Rattle.std.specs.Prelude.{◌≡◌, ℕ, ◌<◌, ◌≤◌, get_or};
ghost use Rattle.engine.specs.Masks.{Has, Mask, OneOf};
ghost use Rattle.engine.specs.Loaded.{Fair};
ghost use Rattle.matching.specs.Stepping.{Spread, ReachedFrom, AllReached, AllComponents, NextOf, LeavingLinks};

use crate::candidates;
use packed::by_value::Pattern;

// x, and what its nodes and those that are added lead to, the links taken once.
fn spread(from: &[u32; 32], to: &[u32; 32], m: usize, x: u32) -> u32
    requires { (m ≤ 32) × ((e : ℕ) → e < m → (get_or from.now e 0 < 32) × (get_or to.now e 0 < 32)) }
    ensures { Spread from.now to.now m x result }
{
    let mut r = x;
    for e in 0..m {
        r |= candidates::one_where(r, from[e], to[e]);
    }
    r
}

// The nodes that u leads to.
fn reach(q: Pattern, u: usize) -> u32
    requires { Fair q × (u < q.nodes) }
    ensures { ReachedFrom q u result }
{
    let from = q.from;
    let to = q.to;
    let mut x = candidates::one_where(1, 0, u as u32);
    loop {
        let y = spread(&from, &to, q.edges, x);
        if y == x {
            return x;
        }
        x = y;
    }
}

// The same for each node.
pub fn reaches(q: Pattern) -> [u32; 16]
    requires { Fair q }
    ensures { AllReached q result }
{
    let n = q.nodes;
    let mut t = [0u32; 16];
    for u in 0..n {
        t[u] = reach(q, u);
    }
    t
}

// The nodes that lead to u.
fn back(t: &[u32; 16], n: usize, u: usize) -> u32
    requires { (n ≤ 16) × (u < n) }
    ensures { Mask (λ k. OneOf n (λ v. (v ≡ k) × Has (get_or t.now v 0) u)) result }
{
    let mut r: u32 = 0;
    for v in 0..n {
        r |= candidates::one_where(t[v], u as u32, v as u32);
    }
    r
}

// For each node its component.
pub fn components(t: &[u32; 16], n: usize) -> [u32; 16]
    requires { n ≤ 16 }
    ensures { AllComponents t.now n result }
{
    let mut c = [0u32; 16];
    for u in 0..n {
        c[u] = t[u] & back(t, n, u);
    }
    c
}

// A component that can be settled next: one that is not settled and leads to settled ones alone; 0, if all are settled. The lowest node's is taken, and the contract
// holds for any.
pub fn next(t: &[u32; 16], components: &[u32; 16], n: usize, settled: u32) -> u32
    requires { n ≤ 16 }
    ensures { NextOf t.now components.now n settled result }
{
    for u in 0..n {
        let c = components[u];
        let here = t[u];
        let led = here & (settled | c);
        let bar = (c & settled) | (here ^ led);
        if bar == 0 {
            return c;
        }
    }
    0
}

// The links that leave the nodes x.
pub fn leaving(from: &[u32; 32], m: usize, x: u32) -> u32
    requires { (m ≤ 32) × ((e : ℕ) → e < m → get_or from.now e 0 < 32) }
    ensures { LeavingLinks from.now m x result }
{
    let mut r: u32 = 0;
    for e in 0..m {
        r |= candidates::one_where(x, from[e], e as u32);
    }
    r
}
