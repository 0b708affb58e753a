// The tables by groups of four links: word 16 g + s has the links that meet those of the group g that the four bits s name.
ghost use Rattle.std.specs.Prelude.{◌≡◌, ℕ, ◌+◌, ◌*◌, ◌/◌, ◌%◌, ◌<◌, ◌≤◌, get_or, replicate};
ghost use Rattle.engine.specs.Masks.{Has, Mask};
ghost use Rattle.engine.specs.Sweeping.{Tabled};
ghost use Rattle.engine.specs.Simulation.{both_ways};
ghost use Rattle.engine.specs.Matched.{rule_of};
ghost use Rattle.engine.specs.Rows.{RowOf, ByItem, RowsOf, WordOf};

use crate::start;

// Bit k, where x is y.
fn one(x: u32, y: u32, k: u32) -> u32
    requires { k < 32 }
    ensures { Mask (λ j. (k ≡ j) × (x ≡ y)) result }
{
    if x == y {
        return 1 << k;
    }
    0
}

// The links below m that have x in b.
fn row(b: &[u32; 32], m: usize, x: u32) -> u32
    requires { m ≤ 32 }
    ensures { RowOf b.now m x result }
{
    let mut r: u32 = 0;
    for k in 0..m {
        r |= one(x, b[k], k as u32);
    }
    r
}

// For each item below 64 the links below m that have it in b.
fn by_item(b: &[u32; 32], m: usize) -> [u32; 64]
    requires { m ≤ 32 }
    ensures { ByItem b.now m result }
{
    let mut t = [0u32; 64];
    for k in 0..m {
        if b[k] < 64 {
            let x = b[k] as usize;
            t[x] |= start::one(k);
        }
    }
    t
}

// The links below m that have x in b: looked up where x is below 64, as every item is; else found one by one.
fn look(items: &[u32; 64], b: &[u32; 32], m: usize, x: u32) -> u32
    requires { (m ≤ 32) × ByItem b.now m items.now }
    ensures { RowOf b.now m x result }
{
    if x < 64 {
        return items[x as usize];
    }
    row(b, m, x)
}

// For each link the links that have in b what it has in a.
fn rows(a: &[u32; 32], b: &[u32; 32], m: usize) -> [u32; 32]
    requires { m ≤ 32 }
    ensures { RowsOf a.now b.now m result }
{
    let items = by_item(b, m);
    let mut t = [0u32; 32];
    for e in 0..m {
        t[e] = look(&items, b, m, a[e]);
    }
    t
}

// The word i of the table after those before it: one of them, and the row of the lowest link that i names and that one doesn't.
fn word(each: &[u32; 32], t: &[u32; 128], i: usize) -> u32
    requires { (i < 128) × ((j : ℕ) → j < i → WordOf each.now j (get_or t.now j 0)) }
    ensures { WordOf each.now i result }
{
    let s = (i % 16) as u32;
    if s == 0 {
        return 0;
    }
    let j = start::lowest(s);
    let named = start::one(j);
    let before = i / 16 * 16 + (s ^ (s & named)) as usize;
    let e = i / 16 * 4 + j;
    t[before] | each[e]
}

// The table of the links that have in b what one of a set has in a; words for groups without links stay zero.
pub fn table(a: &[u32; 32], b: &[u32; 32], m: usize) -> [u32; 128]
    requires { m ≤ 32 }
    ensures { Tabled a.now b.now m result }
{
    let each = rows(a, b, m);
    let most = (m + 3) / 4 * 16;
    let mut t = [0u32; 128];
    for i in 0..most {
        let w = word(&each, &t, i);
        t[i] = w;
    }
    t
}

// The table for links as they arrive, where any of back are asked; else nothing is looked up in it.
pub fn table_if(back: u32, a: &[u32; 32], b: &[u32; 32], m: usize) -> [u32; 128]
    requires { m ≤ 32 }
    ensures { (e : ℕ) → Has back e → Tabled a.now b.now m result }
{
    if back == 0 {
        return [0; 128];
    }
    table(a, b, m)
}

// All m links.
pub fn all(m: usize) -> u32
    requires { m ≤ 32 }
    ensures { Mask (λ e. e < m) result }
{
    if m == 0 {
        return 0;
    }
    let less = (32 - m) as u32;
    0xffff_ffff >> less
}

// The links that are asked as they arrive: all of the m from o on, or none.
pub fn asked(both: bool, o: usize, m: usize) -> u32
    requires { o + m ≤ 32 }
    ensures { Mask (λ e. (rule_of both ≡ both_ways) × (o ≤ e) × (e < o + m)) result }
{
    if both {
        let upto = all(o + m);
        let before = all(o);
        return upto ^ (upto & before);
    }
    0
}
