// Marked nodes: 256 words, one bit each. A node has two places, one in the second half for when it is to wait until none of the first half is marked.
// Behind the words stands the cursor: all words before it are zero, so that a search begins there and not at the first word.
ghost use Rattle.std.specs.Prelude.{◌≡◌, ℕ, ◌+◌, ◌<◌, ◌≤◌, min, length};
ghost use Rattle.engine.specs.MarkedSet.{IsSet, NumberAdded, Marks, AllMarked, FirstWord, Drawn, TakenOut, IsMarked};

use crate::start;

const CURSOR: usize = 256;

fn add(set: &mut [u32], x: usize)
    requires { IsSet set.old × (x < 8192) }
    ensures { NumberAdded x set.old set.new }
{
    let at = x / 32;
    let place = x % 32;
    let old = set[at];
    let bit: u32 = 1 << place;
    set[at] = old | bit;
    let low = set[CURSOR];
    set[CURSOR] = low.min(at as u32);
}

// The first word that is not zero, or 256.
fn first_word(set: &[u32]) -> usize
    requires { IsSet set.now }
    ensures { FirstWord set.now result }
{
    let cursor = set[CURSOR] as usize;
    for i in cursor..CURSOR {
        if set[i] != 0 {
            return i;
        }
    }
    CURSOR
}

// Takes the lowest number out of the set; 8192 if there is none.
fn draw(set: &mut [u32]) -> usize
    requires { IsSet set.old }
    ensures { Drawn set.old result set.new }
{
    let at = first_word(set);
    if at >= 256 {
        return 8192;
    }
    let old = set[at];
    let place = start::lowest(old);
    let bit: u32 = 1 << place;
    set[at] = old ^ (old & bit);
    set[CURSOR] = at as u32;
    32 * at + place
}

// Marks the node v. One at which 16 or more pairs begin or end is to wait.
pub fn mark(first: &[u16], back: &[u16], v: usize, set: &mut [u32])
    requires { (v < 4096) × (v + 1 < length first.now) × IsSet set.old × (v + 1 < length back.now) }
    ensures { Marks first.now back.now v set.old set.new }
{
    let next = v + 1;
    let a = first[v] as usize;
    let b = first[next] as usize;
    let c = back[v] as usize;
    let d = back[next] as usize;
    let x = if b + d < a + c + 16 { v } else { 4096 + v };
    add(set, x);
}

// Marks the first n nodes.
pub fn mark_all(n: usize, first: &[u16], back: &[u16], set: &mut [u32])
    requires { (n ≤ 4096) × (n < length first.now) × IsSet set.old × (n < length back.now) × ((v : ℕ) → v < 4096 → IsMarked set.old v → ⊥) }
    ensures { AllMarked n set.new }
{
    for v in 0..n {
        mark(first, back, v, set);
    }
}

// Takes a marked node, one that does not wait where there is one; 4096 if none is marked.
pub fn take(set: &mut [u32]) -> usize
    requires { IsSet set.old }
    ensures { TakenOut set.old result set.new }
{
    let x = draw(set);
    if x < 4096 { x } else { x - 4096 }
}
