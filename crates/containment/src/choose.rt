// Coverage and the chosen views, from the masks of a quote. A set says which views may be used.
ghost use Rattle.std.specs.Prelude.{◌≡◌, ℕ, ◌-◌, ◌^◌, ◌<◌, ◌≤◌, true, List, length};
ghost use Rattle.engine.specs.Masks.{Mask};
ghost use Rattle.containment.specs.Choice.{covers_in, columns_in, lowest_unmatched, taken, kept, chosen, used};
ghost use Rattle.containment.specs.Masked.{EdgeMatchedBy, EdgeMatchedIn, Masked};

use crate::mapping;
use matching::sets;

// The set of all views.
pub const EVERY_VIEW: u32 = 65535;

// The table with the columns of the views in the set alone: the table itself, where every view is in the set.
pub fn columns_in(table: &[u32; 512], set: u32) -> [u32; 512]
    requires { length table.now ≡ 512 }
    ensures { result ≡ columns_in set table.now }
{
    if set == EVERY_VIEW {
        return *table;
    }
    let mut columns = mapping::no_mapping();
    for k in 0..512 {
        if sets::is_in(set, k % 16) {
            columns[k] = table[k];
        }
    }
    columns
}

// The mask of those of the first m edges that the view a matches.
fn edges_of(mapping: &[u32; 512], a: usize, m: usize) -> u32
    requires { (a < 16) × (m ≤ 32) }
    ensures { Mask (EdgeMatchedBy mapping.now a m) result }
{
    let mut mask: u32 = 0;
    for e in 0..m {
        let at = 16 * e + a;
        if mapping[at] != 0 {
            mask = mask | sets::only(e);
        }
    }
    mask
}

// These masks of the first k views.
pub fn masks_of(mapping: &[u32; 512], k: usize, m: usize) -> [u32; 16]
    requires { (k ≤ 16) × (m ≤ 32) }
    ensures { Masked mapping.now k m result }
{
    let mut masks = [0u32; 16];
    for a in 0..k {
        masks[a] = edges_of(mapping, a, m);
    }
    masks
}

// The mask of the first m edges.
pub fn first_edges(m: usize) -> u32
    requires { m ≤ 32 }
    ensures { result ≡ 2 ^ m - 1 }
{
    let over: u64 = 1 << m;
    (over - 1) as u32
}

// The edges that the views in the set match, from the masks of k views.
pub fn union(masks: &[u32; 16], set: u32, k: usize) -> u32
    requires { k ≤ 16 }
    ensures { (t : List ℕ) (m : ℕ) → Masked t k m masks.now → Mask (EdgeMatchedIn t m set k) result }
{
    let mut matched: u32 = 0;
    for a in 0..k {
        if sets::is_in(set, a) {
            matched = matched | masks[a];
        }
    }
    matched
}

// Whether the views in the set, of k, match each of m edges.
pub fn is_cover(masks: &[u32; 16], set: u32, k: usize, m: usize) -> bool
    requires { (m ≤ 32) × (k ≤ 16) }
    ensures { (t : List ℕ) → Masked t k m masks.now → result ≡ covers_in t set k m }
{
    union(masks, set, k) == first_edges(m)
}

// The lowest of m edges that no view in the set, of k, matches, or m.
pub fn lowest_in(masks: &[u32; 16], set: u32, k: usize, m: usize) -> usize
    requires { (m ≤ 32) × (k ≤ 16) }
    ensures { (t : List ℕ) → Masked t k m masks.now → result ≡ lowest_unmatched t set k m }
{
    let matched = union(masks, set, k);
    for e in 0..m {
        if !sets::is_in(matched, e) {
            return e;
        }
    }
    m
}

// The same from the table.
pub fn lowest_unmatched(mapping: &[u32; 512], set: u32, k: usize, m: usize) -> usize
    requires { (m ≤ 32) × (k ≤ 16) }
    ensures { result ≡ lowest_unmatched mapping.now set k m }
{
    let masks = masks_of(mapping, k, m);
    lowest_in(&masks, set, k, m)
}

// Going up the catalogue, each view of the set that matches an edge not matched before.
fn take_views(masks: &[u32; 16], set: u32, k: usize) -> u32
    requires { k ≤ 16 }
    ensures { (t : List ℕ) (m : ℕ) → Masked t k m masks.now → result ≡ taken t set m k }
{
    let mut first: u32 = 0;
    let mut matched: u32 = 0;
    for a in 0..k {
        let more = matched | masks[a];
        if sets::is_in(set, a) & (more != matched) {
            first = first + sets::only(a);
            matched = more;
        }
    }
    first
}

// Going up again, the set without each view that the others can spare.
fn drop_views(masks: &[u32; 16], first: u32, k: usize, m: usize) -> u32
    requires { (m ≤ 32) × (k ≤ 16) }
    ensures { (t : List ℕ) → Masked t k m masks.now → result ≡ kept t m k first k }
{
    let all = first_edges(m);
    let mut set = first;
    for a in 0..k {
        if sets::is_in(set, a) {
            let less = set - sets::only(a);
            if union(masks, less, k) == all {
                set = less;
            }
        }
    }
    set
}

// The views chosen from a set that covers the query.
pub fn choose_in(masks: &[u32; 16], set: u32, k: usize, m: usize) -> u32
    requires { (m ≤ 32) × (k ≤ 16) }
    ensures { (t : List ℕ) → Masked t k m masks.now → covers_in t set k m ≡ true → result ≡ chosen t set m k }
{
    drop_views(masks, take_views(masks, set, k), k, m)
}

// The same from the table.
pub fn choose(mapping: &[u32; 512], set: u32, k: usize, m: usize) -> u32
    requires { (m ≤ 32) × (k ≤ 16) × (covers_in mapping.now set k m ≡ true) }
    ensures { result ≡ chosen mapping.now set m k }
{
    let masks = masks_of(mapping, k, m);
    choose_in(&masks, set, k, m)
}

// The views that answer a query whose lowest edge that the set leaves unmatched is known: those chosen from the set, or all of it where it doesn't
// cover the query.
pub fn use_views(masks: &[u32; 16], set: u32, lowest: usize, k: usize, m: usize) -> u32
    requires { (m ≤ 32) × (k ≤ 16) }
    ensures { (t : List ℕ) → Masked t k m masks.now → lowest ≡ lowest_unmatched t set k m → result ≡ used t set m k }
{
    if lowest < m {
        return set;
    }
    choose_in(masks, set, k, m)
}
