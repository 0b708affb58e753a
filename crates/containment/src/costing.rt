// The cheapest set of views that covers a query: the views still undecided are settled highest first, each taken or left, as far as that can still
// give the best.
ghost use Rattle.std.specs.Prelude.{◌≡◌, [], ℕ, ◌+◌, ◌≤◌, ◌<◌, length, get_or};
ghost use Rattle.packed.specs.Calls.{Fulfils, told_of};
ghost use Rattle.matching.specs.Offered.{brings};
ghost use Rattle.containment.specs.Cheapest.{cheapest_from, cheapest_for, cheapest_told};
ghost use Rattle.containment.specs.Terms.{quoted_for};
ghost use Rattle.containment.specs.Tries.{TriedRoom, taking, is_first, foremost_tried, settled, best_of, is_behind, reached, Reaches};

use crate::terms::Terms;
use crate::{choose, judging};
use matching::sets;
use packed::reply::Refusal;

// The cheapest set, the sum of its charges, and the set that a quote chooses; or why there is none.
pub type Cheapest = Result<(u16, u64, u16), Refusal>;

// A set of views: the sum of their charges, how many they are, the set with its bits turned round (of two sets the one that has the lowest view
// in which they differ has the greater), and the edges that they match.
#[derive(Clone, Copy)]
pub struct Tried {
    pub set: u32,
    pub sum: u64,
    pub number: u32,
    pub turned: u32,
    pub matched: u32,
}

// The set with the view a, which has this charge and matches these edges.
fn take_view(x: Tried, a: usize, charge: u32, mask: u32) -> Tried
    requires { (a < 16) × TriedRoom (a + 1) x }
    ensures { result ≡ taking a charge mask x }
{
    Tried {
        set: x.set + sets::only(a),
        sum: x.sum + charge as u64,
        number: x.number + 1,
        turned: x.turned + sets::only(15 - a),
        matched: x.matched | mask,
    }
}

// Whether x goes before y: a set that matches all edges before one that doesn't; then by the sum, by the number, by the lowest view in which
// they differ.
fn is_first(x: Tried, y: Tried, all: u32) -> bool
    ensures { result ≡ is_first all x y }
{
    let a = x.matched == all;
    let b = y.matched == all;
    (a & !b)
        | ((a | !b)
            & ((x.sum < y.sum)
                | ((x.sum == y.sum)
                    & ((x.number < y.number) | ((x.number == y.number) & (y.turned < x.turned))))))
}

fn first_of(x: Tried, y: Tried, all: u32) -> Tried
    ensures { result ≡ foremost_tried all x y }
{
    if is_first(x, y, all) {
        return x;
    }
    y
}

// Whether no set beyond x can be the first, where x doesn't match all edges and the views still undecided match those of `reach`: these are too few, or
// the best costs less than x, or as much with no more views.
fn is_behind(x: Tried, best: Tried, reach: u32, all: u32) -> bool
    ensures { result ≡ is_behind all reach x best }
{
    ((x.matched | reach) != all)
        | ((best.matched == all)
            & ((best.sum < x.sum) | ((best.sum == x.sum) & (best.number <= x.number))))
}

// For each u, the edges that the views below u match.
fn reach_of(masks: &[u32; 16]) -> [u32; 17]
    ensures { (u : ℕ) → u ≤ 16 → get_or result u 0 ≡ reached masks.now u }
{
    let mut reach = [0u32; 17];
    for a in 0..16 {
        reach[a + 1] = reach[a] | masks[a];
    }
    reach
}

// The first of `best` and of the sets that match all edges and have the views taken and any of the u views still undecided. Left out is what can't be the
// first: more views than match all edges, what is behind the best, a view that adds no edge.
fn settle(
    masks: &[u32; 16],
    reach: &[u32; 17],
    charges: &[u32],
    all: u32,
    u: usize,
    taken: Tried,
    best: Tried,
) -> Tried
    requires { (u ≤ 16) × (u ≤ length charges.now) × TriedRoom u taken × Reaches masks.now all u reach.now }
    ensures { result ≡ best_of all best (settled masks.now charges.now all u taken) }
{
    if taken.matched == all {
        return first_of(best, taken, all);
    }
    if is_behind(taken, best, reach[u], all) {
        return best;
    }
    let a = u - 1;
    let more = take_view(taken, a, charges[a], masks[a]);
    if more.matched == taken.matched {
        return settle(masks, reach, charges, all, a, taken, best);
    }
    let with = settle(masks, reach, charges, all, a, more, best);
    settle(masks, reach, charges, all, a, taken, with)
}

// The cheapest set of usable views from the table of a quote, by the charges of k views; beside it the set that a quote by these chooses.
// It is a call of its own, so that its tables don't lie on the stack while the question is judged.
#[inline(never)]
fn cheapest_of(mapping: &[u32; 512], usable: u32, charges: &[u32], k: usize, m: usize) -> Cheapest
    requires { (k ≤ 16) × (m ≤ 32) × (length charges.now ≡ k) × (length mapping.now ≡ 512) }
    ensures { cheapest_told result ≡ told_of [] (cheapest_from mapping.now usable m charges.now k) }
{
    let e = choose::lowest_unmatched(mapping, usable, k, m);
    if e < m {
        return Err(Refusal::NotContained(e as u32));
    }
    let columns = choose::columns_in(mapping, usable);
    let masks = choose::masks_of(&columns, k, m);
    let reach = reach_of(&masks);
    let none = Tried {
        set: 0,
        sum: 0,
        number: 0,
        turned: 0,
        matched: 0,
    };
    let x = settle(
        &masks,
        &reach,
        charges,
        choose::first_edges(m),
        k,
        none,
        none,
    );
    let chosen = choose::choose(mapping, usable, k, m);
    Ok((x.set as u16, x.sum, chosen as u16))
}

// For a day with its terms of the views in force, for none of all.
pub(crate) fn find_cheapest(
    question: &[u8],
    catalogue: &[u8],
    one_way: u32,
    day: Option<(Terms, u16)>,
    charges: &[u32],
    work: &mut [u32],
) -> Cheapest
    requires { length work.old ≡ 16384 }
    ensures { Fulfils [] (quoted_for day question.now (brings catalogue.now one_way) (cheapest_for charges.now)) (cheapest_told result) [] [] }
{
    let f = judging::judge_for(question, catalogue, one_way, day, work)?;
    let number = charges.len();
    if number != f.views {
        return Err(Refusal::WrongCharges(number));
    }
    cheapest_of(&f.table, f.usable, charges, f.views, f.query.edges)
}
