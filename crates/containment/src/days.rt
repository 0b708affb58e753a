// The first day on which a query is covered, with room to work in: 16,384 words, which are left in any state.
ghost use Rattle.std.specs.Prelude.{◌≡◌, List, [], ℕ, ◌≤◌, length};
ghost use Rattle.packed.specs.Calls.{Fulfils};
ghost use Rattle.matching.specs.Offered.{brings};
ghost use Rattle.containment.specs.Choice.{covers_in};
ghost use Rattle.containment.specs.Masked.{Masked};
ghost use Rattle.containment.specs.Terms.{in_force, sooner, earliest, first_day, first_day_told};

use crate::terms::Terms;
use crate::{choose, judging, terms};
use packed::reply::Refusal;

// The day, none, or why there is no answer.
pub type FirstDay = Result<Option<u16>, Refusal>;

// The day after the last.
const AFTER: u32 = 65536;

// The day d, if it is not before the given day, is before the one found, and the views in force on it, of k, cover m edges; else the one found.
fn sooner_of(masks: &[u32; 16], t: Terms, day: u16, d: u16, found: u32, k: usize, m: usize) -> u32
    requires { (k ≤ 16) × (m ≤ 32) }
    ensures { (b : List ℕ) → Masked b k m masks.now → result ≡ sooner (λ i. covers_in b (in_force t i k) k m) day d found }
{
    if d < day {
        return found;
    }
    if found <= d as u32 {
        return found;
    }
    let set = terms::in_force(t, d, k);
    if choose::is_cover(masks, set, k, m) {
        return d as u32;
    }
    found
}

// The first of the given day and the from-days on which the views in force, of k, cover m edges.
fn earliest_of(table: &[u32; 512], t: Terms, day: u16, k: usize, m: usize) -> u32
    requires { (k ≤ 16) × (m ≤ 32) }
    ensures { result ≡ earliest (λ i. covers_in table.now (in_force t i k) k m) t day k }
{
    let masks = choose::masks_of(table, k, m);
    let mut found = sooner_of(&masks, t, day, day, AFTER, k, m);
    for a in 0..k {
        found = sooner_of(&masks, t, day, t.from[a], found, k, m);
    }
    found
}

pub(crate) fn find_first_day(
    question: &[u8],
    catalogue: &[u8],
    one_way: u32,
    t: Terms,
    day: u16,
    work: &mut [u32],
) -> FirstDay
    requires { length work.old ≡ 16384 }
    ensures { Fulfils [] (first_day question.now (brings catalogue.now one_way) t day) (first_day_told result) [] [] }
{
    let f = judging::judge_on(question, catalogue, one_way, t, day, work)?;
    let d = earliest_of(&f.table, t, day, f.views, f.query.edges);
    if d < AFTER {
        return Ok(Some(d as u16));
    }
    Ok(None)
}
