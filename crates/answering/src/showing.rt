// A showing of why a query is not covered, with room to work in: 16,384 words, which are left in any state.
ghost use Rattle.std.specs.Prelude.{◌≡◌, [], ◌∷◌, length};
ghost use Rattle.packed.specs.Calls.{Fulfils, record_bytes, fit_both};
ghost use Rattle.matching.specs.Offered.{brings};
ghost use Rattle.packed.specs.Refusals.{both_told};
ghost use Rattle.containment.specs.Show.{show_for};
ghost use Rattle.containment.specs.Steps.{Query, shown_fields};
ghost use Rattle.containment.specs.Terms.{quoted_for};

use containment::terms::Terms;
use containment::{choose, judging, query};
use packed::by_value::Pattern;
use packed::reply::{Both, Refusal};

// The two records of a query that is not covered, whose lowest unmatched edge is e.
fn show_both(q: Pattern, e: usize, first: &mut [u8], second: &mut [u8], work: &mut [u32]) -> Both
    requires { Query q × (length work.old ≡ 16384) }
    ensures { (t : Query q) → Fulfils [] (fit_both (length first.old) (length second.old) (record_bytes (shown_fields t.content 32)) (record_bytes (shown_fields t.content e))) (both_told result) (first.old ∷ second.old ∷ []) (first.new ∷ second.new ∷ []) }
{
    let a = query::write_graph(q, 32, &mut first[0..0], work);
    if first.len() < a {
        return Err(Refusal::NoRoom(a));
    }
    let b = query::write_graph(q, e, &mut second[0..0], work);
    if second.len() < b {
        return Err(Refusal::NoRoom(b));
    }
    query::write_graph(q, 32, first, work);
    query::write_graph(q, e, second, work);
    Ok((a, b))
}

// For a day with its terms of the views in force, for none of all; or why there is nothing to show.
pub fn show(
    question: &[u8],
    catalogue: &[u8],
    one_way: u32,
    day: Option<(Terms, u16)>,
    first: &mut [u8],
    second: &mut [u8],
    work: &mut [u32],
) -> Both
    requires { length work.old ≡ 16384 }
    ensures { Fulfils [] (quoted_for day question.now (brings catalogue.now one_way) (show_for (length first.old) (length second.old))) (both_told result) (first.old ∷ second.old ∷ []) (first.new ∷ second.new ∷ []) }
{
    let f = judging::judge_for(question, catalogue, one_way, day, work)?;
    let table = f.table;
    let q = f.query;
    let e = choose::lowest_unmatched(&table, f.usable, f.views, q.edges);
    if e < q.edges {
        return show_both(q, e, first, second, work);
    }
    Err(Refusal::Contained)
}
