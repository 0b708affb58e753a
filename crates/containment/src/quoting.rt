// A quote, with room to work in: 16,384 words, which are left in any state.
ghost use Rattle.std.specs.Prelude.{◌≡◌, [], ◌∷◌, ◌≤◌, length};
ghost use Rattle.packed.specs.Refusals.{told, number_of, detail_of};
ghost use Rattle.packed.specs.Calls.{Fulfils};
ghost use Rattle.matching.specs.Offered.{brings};
ghost use Rattle.containment.specs.Quote.{blank, flat, values_from, quote_for, quote_told};
ghost use Rattle.containment.specs.Terms.{quoted_for};

use crate::quote_type::{Coverage, Quote};
use crate::terms::Terms;
use crate::{choose, judging, mapping};
use packed::reply::Refusal;

pub fn refused(x: Refusal) -> Quote
    ensures { quote_told result ≡ told (number_of x) (detail_of x ∷ blank) }
{
    Quote {
        coverage: Err(x),
        mapping: mapping::no_mapping(),
        edges: 0,
        chosen: 0,
        lowest: 0,
    }
}

// A quote from its table, by the views in the set. It is a call of its own, so that its tables don't lie on the stack while the question is judged.
#[inline(never)]
fn quote_of(mapping: [u32; 512], set: u32, m: usize, k: usize) -> Quote
    requires { (m ≤ 32) × (k ≤ 16) × (length mapping ≡ 512) }
    ensures { quote_told result ≡ told 0 (flat (values_from mapping set m k)) }
{
    let masks = choose::masks_of(&mapping, k, m);
    let lowest = choose::lowest_in(&masks, set, k, m);
    let columns = choose::columns_in(&mapping, set);
    if lowest < m {
        return Quote {
            coverage: Ok(Coverage::Uncovered),
            mapping: columns,
            edges: m as u32,
            chosen: 0,
            lowest: lowest as u32,
        };
    }
    Quote {
        coverage: Ok(Coverage::Covered),
        mapping: columns,
        edges: m as u32,
        chosen: choose::choose_in(&masks, set, k, m),
        lowest: 0,
    }
}

// For a day with its terms by the views in force, for none by all.
pub fn quote(
    question: &[u8],
    catalogue: &[u8],
    one_way: u32,
    day: Option<(Terms, u16)>,
    work: &mut [u32],
) -> Quote
    requires { length work.old ≡ 16384 }
    ensures { Fulfils blank (quoted_for day question.now (brings catalogue.now one_way) quote_for) (quote_told result) [] [] }
{
    match judging::judge_for(question, catalogue, one_way, day, work) {
        Ok(f) => quote_of(f.table, f.usable, f.query.edges, f.views),
        Err(x) => refused(x),
    }
}
