// Containment of a query in views: quotes and the cheapest views, without a day and for one.
#![tactic(auto)]

pub mod choose;
pub mod costing;
pub mod days;
pub mod judging;
pub mod mapping;
pub mod query;
pub mod quote_type;
mod quoting;
pub mod terms;

ghost use Rattle.std.specs.Prelude.{◌≡◌, [], ◌∷◌, length};
ghost use Rattle.packed.specs.Calls.{Settled, with_workspace};
ghost use Rattle.matching.specs.Offered.{brings};
ghost use Rattle.containment.specs.Cheapest.{cheapest_for, cheapest_outcome, cheapest_told};
ghost use Rattle.containment.specs.Quote.{quote_for, quote_outcome, quote_told, blank};
ghost use Rattle.containment.specs.Terms.{spread_of, quoted_for, quote_on, cheapest_on, first_day, first_day_told};

use costing::Cheapest;
use days::FirstDay;
use packed::reply::Refusal;
use packed::{lent, limits};
use quote_type::Quote;
use terms::{Term, Terms};

// A quote for a day with its terms, or for none.
fn quote_for(
    question: &[u8],
    catalogue: &[u8],
    one_way: u16,
    day: Option<(Terms, u16)>,
    work: &mut [u32],
) -> Quote
    ensures { Settled blank (with_workspace (length work.old) (quoted_for day question.now (brings catalogue.now one_way) quote_for)) (quote_told result) [] [] work.old work.new }
{
    lent!(
        work,
        quoting::refused(Refusal::SmallWorkspace),
        quoting::quote(
            question,
            catalogue,
            u32::from(one_way),
            day,
            &mut work[0..limits::WORKSPACE],
        )
    )
}

// Quotes a question with a catalogue. Here and in every call below the set beside the catalogue names the extracts that are matched one-way, the bit
// worth 2^j for extract j; the others are matched both ways.
pub fn quote(question: &[u8], catalogue: &[u8], one_way: u16, work: &mut [u32]) -> Quote
    ensures { Settled blank (with_workspace (length work.old) (quote_outcome question.now (brings catalogue.now one_way))) (quote_told result) [] [] work.old work.new }
{
    quote_for(question, catalogue, one_way, None, work)
}

// Quotes a question for a day, by the extracts in force on it.
pub fn quote_on(
    question: &[u8],
    catalogue: &[u8],
    one_way: u16,
    terms: Terms,
    day: u16,
    work: &mut [u32],
) -> Quote
    ensures { Settled blank (with_workspace (length work.old) (quote_on question.now (brings catalogue.now one_way) terms day)) (quote_told result) [] [] work.old work.new }
{
    quote_for(question, catalogue, one_way, Some((terms, day)), work)
}

// The cheapest set for a day with its terms, or for none.
fn cheapest_for(
    question: &[u8],
    catalogue: &[u8],
    one_way: u16,
    day: Option<(Terms, u16)>,
    charges: &[u32],
    work: &mut [u32],
) -> Cheapest
    ensures { Settled [] (with_workspace (length work.old) (quoted_for day question.now (brings catalogue.now one_way) (cheapest_for charges.now))) (cheapest_told result) [] [] work.old work.new }
{
    lent!(
        work,
        costing::find_cheapest(
            question,
            catalogue,
            u32::from(one_way),
            day,
            charges,
            &mut work[0..limits::WORKSPACE],
        )
    )
}

// The cheapest set of extracts that covers a question, by the charges of the extracts.
pub fn cheapest(
    question: &[u8],
    catalogue: &[u8],
    one_way: u16,
    charges: &[u32],
    work: &mut [u32],
) -> Cheapest
    ensures { Settled [] (with_workspace (length work.old) (cheapest_outcome question.now (brings catalogue.now one_way) charges.now)) (cheapest_told result) [] [] work.old work.new }
{
    cheapest_for(question, catalogue, one_way, None, charges, work)
}

// The cheapest set of extracts in force on a day that covers a question, by the charges of all extracts.
pub fn cheapest_on(
    question: &[u8],
    catalogue: &[u8],
    one_way: u16,
    terms: Terms,
    day: u16,
    charges: &[u32],
    work: &mut [u32],
) -> Cheapest
    ensures { Settled [] (with_workspace (length work.old) (cheapest_on question.now (brings catalogue.now one_way) terms day charges.now)) (cheapest_told result) [] [] work.old work.new }
{
    cheapest_for(
        question,
        catalogue,
        one_way,
        Some((terms, day)),
        charges,
        work,
    )
}

// A list of terms in plain numbers, as the calls for a day take it. It is the one function here over a list of structs, is lent no words to work in and
// refuses nothing: a list of a wrong length is refused by the calls.
pub fn spread(terms: &[Term]) -> Terms
    ensures { result ≡ spread_of terms.now }
{
    let n = terms.len();
    let m = n.min(16);
    let mut t = terms::no_terms(n);
    for i in 0..m {
        t = terms::with_term(t, i, terms[i]);
    }
    t
}

// The first day, not before the given one, on which a question is covered.
pub fn first_day(
    question: &[u8],
    catalogue: &[u8],
    one_way: u16,
    terms: Terms,
    day: u16,
    work: &mut [u32],
) -> FirstDay
    ensures { Settled [] (with_workspace (length work.old) (first_day question.now (brings catalogue.now one_way) terms day)) (first_day_told result) [] [] work.old work.new }
{
    lent!(
        work,
        days::find_first_day(
            question,
            catalogue,
            u32::from(one_way),
            terms,
            day,
            &mut work[0..limits::WORKSPACE],
        )
    )
}
