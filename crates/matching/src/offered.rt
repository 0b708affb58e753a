// A catalogue with the set of those of its views that are matched one-way.
ghost use Rattle.std.specs.Prelude.{◌≡◌, ◌<◌, ◌≤◌, length};
ghost use Rattle.engine.specs.Matched.{rule_of};
ghost use Rattle.matching.specs.Offered.{brings, rule_in, first_stray, SetJudged, OfferTo};

use crate::sets;
use packed::accept;
use packed::accept::CatalogueFile;
use packed::reply::{Refusal, Reply};

// Whether the view a is matched both ways.
pub fn is_both(one_way: u32, a: usize) -> bool
    requires { a < 32 }
    ensures { rule_of result ≡ rule_in one_way a }
{
    !sets::is_in(one_way, a)
}

// How many views a set can name.
const MOST: usize = 16;

// The lowest number in the set that is not below k, or 16.
fn first_stray(set: u32, k: usize) -> usize
    requires { k ≤ 16 }
    ensures { result ≡ first_stray set k 16 }
{
    for a in k..MOST {
        if sets::is_in(set, a) {
            return a;
        }
    }
    MOST
}

// The set is judged beside k views.
pub fn judge_set(set: u32, k: usize) -> Reply
    requires { k ≤ 16 }
    ensures { SetJudged set k result }
{
    let stray = first_stray(set, k);
    if stray < MOST {
        return Err(Refusal::WrongSet(stray));
    }
    Ok(0)
}

// The catalogue is judged, then the set.
pub fn accept_offer(
    catalogue: &[u8],
    one_way: u32,
    work: &mut [u32],
) -> Result<CatalogueFile, Refusal>
    requires { length work.old ≡ 16384 }
    ensures { OfferTo (brings catalogue.now one_way) result }
{
    let f = accept::accept_catalogue(catalogue, work)?;
    judge_set(one_way, f.views)?;
    Ok(f)
}
