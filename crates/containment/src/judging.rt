// What a client brings is judged here, in one order for every call that quotes: the question, then the catalogue, then the terms, where a call is for a
// day, then the set of the views that are matched one-way. The quote's table is made last.
ghost use Rattle.std.specs.Prelude.{◌≡◌, length};
ghost use Rattle.matching.specs.Offered.{brings};
ghost use Rattle.containment.specs.Quote.{quoted};
ghost use Rattle.containment.specs.Steps.{Query, JudgedTo};
ghost use Rattle.containment.specs.Terms.{offered_for, quoted_for, quoted_on};

use crate::terms::Terms;
use crate::{mapping, terms};
use matching::offered;
use packed::accept;
use packed::accept::CatalogueFile;
use packed::by_value::Pattern;
use packed::reply::Refusal;

// The query, how many views there are and how many edges each has, which of them may be used, and the table of the quote.
#[derive(Clone, Copy)]
pub struct Judged {
    pub query: Pattern,
    pub views: usize,
    pub edges: [u32; 16],
    pub usable: u32,
    pub table: [u32; 512],
}

// The catalogue, the terms of a day and the set, once the question is accepted.
fn judge_views(
    query: Pattern,
    catalogue: &[u8],
    one_way: u32,
    day: Option<(Terms, u16)>,
    work: &mut [u32],
) -> Result<Judged, Refusal>
    requires { Query query × (length work.old ≡ 16384) }
    ensures { (t : Query query) → JudgedTo (offered_for day t.content (brings catalogue.now one_way)) result }
{
    let CatalogueFile { views, edges, .. } = accept::accept_catalogue(catalogue, work)?;
    terms::judge_day(day, views)?;
    offered::judge_set(one_way, views)?;
    let table = mapping::map_views(query, catalogue, one_way, views, edges, work);
    Ok(Judged {
        query,
        views,
        edges,
        usable: terms::usable_for(day, views),
        table,
    })
}

// For a day with its terms the views in force may be used, for none all of them.
pub fn judge_for(
    question: &[u8],
    catalogue: &[u8],
    one_way: u32,
    day: Option<(Terms, u16)>,
    work: &mut [u32],
) -> Result<Judged, Refusal>
    requires { length work.old ≡ 16384 }
    ensures { JudgedTo (quoted_for day question.now (brings catalogue.now one_way)) result }
{
    let f = accept::accept_pattern(question, work)?;
    judge_views(f.pattern, catalogue, one_way, day, work)
}

pub fn judge(
    question: &[u8],
    catalogue: &[u8],
    one_way: u32,
    work: &mut [u32],
) -> Result<Judged, Refusal>
    requires { length work.old ≡ 16384 }
    ensures { JudgedTo (quoted question.now (brings catalogue.now one_way)) result }
{
    judge_for(question, catalogue, one_way, None, work)
}

pub fn judge_on(
    question: &[u8],
    catalogue: &[u8],
    one_way: u32,
    t: Terms,
    day: u16,
    work: &mut [u32],
) -> Result<Judged, Refusal>
    requires { length work.old ≡ 16384 }
    ensures { JudgedTo (quoted_on question.now (brings catalogue.now one_way) t day) result }
{
    judge_for(question, catalogue, one_way, Some((t, day)), work)
}
