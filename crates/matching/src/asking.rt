// Which views' lists a link would change, with room to work in: 16,384 words, which are left in any state.
ghost use Rattle.std.specs.Prelude.{◌≡◌, [], ◌+◌, ◌≤◌, ◌<◌, length, get_or};
ghost use Rattle.packed.specs.Calls.{Fulfils};
ghost use Rattle.matching.specs.Offered.{brings};
ghost use Rattle.matching.specs.Books.{Catalogued, EdgesCounted, Bookable, Batched};
ghost use Rattle.matching.specs.Ask.{ask_outcome, ask_told};
ghost use Rattle.matching.specs.Asking.{listed_in, set_from, ListsBy, ChangedBy, AskAnswered};

use crate::state::{Link, Slip, State};
use crate::{batches, entering, offered, sets};
use engine::matched;
use packed::reply::Refusal;
use packed::{enter, graph, limits, matches};

// The views whose lists the link would change, as a set, and the slip; or why there is no answer.
pub type Asked = Result<(u16, Slip), Refusal>;

// Those of a batch of views, a up to b, that list a pair with the mask x, where `named` has the edges that some mask names: one of the view's edges has
// the pair, and none of its lists is empty.
fn views_with(x: u32, named: u32, edges: [u32; 16], a: usize, b: usize) -> u32
    requires { Batched edges a b }
    ensures { ListsBy edges a b x named result }
{
    let mut set: u32 = 0;
    let mut o: u32 = 0;
    for j in a..b {
        let own = edges[j];
        let has = matches::bits_from(x, o, own);
        let full = matches::lists_all(named, o, own);
        set += sets::only_if((has != 0) & full, j);
        o += own;
    }
    set
}

// The same of the pair at a place among the m that were matched: where no edge has it, nothing is looked for.
fn listed_views(work: &[u32], m: usize, edges: [u32; 16], a: usize, b: usize, at: usize) -> u32
    requires { Batched edges a b × (m ≤ 8192) × (at < m) × (length work.now ≡ 16384) }
    ensures { result ≡ set_from (listed_in edges a m work.now (get_or work.now (8192 + at) 0)) a b }
{
    let held = limits::HELD + at;
    let x = work[held];
    if x == 0 {
        return 0;
    }
    let named = matches::named(work, m);
    views_with(x, named, edges, a, b)
}

// The views whose lists the edge at a place among the m of a record changes: they have it.
fn changed_views(
    catalogue: &[u8],
    one_way: u32,
    k: usize,
    edges: [u32; 16],
    record: &[u8],
    n: usize,
    m: usize,
    at: usize,
    work: &mut [u32],
) -> u32
    requires { Bookable catalogue.now k edges «record».now n m work.old × (at < m) }
    ensures { ChangedBy catalogue.now one_way «record».now n m work.old at result × (result < 65536) }
{
    let mut leave = [0u32; 4096];
    let mut arrive = [0u32; 4096];
    let mut held = [0u32; 4096];
    let mut set: u32 = 0;
    let mut byte: usize = 1;
    let mut a: usize = 0;
    // No for loop: a turn goes on by as many views as its batch has.
    while a < k {
        let f = batches::fill(catalogue, one_way, k, edges, a, byte);
        matched::match_batch(
            record,
            n,
            m,
            f.batch,
            None,
            work,
            &mut leave,
            &mut arrive,
            &mut held,
        );
        set += listed_views(work, m, edges, a, f.next, at);
        byte = f.byte;
        a = f.next;
    }
    set
}

// Asks, once the catalogue and its set were accepted: the edge goes to its place in the workspace, where the views are matched with it. The bytes of the
// record serve for the nodes, which stay.
fn ask_of(
    catalogue: &[u8],
    one_way: u32,
    k: usize,
    edges: [u32; 16],
    record: &[u8],
    state: State,
    link: Link,
    work: &mut [u32],
) -> Asked
    requires { (length work.old ≡ 16384) × Catalogued catalogue.now k × EdgesCounted catalogue.now k edges }
    ensures { AskAnswered catalogue.now one_way «record».now state link result }
{
    let (n, m) = graph::load_record(record, work)?;
    let at = entering::judge(state.links, link, n, m, work)?;
    enter::put_edge(work, m, at, link.from, link.to, link.kind);
    let set = changed_views(catalogue, one_way, k, edges, record, n, m + 1, at, work);
    let slip = Slip {
        from: link.from,
        to: link.to,
        kind: link.kind,
        change: state.change,
    };
    Ok((set as u16, slip))
}

pub fn ask(
    catalogue: &[u8],
    one_way: u32,
    record: &[u8],
    state: State,
    link: Link,
    work: &mut [u32],
) -> Asked
    requires { length work.old ≡ 16384 }
    ensures { Fulfils [] (ask_outcome (brings catalogue.now one_way) «record».now state link) (ask_told result) [] [] }
{
    let f = offered::accept_offer(catalogue, one_way, work)?;
    let edges = f.edges;
    ask_of(
        catalogue, one_way, f.views, edges, record, state, link, work,
    )
}
