// The views of a catalogue in batches: as many as have room are matched in one run.
ghost use Rattle.std.specs.Prelude.{◌<◌};
ghost use Rattle.matching.specs.Books.{Catalogued, EdgesCounted};
ghost use Rattle.matching.specs.Batches.{BeginsAt, Fills};

use crate::offered;
use engine::batch::Batch;
use engine::{batch, views};

// A batch of views, the view after them, and the byte on which that begins.
#[derive(Clone, Copy)]
pub struct Filled {
    pub batch: Batch,
    pub next: usize,
    pub byte: usize,
}

// How many edges a batch has room for.
const EDGES: usize = 32;

// And how many nodes.
const NODES: usize = 64;

// The batch of the view a, which begins on the byte, and of those after it that have room, in their order. The numbers of edges tell where there is
// none, so that a view is read once. It is a call of its own, so that a pattern by value doesn't lie on the stack while a batch is matched.
#[inline(never)]
pub fn fill(
    catalogue: &[u8],
    one_way: u32,
    k: usize,
    edges: [u32; 16],
    a: usize,
    byte: usize,
) -> Filled
    requires { Catalogued catalogue.now k × EdgesCounted catalogue.now k edges × (a < k) × BeginsAt catalogue.now a byte }
    ensures { Fills catalogue.now one_way k a result }
{
    let mut b = batch::none();
    let mut at = byte;
    for next in a..k {
        if EDGES < b.edges + edges[next] as usize {
            return Filled {
                batch: b,
                next,
                byte: at,
            };
        }
        let v = views::view_at(catalogue, at);
        let p = v.pattern;
        if (EDGES < b.edges + p.edges) | (NODES < b.nodes + p.nodes) {
            return Filled {
                batch: b,
                next,
                byte: at,
            };
        }
        let both = offered::is_both(one_way, next);
        b = batch::add(b, p, both);
        at = v.next;
    }
    Filled {
        batch: b,
        next: k,
        byte: at,
    }
}
