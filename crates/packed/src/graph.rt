// A record's edges in the workspace, without its content.
ghost use Rattle.std.specs.Prelude.{◌≡◌, length};
ghost use Rattle.packed.specs.LoadedGraph.{LoadsGraph};

use crate::reply::Refusal;
use crate::{accept, bits, limits};

// Accepts a record or refuses it: how many nodes and edges it has. Where it is accepted, the words of its edges stand at the front of the workspace.
pub fn load_record(s: &[u8], work: &mut [u32]) -> Result<(usize, usize), Refusal>
    requires { length work.old ≡ 16384 }
    ensures { LoadsGraph s.now result work.new }
{
    accept::accept_record(s, work)?;
    let nodes = bits::get_bits(s, 0, limits::NODES_WIDTH);
    let edges = bits::get_bits(s, limits::NODES_BITS, limits::EDGES_WIDTH);
    Ok((nodes as usize, edges as usize))
}
