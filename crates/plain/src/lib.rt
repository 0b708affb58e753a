// Plain simulation on content words, both ways, made apart from the crate `matching` to be compared with it: whole passes over one flag for
// each pair of a pattern's node and a record's, until nothing changes.
//
// Any words will do. Of a pattern at most 16 nodes and 32 edges count, of a record at most 4,096 and 8,192; a word that isn't there is 0.
#![tactic(auto)]

mod graph;
mod listing;
mod simulation;

use graph::Graph;

// The content of a pattern's sheet from a record goes to the front of out as far as it goes. How many words it has.
pub fn sheet(pattern: &[u32], record: &[u32], out: &mut [u32]) -> usize {
    let pattern = Graph::pattern(pattern);
    let record = Graph::record(record);
    let mut related = [[false; 4096]; 16];
    simulation::simulate(pattern, record, &mut related);
    listing::list(pattern, record, &related, out)
}
