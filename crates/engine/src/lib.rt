// The matching engine: marks the edges of a graph with those edges of a pattern, or of several at once, that list them, by the greatest simulation, with an index
// of the graph or without. It has no client calls: whatever is `pub` serves the crates above.
#![tactic(auto)]

pub mod batch;
mod ends;
pub mod engine;
pub mod index;
pub mod link_tables;
mod marked;
pub mod matched;
pub mod sides;
mod start;
pub mod sweeps;
mod turns;
pub mod views;
