// The listing of a quote, as the programs that quote print it, line by line.
#![tactic(auto)]

pub mod lines;
pub mod print;
