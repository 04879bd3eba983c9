// The first pass of document 01's "Extraction", for any Lattice: `number_edges` gives each crossed edge its vertex number in a lent table and answers V and F,
// so that a caller can refuse before anything is written. The second pass is in the crate `extract`.
#![tactic(auto)]

mod number;

pub use number::number_edges;
