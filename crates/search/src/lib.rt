// Document 01, "Spacing", and the search that it and the trim rest on: beside `median_spacing` of poisson.rs.
// The Rust asks a tree. Here each search goes through all points, as document 01 says.
#![tactic(auto)]

mod brute;
mod neighbours;

pub use brute::{Least, nearest, within};
pub use neighbours::spacing;
