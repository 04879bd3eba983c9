// Document 01, "Points", and the box round the points: beside `Samples::from_cloud` and the box in `poisson_reconstruction` of poisson.rs. The Rust
// copies the usable points into a Vec. Here they stay where they are given, and each loop reads them again; the contracts speak of the list of usable
// points.
#![tactic(auto)]

mod bounds;
mod point;

pub use bounds::Bounds;
pub use point::{Point, Points, Unusable, squares, usable_count};
