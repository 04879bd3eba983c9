// Document 01, "Box, level, orientation, trim": the level. It stands in `poisson_reconstruction` of the Rust's poisson.rs. The cube round the points is
// in the crate `points`, the box of the vertices in `meshes`, the orientation in `orientation`, the trim in `trim`.
#![tactic(auto)]

mod mean;

pub use mean::level;
