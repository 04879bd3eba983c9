// Document 01, "Solver", for one level, beside `conjugate_gradient` of the Rust's poisson.rs: `gradients` has the steps. A x is the crate `laplacian`,
// the dot product and the updates of whole slices are the crate `vectors`, the levels are the crate `levels`.
#![tactic(auto)]

mod gradients;

pub use gradients::conjugate_gradient;
