// Document 01, "Arithmetic": the functions. Each is total, and its contract is an equation with a definition of the crate `numbers`. The square root has
// a crate of its own, `roots`, and is passed on.
#![tactic(auto)]

mod exponential;
mod narrowing;
mod patterns;
mod pick;
mod steps;

pub use exponential::exp_neg;
pub use narrowing::narrow;
pub use numbers::{Real, canonical, widen};
pub use patterns::{float32, float64, pattern32, pattern64};
pub use pick::{clamp, largest, least, sign};
pub use roots::root;
pub use steps::{ceiling, floor, to_whole};
