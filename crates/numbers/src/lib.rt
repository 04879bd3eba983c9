// Document 01, "Arithmetic": what a number is here. The definitions and their laws are in specs/; the crate `arith` has the functions
// that compute. Here is what f32 and f64 have in common, and the functions that leave a value as it is: a wider format holds every f32, and a NaN is one
// value, whatever its pattern.
#![tactic(auto)]

mod real;

ghost use Rattle.std.specs.Prelude.{◌≡◌};

pub use real::Real;

// x at the wider format, which holds every f32, NaN included.
pub fn widen(x: f32) -> f64
    ensures { result ≡ x }
{
    std::num::f32_to_f64_with_nan(x)
}

// x, with a NaN stored as 7FC00000, in f64 as 7FF8000000000000. The logic has one NaN, so the contract cannot tell patterns apart: they are tested.
pub fn canonical<T: Real>(x: T) -> T
    ensures { result ≡ x }
{
    if x != x { T::NAN } else { x }
}
