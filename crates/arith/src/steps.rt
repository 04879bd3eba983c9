// Floor, ceiling, and the cast to a whole number, for every f64. Floor and ceiling call one another's half, `below` and `above`, at the other sign: with
// the direction as a parameter each would ask for it at every step.
ghost use Rattle.std.specs.Prelude.{◌≡◌, true, false, pos};
ghost use Rattle.std.specs.Float.Ieee as Ieee;
ghost use Rattle.std.specs.Float.{fin};
ghost use Rattle.std.specs.Float.Ieee.{to_unsigned};
ghost use Rattle.numbers.specs.Arithmetic.{floored, ceiled};

// The greatest whole number that is not above x. NaN, an infinity and -0 stay.
pub fn floor(x: f64) -> f64
    ensures { result ≡ floored x }
{
    if x > 0.0 {
        return below(x);
    }
    if x < 0.0 {
        return -above(-x);
    }
    numbers::canonical(x)
}

// The least whole number that is not below x. NaN, an infinity and -0 stay, and -0.5 gives -0.
pub fn ceiling(x: f64) -> f64
    ensures { result ≡ ceiled x }
{
    if x > 0.0 {
        return above(x);
    }
    if x < 0.0 {
        return -below(-x);
    }
    numbers::canonical(x)
}

// The floor of a y above 0. From 2^52 on every f64 is whole; below, the whole part is a float exactly.
fn below(y: f64) -> f64
    requires { Ieee.lt (fin false 0 (pos 0)) y ≡ true }
    ensures { result ≡ floored y }
{
    if y < 4503599627370496.0 {
        let w = std::num::truncating_f64_to_u64(y) as f64;
        if w == y { y } else { w }
    } else {
        y
    }
}

// The ceiling of a y above 0: y itself where it is whole, else one more than its whole part.
fn above(y: f64) -> f64
    requires { Ieee.lt (fin false 0 (pos 0)) y ≡ true }
    ensures { result ≡ ceiled y }
{
    if y < 4503599627370496.0 {
        let q = std::num::truncating_f64_to_u64(y);
        let w = q as f64;
        if w == y { y } else { (q + 1) as f64 }
    } else {
        y
    }
}

// Rust's `x as u64`: x without its fraction, 0 for a NaN and below 0, and the largest u64 past the end.
pub fn to_whole(x: f64) -> u64
    ensures { result ≡ to_unsigned 64 x }
{
    std::num::saturating_f64_to_u64(x)
}
