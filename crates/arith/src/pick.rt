// Clamp, sign, the lesser and the larger of two: a number picked by comparing.
ghost use Rattle.std.specs.Prelude.{◌≡◌};
ghost use Rattle.numbers.specs.Arithmetic.{clamped, signed, least, largest};

use numbers::Real;

// lo where x < lo, else hi where hi < x, else x: NaN stays NaN, and -0 stays -0.
pub fn clamp<T: Real>(x: T, lo: T, hi: T) -> T
    ensures { T.value result ≡ clamped (T.value x) (T.value lo) (T.value hi) }
{
    if x < lo {
        return lo;
    }
    if hi < x {
        return hi;
    }
    numbers::canonical(x)
}

// 1 with the sign of x: +0 gives 1, -0 gives -1, NaN gives NaN. No comparison tells +0 from -0, so the sign is read off the pattern.
pub fn sign(x: f64) -> f64
    ensures { result ≡ signed x }
{
    if x.is_nan() {
        return 0.0 / 0.0;
    }
    if f64::to_bits(x) >> 63 == 0 {
        return 1.0;
    }
    -1.0
}

// The lesser of two. A NaN gives the other, and of two equal ones the first stays. (`largest` differs in one `<`: one function for both would take it as
// a flag or a closure.)
pub fn least(x: f64, y: f64) -> f64
    ensures { result ≡ least x y }
{
    if x.is_nan() {
        return numbers::canonical(y);
    }
    if y < x {
        return y;
    }
    x
}

// The larger of two, by the same rule.
pub fn largest(x: f64, y: f64) -> f64
    ensures { result ≡ largest x y }
{
    if x.is_nan() {
        return numbers::canonical(y);
    }
    if x < y {
        return y;
    }
    x
}
