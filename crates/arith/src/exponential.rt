// The exponential of -x, bit for bit: the series at x/64 from its last term inwards, then six squarings, since e^-x is the 64th power of e^(-x/64).
ghost use Rattle.std.specs.Prelude.{◌≡◌};
ghost use Rattle.numbers.specs.Constants.{one64};
ghost use Rattle.numbers.specs.Arithmetic.{series, squared, exp_neg};

use crate::narrowing::narrow;

// u = x/64; the series; six squarings; narrowed. Every f64 has a result.
pub fn exp_neg(x: f64) -> f32
    ensures { result ≡ exp_neg x }
{
    narrow(squares(terms(x / 64.0)))
}

// s = 1; for m = 8 down to 1, s becomes 1 - (u·s)/m.
fn terms(u: f64) -> f64
    ensures { result ≡ series u 8 one64 }
{
    let mut s = 1.0;
    for m in (1..9u32).rev() {
        s = 1.0 - (u * s) / (m as f64);
    }
    s
}

// x squared six times.
fn squares(x: f64) -> f64
    ensures { result ≡ squared 6 x }
{
    let mut s = x;
    for _ in 0..6u32 {
        s = s * s;
    }
    s
}
