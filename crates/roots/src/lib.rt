// Document 01, "Arithmetic": the square root of an f32 and of an f64, correctly rounded to nearest even, of every pattern: below zero gives NaN, -0 gives -0.
// One function on bit patterns serves both formats. It normalises by counting leading zeros, and takes one integer root, by a guess that is put right
// and one division. The source calls the machine's `sqrt`, which the logic does not have.
#![tactic(auto)]

ghost use Rattle.std.specs.Prelude.{◌≡◌, ◌+◌, ◌-◌, ◌*◌, ◌^◌, ◌≤◌, ◌<◌};
ghost use Rattle.numbers.specs.Arithmetic.{rooted};
ghost use Rattle.roots.specs.Words.{IsFormat, RootOf};

use numbers::Real;

// x · 2^s, where it fits.
fn shifted(x: u64, s: u64) -> u64
    requires { (x * 2 ^ s < 2 ^ 64) × (s < 64) }
    ensures { result ≡ x * 2 ^ s }
{
    x << s
}

// One step of Heron's rule towards the root of n. What it gives is only a guess: nothing is said of it.
fn heron(n: u64, g: u64) -> u64
    requires { (n < 2 ^ 60) × (0 < g) × (g ≤ 2 ^ 60) }
    ensures { (0 < result) × (result ≤ 2 ^ 60) }
{
    let r = (g + n / g) / 2;
    if r == 0 { 1 } else { r }
}

// A guess at the root of n, for an n from 2^(2d-2) up and below 2^(2d): a straight line, and three steps.
fn guess(n: u64, d: u64) -> u64
    requires { (n < 2 ^ 54) × (0 < d) × (d ≤ 28) }
    ensures { result ≤ 2 ^ 30 }
{
    let line = (((n >> (d - 1)) + shifted(1, d)) * 11) >> 5;
    let g = heron(n, heron(n, heron(n, line + 1)));
    if g <= 1073741824 { g } else { 1073741824 }
}

// The root of n cut to a whole number. The guess is put right: down while its square is above n, then up.
fn small_root(n: u64, d: u64) -> u64
    requires { (n < 2 ^ 54) × (0 < d) × (d ≤ 28) }
    ensures { (result * result ≤ n) × (n < (result + 1) * (result + 1)) }
{
    let mut r = guess(n, d);
    while n < r * r {
        r = r - 1;
    }
    while (r + 1) * (r + 1) <= n {
        r = r + 1;
    }
    r
}

// The root of x · 2^h cut to a whole number, for x below 2^h that has h or h - 1 digits. With x · 2^h = t · 4^l
// the upper digits are the root s of t, and one division gives the l lower ones, or one too many.
fn whole_root(x: u64, h: u64) -> u64
    requires { (x < 2 ^ h) × (2 ^ h ≤ 4 * x) × (2 ≤ h) × (h ≤ 54) }
    ensures { (result * result ≤ x * 2 ^ h) × (x * 2 ^ h < (result + 1) * (result + 1)) }
{
    let l = h / 2;
    let t = shifted(x, h % 2);
    let s = small_root(t, h - l);
    let rest = shifted(t - s * s, l);
    let q = rest / (s * 2);
    let over = rest - q * (s * 2);
    let r = shifted(s, l) + q;
    if q * q <= shifted(over, l) { r } else { r - 1 }
}

// The bit pattern of the root of the value whose pattern is b, in a format of p digits whose largest
// values have the exponent e. The value is finite and above zero: m · 2^k smallest values.
fn root_pattern(b: u64, p: u64, e: u64) -> u64
    requires { IsFormat p e b }
    ensures { RootOf p e b result }
{
    let k = (b >> (p - 1)).saturating_sub(1);
    let m = b - shifted(k, p - 1);
    // the leading digit of m goes to place p - 1, and the exponent is made even
    let z = (u64::leading_zeros(m) as u64) + p - 64;
    let n = k + e - 1 - z;
    let r = whole_root(shifted(m, z + n % 2), p + 1);
    shifted(n / 2, p - 1) + (r + 1) / 2
}

// The root of x. What lies below zero has none, and a zero, of either sign, is its own.
pub fn root<T: Real>(x: T) -> T
    ensures { T.value result ≡ rooted T.format (T.value x) }
{
    if T::ZERO < x {
        if x < T::INFINITY {
            return T::of_pattern(root_pattern(x.pattern(), T::DIGITS, T::LARGEST_EXPONENT));
        }
        return x;
    }
    if x == T::ZERO { x } else { T::NAN }
}
