// f64 to f32: IEEE 754's rounding to the nearest value, a tie to the even one, for every f64. It stands beside Rust's `as f32`.
// The f32's pattern is built from the f64's: in the normal range one rounding of the whole pattern moves the exponent too.
ghost use Rattle.std.specs.Prelude.{◌≡◌, ◌*◌, ◌^◌, ◌<◌, ◌≤◌};
ghost use Rattle.std.specs.Float.Ieee.Nearest.{closest};
ghost use Rattle.numbers.specs.Arithmetic.{narrowed};
ghost use Rattle.arith.specs.Words.{Nearest32};

// n / 2^shift, rounded to the nearest whole number, a tie to the even one.
fn rounded(n: u64, shift: u64) -> u64
    requires width { n < 2 ^ 63 }
    requires least { 1 ≤ shift }
    requires most { shift ≤ 53 }
    ensures { result ≡ closest n (2 ^ shift) }
{
    (n + ((1u64 << (shift - 1)) - 1) + (n >> shift) % 2) >> shift
}

// digits / 2^lift, rounded so. The digits are normalised to 53 by counting their leading zeros, which
// says whether any of them reaches half a unit, and how far to shift.
fn scaled(digits: u64, lift: u64) -> u64
    requires width { digits < 2 ^ 53 }
    requires least { 1 ≤ lift }
    requires most { lift ≤ 925 }
    ensures { result ≡ closest digits (2 ^ lift) }
{
    let z = u64::leading_zeros(digits) as u64 - 11;
    let shift = lift + z;
    if shift <= 53 {
        rounded(digits << z, shift)
    } else {
        0
    }
}

// The f32 pattern nearest to a magnitude whose f64 pattern is m, below 2^-126: that of a subnormal,
// of a zero, or of 2^-126.
fn small(m: u64) -> u64
    requires { m < 897 * 2 ^ 52 }
    ensures { Nearest32 m result }
{
    let e = m >> 52;
    let t = m % 0x10_0000_0000_0000;
    if e == 0 {
        scaled(t, 925)
    } else {
        scaled(t + 0x10_0000_0000_0000, 926 - e)
    }
}

// The f32 pattern nearest to a magnitude outside the range of the normal f32 values.
fn outside(m: u64) -> u64
    requires within { m ≤ 2047 * 2 ^ 52 }
    requires beyond { (897 * 2 ^ 52 ≤ m → 1151 * 2 ^ 52 ≤ m) }
    ensures { Nearest32 m result }
{
    if m < 0x3810_0000_0000_0000 {
        small(m)
    } else {
        0x7f80_0000
    }
}

// The f32 pattern nearest to a magnitude whose f64 pattern is m, up to infinity. One test tells
// whether it is from 2^-126 to below 2^128.
fn magnitude(m: u64) -> u64
    requires { m ≤ 2047 * 2 ^ 52 }
    ensures { Nearest32 m result }
{
    if std::num::wrapping_sub_u64(m, 0x3810_0000_0000_0000) < 0xfe0_0000_0000_0000 {
        rounded(m - 0x3800_0000_0000_0000, 29)
    } else {
        outside(m)
    }
}

// x at the narrower format: the nearest f32, a tie to the even one. NaN gives NaN.
pub fn narrow(x: f64) -> f32
    ensures { result ≡ narrowed x }
{
    if x.is_nan() {
        return 0.0 / 0.0;
    }
    let b: u64 = f64::to_bits(x);
    let m = b % 0x8000_0000_0000_0000;
    let s = (b >> 63) * 0x8000_0000;
    f32::from_bits((s + magnitude(m)) as u32)
}
