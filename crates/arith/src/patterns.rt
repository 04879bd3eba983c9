// The float of a bit pattern, and the pattern of a float. Every NaN pattern is the one NaN, which goes out as 01 stores it. std has one function a format
// too: no bound of its own speaks of both.
ghost use Rattle.std.specs.Prelude.{◌≡◌, from_bits, to_bits};
ghost use Rattle.std.specs.Float.{binary32, binary64};

pub fn float32(pattern: u32) -> f32
    ensures { result ≡ from_bits binary32 pattern }
{
    std::num::f32_from_bits_with_nan(pattern)
}

pub fn float64(pattern: u64) -> f64
    ensures { result ≡ from_bits binary64 pattern }
{
    std::num::f64_from_bits_with_nan(pattern)
}

pub fn pattern32(x: f32) -> u32
    ensures { result ≡ to_bits binary32 x }
{
    std::num::f32_to_bits_with_nan(x)
}

pub fn pattern64(x: f64) -> u64
    ensures { result ≡ to_bits binary64 x }
{
    std::num::f64_to_bits_with_nan(x)
}
