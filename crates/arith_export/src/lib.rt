// The functions of `arith` for C and Rust to call, so that they can be tested and timed on any processor. Each is that of `arith`, and its contract too.
#![tactic(auto)]

ghost use Rattle.std.specs.Prelude.{◌≡◌};
ghost use Rattle.std.specs.Float.{binary32, binary64};
ghost use Rattle.std.specs.Float.Ieee.{to_unsigned};
ghost use Rattle.numbers.specs.Arithmetic.{rooted, narrowed, floored, ceiled, signed, clamped, least, largest, exp_neg};

#[unsafe(no_mangle)]
pub extern "C" fn hoardmagpie_root32(x: f32) -> f32
    ensures { result ≡ rooted binary32 x }
{
    arith::root(x)
}

#[unsafe(no_mangle)]
pub extern "C" fn hoardmagpie_root64(x: f64) -> f64
    ensures { result ≡ rooted binary64 x }
{
    arith::root(x)
}

#[unsafe(no_mangle)]
pub extern "C" fn hoardmagpie_narrow(x: f64) -> f32
    ensures { result ≡ narrowed x }
{
    arith::narrow(x)
}

#[unsafe(no_mangle)]
pub extern "C" fn hoardmagpie_widen(x: f32) -> f64
    ensures { result ≡ x }
{
    arith::widen(x)
}

#[unsafe(no_mangle)]
pub extern "C" fn hoardmagpie_floor(x: f64) -> f64
    ensures { result ≡ floored x }
{
    arith::floor(x)
}

#[unsafe(no_mangle)]
pub extern "C" fn hoardmagpie_ceiling(x: f64) -> f64
    ensures { result ≡ ceiled x }
{
    arith::ceiling(x)
}

#[unsafe(no_mangle)]
pub extern "C" fn hoardmagpie_sign(x: f64) -> f64
    ensures { result ≡ signed x }
{
    arith::sign(x)
}

#[unsafe(no_mangle)]
pub extern "C" fn hoardmagpie_exp_neg(x: f64) -> f32
    ensures { result ≡ exp_neg x }
{
    arith::exp_neg(x)
}

#[unsafe(no_mangle)]
pub extern "C" fn hoardmagpie_to_whole(x: f64) -> u64
    ensures { result ≡ to_unsigned 64 x }
{
    arith::to_whole(x)
}

#[unsafe(no_mangle)]
pub extern "C" fn hoardmagpie_canonical32(x: f32) -> f32
    ensures { result ≡ x }
{
    arith::canonical(x)
}

#[unsafe(no_mangle)]
pub extern "C" fn hoardmagpie_canonical64(x: f64) -> f64
    ensures { result ≡ x }
{
    arith::canonical(x)
}

#[unsafe(no_mangle)]
pub extern "C" fn hoardmagpie_clamp32(x: f32, lo: f32, hi: f32) -> f32
    ensures { result ≡ clamped x lo hi }
{
    arith::clamp(x, lo, hi)
}

#[unsafe(no_mangle)]
pub extern "C" fn hoardmagpie_clamp64(x: f64, lo: f64, hi: f64) -> f64
    ensures { result ≡ clamped x lo hi }
{
    arith::clamp(x, lo, hi)
}

#[unsafe(no_mangle)]
pub extern "C" fn hoardmagpie_least(x: f64, y: f64) -> f64
    ensures { result ≡ least x y }
{
    arith::least(x, y)
}

#[unsafe(no_mangle)]
pub extern "C" fn hoardmagpie_largest(x: f64, y: f64) -> f64
    ensures { result ≡ largest x y }
{
    arith::largest(x, y)
}
