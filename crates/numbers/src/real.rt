// What f32 and f64 have in common: one algorithm serves both, by the trait's constants and patterns.
ghost use Rattle.std.specs.Prelude.{◌≡◌, ℕ, ◌*◌, ◌<◌, false, true, not, pos, to_bits, IsTrue, Float, refl};
ghost use Rattle.std.specs.Float.{nan, inf, fin, Format, binary32, binary64, NotNan};
ghost use Rattle.std.specs.Float.Ieee as Ieee;
ghost use Rattle.std.specs.Float.Ieee.{prec, emax, fits, ones, hid, of_bits};
ghost use Rattle.std.specs.Ordering.{partial_lt};
ghost use Rattle.numbers.specs.Laws.Real.{only_nan_of, less_of};

// A float type: it holds the values of one format, and compares them as IEEE 754 does.
pub trait Real: PartialOrd + Copy {
    ghost format: { Format };

    ghost value: { Self → Float };

    ghost ZERO: { Self };

    ghost INFINITY: { Self };

    ghost NAN: { Self };

    ghost DIGITS: { ℕ };

    ghost LARGEST_EXPONENT: { ℕ };

    const ZERO: Self;

    const INFINITY: Self;

    // the NaN as it is stored
    const NAN: Self;

    const DIGITS: u64;

    const LARGEST_EXPONENT: u64;

    // Its bit pattern, which a NaN has none of its own of.
    fn pattern(self) -> u64
        requires { NotNan (value self) }
        ensures held { IsTrue (fits format (value self)) }
        ensures value { result ≡ to_bits format (value self) };

    // The value of the pattern of a finite number that is not negative.
    fn of_pattern(pattern: u64) -> Self
        requires { pattern < ones format * hid format }
        ensures { value result ≡ of_bits format pattern };

    ghost zero_value: { value ZERO ≡ fin false 0 (pos 0) };

    ghost infinity_value: { value INFINITY ≡ inf false };

    ghost nan_value: { value NAN ≡ nan };

    ghost digits: { DIGITS ≡ prec format };

    ghost largest_exponent: { LARGEST_EXPONENT ≡ emax format };

    ghost told_by_value: { (x y : Self) → value x ≡ value y → x ≡ y };

    ghost only_nan: { (x : Self) → not (Self.eq x x) ≡ true → x ≡ NAN };

    ghost equal: { (x y : Self) → Self.eq x y ≡ Ieee.eq (value x) (value y) };

    ghost less: { (x y : Self) → partial_lt Self.partial_cmp x y ≡ Ieee.lt (value x) (value y) };
}

impl Real for f32 {
    ghost format = { binary32 };

    ghost value = { λ x. x };

    ghost ZERO = { fin false 0 (pos 0) };

    ghost INFINITY = { inf false };

    ghost NAN = { nan };

    ghost DIGITS = { 24 };

    ghost LARGEST_EXPONENT = { 127 };

    ghost zero_value = { refl };

    ghost infinity_value = { refl };

    ghost nan_value = { refl };

    ghost digits = { refl };

    ghost largest_exponent = { refl };

    ghost told_by_value = { λ x y e. e };

    ghost only_nan = { only_nan_of };

    ghost equal = { λ x y. refl };

    ghost less = { less_of };

    const ZERO: f32 = 0.0;

    const INFINITY: f32 = 1.0 / 0.0;

    const NAN: f32 = 0.0 / 0.0;

    const DIGITS: u64 = 24;

    const LARGEST_EXPONENT: u64 = 127;

    fn pattern(self) -> u64 {
        self.to_bits() as u64
    }

    fn of_pattern(pattern: u64) -> f32 {
        f32::from_bits(pattern as u32)
    }
}

impl Real for f64 {
    ghost format = { binary64 };

    ghost value = { λ x. x };

    ghost ZERO = { fin false 0 (pos 0) };

    ghost INFINITY = { inf false };

    ghost NAN = { nan };

    ghost DIGITS = { 53 };

    ghost LARGEST_EXPONENT = { 1023 };

    ghost zero_value = { refl };

    ghost infinity_value = { refl };

    ghost nan_value = { refl };

    ghost digits = { refl };

    ghost largest_exponent = { refl };

    ghost told_by_value = { λ x y e. e };

    ghost only_nan = { only_nan_of };

    ghost equal = { λ x y. refl };

    ghost less = { less_of };

    const ZERO: f64 = 0.0;

    const INFINITY: f64 = 1.0 / 0.0;

    const NAN: f64 = 0.0 / 0.0;

    const DIGITS: u64 = 53;

    const LARGEST_EXPONENT: u64 = 1023;

    fn pattern(self) -> u64 {
        self.to_bits()
    }

    fn of_pattern(pattern: u64) -> f64 {
        f64::from_bits(pattern)
    }
}
