// Document 01, "Points": a position and a normal, and which points are usable.
ghost use Rattle.std.specs.Prelude.{◌≡◌, ◌<◌, ◌^◌, length, is_ok};
ghost use Rattle.std.specs.Float.{binary32};
ghost use Rattle.std.specs.Iterator.{YieldsFirst, item_count};
ghost use Rattle.std.specs.Iterator.Runs.{YieldsInOrder};
ghost use Rattle.numbers.specs.Arithmetic.{rooted};
ghost use Rattle.points.specs.Points.{given, point_at, points_of, points_left, squares_of, length_of, length_usability, placed_of};
ghost use Rattle.points.specs.Points.{usability_of, usable_of, position_of, unit_of, usables};

// A position and a normal.
#[derive(Clone, Copy)]
pub struct Point {
    pub at: [f32; 3],
    pub normal: [f32; 3],
}

// Why a point is skipped, in the order of checking.
#[derive(Clone, Copy, Debug, PartialEq, Eq)]
pub enum Unusable {
    PositionNotFinite,
    LengthNotFinite,
    NormalTooShort,
}

// (x·x + y·y) + z·z, which overflows and vanishes as f32 does.
pub fn squares(x: f32, y: f32, z: f32) -> f32
    ensures { result ≡ squares_of x y z }
{
    (x * x + y * y) + z * z
}

// What a normal's length says. It is compared in f32: the literal is the f32 nearest 1e-12.
fn judge(length: f32) -> Result<(), Unusable>
    ensures { result ≡ length_usability length }
{
    if !length.is_finite() {
        return Err(Unusable::LengthNotFinite);
    }
    if length < 0.000000000001 {
        return Err(Unusable::NormalTooShort);
    }
    Ok(())
}

// Whether a normal has a usable length. A square between 1e-24 and 1e30 settles it, and no root is taken.
fn long(x: f32, y: f32, z: f32) -> bool
    ensures { result ≡ is_ok (length_usability (rooted binary32 (squares_of x y z))) }
{
    let square = squares(x, y, z);
    if square > 0.000000000000000000000001 && square < 1000000000000000000000000000000.0 {
        return true;
    }
    judge(arith::root(square)).is_ok()
}

impl Point {
    // How many numbers a point has. Only `given`, `read` and the iterator know it.
    pub const NUMBERS: usize = 6;

    // How many points a slice holds.
    pub fn given(points: &[f32]) -> usize
        ensures { result ≡ given points.now }
    {
        points.len() / Point::NUMBERS
    }

    // Point i of a slice.
    pub fn read(points: &[f32], i: usize) -> Point
        requires { i < given points.now }
        ensures { result ≡ point_at points.now i }
    {
        let k = i * Point::NUMBERS;
        Point {
            at: [points[k], points[k + 1], points[k + 2]],
            normal: [points[k + 3], points[k + 4], points[k + 5]],
        }
    }

    // All points of a slice, in the order given.
    pub fn all(points: &[f32]) -> Points<'_>
        ensures whole { result.rest.now ≡ points.now }
        ensures left { points_left result ≡ points_of points.now }
        ensures runs { YieldsInOrder (YieldsFirst points_left) points_left }
        ensures fits { length (points_left result) < 2 ^ 64 }
    {
        Points { rest: points }
    }

    // The normal's length, in f32 and not in f64.
    fn length(self) -> f32
        ensures { result ≡ length_of self }
    {
        arith::root(squares(self.normal[0], self.normal[1], self.normal[2]))
    }

    // Whether each position component is finite.
    fn placed(self) -> bool
        ensures { result ≡ placed_of self }
    {
        self.at[0].is_finite() && self.at[1].is_finite() && self.at[2].is_finite()
    }

    // Why the point is skipped: the position is looked at first, then the length.
    pub fn usability(self) -> Result<(), Unusable>
        ensures { result ≡ usability_of self }
    {
        if !self.placed() {
            return Err(Unusable::PositionNotFinite);
        }
        judge(self.length())
    }

    // Whether it is not skipped. No more than the shadow of `usability`, but the hot loops ask this and take no root.
    pub fn usable(self) -> bool
        ensures { result ≡ usable_of self }
    {
        self.placed() && long(self.normal[0], self.normal[1], self.normal[2])
    }

    // The position in f64.
    pub fn place(self) -> [f64; 3]
        ensures { result ≡ position_of self }
    {
        [
            arith::widen(self.at[0]),
            arith::widen(self.at[1]),
            arith::widen(self.at[2]),
        ]
    }

    // The normal's components over its length: divided in f32, then widened.
    pub fn unit(self) -> [f64; 3]
        ensures { result ≡ unit_of self }
    {
        let n = self.length();
        [
            arith::widen(self.normal[0] / n),
            arith::widen(self.normal[1] / n),
            arith::widen(self.normal[2] / n),
        ]
    }
}

// The points of a slice, one after the other.
#[derive(Clone, Copy)]
pub struct Points<'a> {
    rest: &'a [f32],
}

impl Iterator for Points<'_> {
    type Item = Point;

    ghost next_gives = { YieldsFirst points_left };

    ghost remaining = { item_count points_left };

    fn next(&mut self) -> Option<Point> {
        if self.rest.len() < Point::NUMBERS {
            return None;
        }
        let p = Point::read(self.rest, 0);
        self.rest = &self.rest[Point::NUMBERS..];
        Some(p)
    }
}

// How many points are usable. By an index: over `Point::all` a point costs a quarter to three quarters more.
pub fn usable_count(points: &[f32]) -> usize
    ensures { result ≡ length (usables points.now) }
{
    let mut n = 0usize;
    for i in 0..Point::given(points) {
        let p = Point::read(points, i);
        if p.usable() {
            n += 1;
        }
    }
    n
}
