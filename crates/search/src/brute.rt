// Document 01, "Spacing" and "trim": brute search among the usable points. A distance is the f32 root of (dx·dx+dy·dy)+dz·dz.
ghost use Rattle.std.specs.Prelude.{◌≡◌, cond, ◌&&◌};
ghost use Rattle.std.specs.Float.{binary32};
ghost use Rattle.std.specs.Float.Ieee as Ieee;
ghost use Rattle.numbers.specs.Arithmetic.{rooted};
ghost use Rattle.points.specs.Points.{usables, usable_of};
ghost use Rattle.search.specs.Search.{square_of, nearest_of, within_of};
ghost use Rattle.search.specs.Words.{least_with, open_to, least_map};

use points::{Point, squares};

// The two smallest numbers of a list, or all if it has fewer. An enum of its own, since three counts are no Option.
#[derive(Clone, Copy)]
pub enum Least {
    Empty,
    One(f32),
    Two(f32, f32),
}

impl Least {
    // One number more.
    fn with(self, d: f32) -> Least
        ensures { result ≡ least_with self d }
    {
        match self {
            Least::Empty => Least::One(d),
            Least::One(a) if d < a => Least::Two(d, a),
            Least::One(a) => Least::Two(a, d),
            Least::Two(a, b) if d < a => Least::Two(d, if a < b { a } else { b }),
            Least::Two(a, b) if d < b => Least::Two(a, d),
            Least::Two(_, _) => self,
        }
    }

    // Whether one number more may change anything.
    fn open_to(self, d: f32) -> bool
        ensures { result ≡ open_to self d }
    {
        match self {
            Least::Empty | Least::One(_) => true,
            Least::Two(a, b) => d < a || d < b,
        }
    }

    // The same with a point's square if the point is usable. Most squares change nothing, and then nobody asks.
    fn met(self, p: Point, d: f32) -> Least
        ensures { result ≡ cond (usable_of p) (least_with self d) self }
    {
        if self.open_to(d) && p.usable() {
            return self.with(d);
        }
        self
    }

    // The root of each.
    fn roots(self) -> Least
        ensures { result ≡ least_map (rooted binary32) self }
    {
        match self {
            Least::Empty => Least::Empty,
            Least::One(a) => Least::One(arith::root(a)),
            Least::Two(a, b) => Least::Two(arith::root(a), arith::root(b)),
        }
    }
}

// The square of a point's distance from a query place.
fn square(query: [f32; 3], p: Point) -> f32
    ensures { result ≡ square_of query p }
{
    squares(p.at[0] - query[0], p.at[1] - query[1], p.at[2] - query[2])
}

// The two smallest distances of the usable points from a place. Squares are compared, and two roots taken at the end.
pub fn nearest(points: &[f32], query: [f32; 3]) -> Least
    ensures { result ≡ nearest_of (usables points.now) query }
{
    Point::all(points)
        .fold(Least::Empty, |least, p| least.met(p, square(query, p)))
        .roots()
}

// Whether a point is usable and its square at most the limit. The cheaper test comes first.
fn reaches(p: Point, query: [f32; 3], limit: f32) -> bool
    ensures { result ≡ usable_of p && Ieee.le (square_of query p) limit }
{
    square(query, p) <= limit && p.usable()
}

// Whether some usable point's squared distance from a place is at most the limit.
pub fn within(points: &[f32], query: [f32; 3], limit: f32) -> bool
    ensures { result ≡ within_of (usables points.now) query limit }
{
    Point::all(points).any(|p| reaches(p, query, limit))
}
